// Laws of a shard that is tied, each the clause of a function with an empty body.
ghost use Rattle.std.specs.Prelude.{ℕ};
ghost use Rattle.ties.specs.ShardTieLaws.{CheckReadsAreSeen, CollectionsStayTied, DropsStayTied, FailedShardCheckpointsStayTied, FailedShardFlushesStayTied, LearningsStayTied, LongerListsStayTied, PreparesStayTied, ReadsAreSeen, RefusedShardOpeningsStayTied, ShardCheckpointsStayTied, ShardFlushesStayTied, ShardOpeningsStayTied, ShardTiedUpIsTied};

use device::Device;

/// A pass may learn of a longer list and of a later horizon: the shard stays tied.
pub fn longer_lists_stay_tied<D: Device>()
    ensures { (store shards s : ℕ) → LongerListsStayTied D.state D.honest store shards s }
{}

/// If a shard is up and tied, a stop leaves its part of the list.
pub fn shard_tied_up_is_tied<D: Device>()
    ensures { (store shards s : ℕ) → ShardTiedUpIsTied D.state D.honest store shards s }
{}

/// A prepare leaves the shard tied.
pub fn prepares_stay_tied<D: Device>()
    ensures { (store shards s : ℕ) → PreparesStayTied D.state D.honest store shards s }
{}

/// A drop leaves the shard tied.
pub fn drops_stay_tied<D: Device>()
    ensures { (store shards s : ℕ) → DropsStayTied D.state D.honest store shards s }
{}

/// A batch of the list leaves the shard tied, and with all of it if it says that it is known.
pub fn learnings_stay_tied<D: Device>()
    ensures { (store shards s : ℕ) → LearningsStayTied D.state D.honest store shards s }
{}

/// A collection up to a horizon that was seen leaves the shard tied.
pub fn collections_stay_tied<D: Device>()
    ensures { (store shards s : ℕ) → CollectionsStayTied D.state D.honest store shards s }
{}

/// A flush leaves the shard tied.
pub fn shard_flushes_stay_tied<D: Device>()
    ensures { (store shards s : ℕ) → ShardFlushesStayTied D.state D.honest store shards s }
{}

/// If a device failed in a flush, a stop leaves the shard's part of the list.
pub fn failed_shard_flushes_stay_tied<D: Device>()
    ensures { (store shards s : ℕ) → FailedShardFlushesStayTied D.state D.honest D.moment D.left_since store shards s }
{}

/// A checkpoint leaves the shard tied: other records stand for the same rows.
pub fn shard_checkpoints_stay_tied<D: Device>()
    ensures { (store shards s : ℕ) → ShardCheckpointsStayTied D.state D.honest store shards s }
{}

/// If a device failed in a checkpoint, a stop leaves the shard's part of the list.
pub fn failed_shard_checkpoints_stay_tied<D: Device>()
    ensures { (store shards s : ℕ) → FailedShardCheckpointsStayTied D.state D.honest D.moment D.left_since store shards s }
{}

/// A shard that is opened again has its part of the list.
pub fn shard_openings_stay_tied<D: Device>()
    ensures { (store shards s : ℕ) → ShardOpeningsStayTied D.state D.honest D.moment D.left_since store shards s }
{}

/// An opening that is refused leaves the shard's part of the list, for the next one.
pub fn refused_shard_openings_stay_tied<D: Device>()
    ensures { (store shards s : ℕ) → RefusedShardOpeningsStayTied D.state D.honest D.moment D.left_since store shards s }
{}

/// What is read at a place is what a tupleset selects of the list there, of the shard's own tuples.
pub fn reads_are_seen<D: Device>()
    ensures { (store shards s : ℕ) → ReadsAreSeen D.state D.honest store shards s }
{}

/// What a check asks at a place is of the list there, of the shard's own tuples.
pub fn check_reads_are_seen<D: Device>()
    ensures { (store shards s : ℕ) → CheckReadsAreSeen D.state D.honest store shards s }
{}
