// The seams between the contracts of a shard's opening and flush and steps of a run, over the devices of a store, each the clauses of a function with an
// empty body.
ghost use Rattle.std.specs.Prelude.{ℕ};
ghost use Rattle.turns.specs.ShardOpeningLaws.{FailedShardFlushesAreQuiet, FailedShardsHaveCause, FullShardsWereOpened, NoShardIsDamaged, RefusedOpeningsStep, ShardFlushesAreQuiet, ShardOpeningsStep};

use device::Device;

/// A shard's opening that answers Ok, by its contract alone, is a step of a run, and the shard comes up; and so is one that is refused. One that answers `Full` was opened as often as
/// possible, one in which a device failed has its cause, and none answers `Damaged` over the devices of a store at rest.
pub fn shard_opening_takes_its_step<D: Device>()
    ensures ok { (store shards : ℕ) → ShardOpeningsStep D.state D.honest D.moment D.left_since store shards }
    ensures refused { (store shards : ℕ) → RefusedOpeningsStep D.state D.honest D.moment D.left_since store shards }
    ensures full { (store shards : ℕ) → FullShardsWereOpened D.state D.honest D.moment D.left_since store shards }
    ensures failed { (store shards : ℕ) → FailedShardsHaveCause D.state D.honest D.moment D.left_since store shards }
    ensures damaged { (store shards : ℕ) → NoShardIsDamaged D.state D.honest D.moment D.left_since store shards }
{}

/// A flush is quiet, whatever flow makes it, whether it answers Ok or fails.
pub fn flushes_of_shards_are_quiet<D: Device>()
    ensures ok { (store shards : ℕ) → ShardFlushesAreQuiet D.state D.honest D.moment D.left_since store shards }
    ensures failed { (store shards : ℕ) → FailedShardFlushesAreQuiet D.state D.honest D.moment D.left_since store shards }
{}
