// Laws of reads, each the clause of a function with an empty body.
ghost use Rattle.std.specs.Prelude.{ℕ};
ghost use Rattle.stores.specs.ReadingLaws.{OneShardIsEnough, ReadsAgree, ReadsAskAll, ReadsBegin, ReadsFinishOne, ReadsGoOn, RepliesSelect, ShardRowsShowSnapshots};

use laws::Leavings;

/// A shard's rows show which of its own tuples were there at a place, and no others.
pub fn shard_rows_show_snapshots()
    ensures { ShardRowsShowSnapshots }
{}

/// If all tuples of a tupleset have one shard, what that shard selects is what the tupleset selects.
pub fn one_shard_is_enough()
    ensures { OneShardIsEnough }
{}

/// A shard's answer at a kept place is what the tupleset selects of its tuples.
pub fn replies_select<W: Leavings>()
    ensures { (store shards : ℕ) → RepliesSelect store shards W.left }
{}

/// A read that finds its place holds what is right.
pub fn reads_begin<W: Leavings>()
    ensures { (store shards : ℕ) → ReadsBegin store shards W.left }
{}

/// With the answer of the next shard a read holds what is right.
pub fn reads_go_on<W: Leavings>()
    ensures { (store shards : ℕ) → ReadsGoOn store shards W.left }
{}

/// The rows of all shards are those of the tupleset.
pub fn reads_ask_all<W: Leavings>()
    ensures { (store shards : ℕ) → ReadsAskAll store shards W.left }
{}

/// A tupleset that is done leaves a read holding what is right.
pub fn reads_finish_a_tupleset<W: Leavings>()
    ensures { (store shards : ℕ) → ReadsFinishOne store shards W.left }
{}

/// A read that has done all its tuplesets answers what agrees.
pub fn reads_agree<W: Leavings>()
    ensures { (store shards : ℕ) → ReadsAgree store shards W.left }
{}
