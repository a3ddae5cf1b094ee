// Laws of the turns in which a flow flushes a node, each the clause of a function with an empty body.
ghost use Rattle.std.specs.Prelude.{ℕ};
ghost use Rattle.turns.specs.FlushTurns.{FailedFlushesAnswer, FlushesAnswer, ShardFlushesAnswer};

use laws::Leavings;

/// A flush of the coordinator is a turn of a run, in which the flow that asked for it answers that it is done.
pub fn flushes_answer<W: Leavings>()
    ensures { (store shards : ℕ) → FlushesAnswer store shards W.left W.left_after }
{}

/// And one that fails is a turn in which that flow ends with `Down`, which has its cause.
pub fn failed_flushes_answer<W: Leavings>()
    ensures { (store shards : ℕ) → FailedFlushesAnswer store shards W.left W.left_after }
{}

/// A flush of a shard is a turn of a run, in which the flow that asked for it is done, or ends with `Down`.
pub fn shard_flushes_answer<W: Leavings>()
    ensures { (store shards : ℕ) → ShardFlushesAnswer store shards W.left W.left_after }
{}
