// Laws of the ends of flows, each the clause of a function with an empty body.
ghost use Rattle.std.specs.Prelude.{ℕ};
ghost use Rattle.turns.specs.AnswerLaws.{ChecksAnswerNo, ChecksAnswerYes, CollectsAnswer, CoordinatorFlushesAreQuiet, FailedFlushesAreQuiet, LearnsAnswer, RaisesAnswer, ReadsAnswer, RefusedWritesEnd, ResolvesAnswer, WatchesAnswer};

use laws::Leavings;

/// A read, a check or a watch that has what it needs ends with an answer that agrees, in a turn of a run; and a write that was refused ends with the
/// refusal that it met.
pub fn answers_agree<W: Leavings>()
    ensures reads { (store shards : ℕ) → ReadsAnswer store shards W.left W.left_after }
    ensures checks_yes { (store shards : ℕ) → ChecksAnswerYes store shards W.left W.left_after }
    ensures checks_no { (store shards : ℕ) → ChecksAnswerNo store shards W.left W.left_after }
    ensures watches { (store shards : ℕ) → WatchesAnswer store shards W.left W.left_after }
    ensures refused { (store shards : ℕ) → RefusedWritesEnd store shards W.left W.left_after }
{}

/// So does a care of the nodes: a shard's learning, a resolution, a collection, and a raise of the horizon with the flush after it.
pub fn cares_agree<W: Leavings>()
    ensures learning { (store shards : ℕ) → LearnsAnswer store shards W.left W.left_after }
    ensures resolving { (store shards : ℕ) → ResolvesAnswer store shards W.left W.left_after }
    ensures collecting { (store shards : ℕ) → CollectsAnswer store shards W.left W.left_after }
    ensures raising { (store shards : ℕ) → RaisesAnswer store shards W.left W.left_after }
{}

/// A flush of the coordinator is a quiet call of whichever flow asks for it, and so is one that fails, with the cause of `Down`.
pub fn coordinator_flushes_are_quiet<W: Leavings>()
    ensures ok { (store shards : ℕ) → CoordinatorFlushesAreQuiet store shards W.left W.left_after }
    ensures failed { (store shards : ℕ) → FailedFlushesAreQuiet store shards W.left W.left_after }
{}
