// The seams between contracts of a shard's calls and turns of a run, each the clauses of a function with an empty body.
ghost use Rattle.std.specs.Prelude.{ℕ};
ghost use Rattle.turns.specs.ShardCheckLaws.{CheckTurns, CheckYesTurns, RefusedChecksHaveCause};
ghost use Rattle.turns.specs.ShardSeamLaws.{CollectTurns, DropTurns, LearnAnswers, LearnTurns, PrepareTurns, ReadOneTurns, ReadTurns, RefusedCollectsHaveCause, RefusedLearnsHaveCause, RefusedPrepareTurns, RefusedReadsHaveCause, RefusedVoteTurns, ResolvedDropTurns, SettleTurns, ToldDoubtsAreGiven, VoteTurns};

use device::Device;
use laws::Leavings;

/// A prepare, by the contract of the shard's call alone, is a turn of a run, after which its flow holds one more ticket; and so is one
/// that is refused, with which the write goes out.
pub fn prepare_takes_its_turn<W: Leavings, D: Device>()
    ensures ok { (store shards : ℕ) → PrepareTurns store shards W.left D.state D.honest }
    ensures refused { (store shards : ℕ) → RefusedPrepareTurns store shards W.left D.state D.honest }
{}

/// So is a vote, after which its flow holds it instead of its ticket; and one that is refused, with which the write goes out.
pub fn vote_takes_its_turn<W: Leavings, D: Device>()
    ensures yes { (store shards : ℕ) → VoteTurns store shards W.left D.state D.honest }
    ensures aborted { (store shards : ℕ) → RefusedVoteTurns store shards W.left D.state D.honest }
{}

/// So is what a shard learns for whatever flow. A learning is done if it learns up to the kept place of its heads. What
/// it refuses to learn has its cause, and is never `Damaged`.
pub fn learn_takes_its_turn<W: Leavings, D: Device>()
    ensures ok { (store shards : ℕ) → LearnTurns store shards W.left D.state D.honest }
    ensures ends { (store shards : ℕ) → LearnAnswers store shards W.left D.state D.honest }
    ensures refused { (store shards : ℕ) → RefusedLearnsHaveCause store shards W.left D.state D.honest }
{}

/// So is a drop, by the verdict of a write flow or of a resolution.
pub fn drop_takes_its_turn<W: Leavings, D: Device>()
    ensures own { (store shards : ℕ) → DropTurns store shards W.left D.state D.honest }
    ensures resolved { (store shards : ℕ) → ResolvedDropTurns store shards W.left D.state D.honest }
{}

/// The ids that a shard reports as in doubt were given out.
pub fn told_doubts_are_given<W: Leavings, D: Device>()
    ensures { (store shards : ℕ) → ToldDoubtsAreGiven store shards W.left D.state D.honest }
{}

/// So is a read, of the next shard of all or of the one that has all. What it refuses has its cause.
pub fn read_takes_its_turn<W: Leavings, D: Device>()
    ensures next { (store shards : ℕ) → ReadTurns store shards W.left D.state D.honest }
    ensures one { (store shards : ℕ) → ReadOneTurns store shards W.left D.state D.honest }
    ensures refused { (store shards : ℕ) → RefusedReadsHaveCause store shards W.left D.state D.honest }
{}

/// So is a read for a check, which then has walked one more userset, or says yes. What it refuses has its cause.
pub fn check_takes_its_turn<W: Leavings, D: Device>()
    ensures walks { (store shards : ℕ) → CheckTurns store shards W.left D }
    ensures yes { (store shards : ℕ) → CheckYesTurns store shards W.left D }
    ensures refused { (store shards : ℕ) → RefusedChecksHaveCause store shards W.left D }
{}

/// So is what a shard has settled.
pub fn settle_takes_its_turn<W: Leavings, D: Device>()
    ensures { (store shards : ℕ) → SettleTurns store shards W.left D.state D.honest }
{}

/// So is a collection, with which its flow is done. One that has no room has its cause.
pub fn collect_takes_its_turn<W: Leavings, D: Device>()
    ensures ok { (store shards : ℕ) → CollectTurns store shards W.left D.state D.honest }
    ensures full { (store shards : ℕ) → RefusedCollectsHaveCause store shards W.left D.state D.honest }
{}
