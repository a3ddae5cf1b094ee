// The seams between contracts of the coordinator's calls that give and close no id, and turns of a run, each the clause of a function with an empty body.
ghost use Rattle.std.specs.Prelude.{ℕ};
ghost use Rattle.turns.specs.CoordinatorSeamLaws.{AwayIsForgotten, BatchAnswers, BatchHasCause, BatchTurns, DecideHasCause, DecisionsAreForgotten, HeadsAnswer, HeadsHaveCause, HeadsTurn, InquiriesAnswer, KeptAnswers, PlacesAreFound, RaiseHasCause, RaisesTurn, ResolvingTurns, StillTurns, UndecidedAreNotFound, UnsureAnswers, VerdictsTurn};

use device::Device;
use laws::Leavings;

/// The heads that the coordinator answers are right, and give an answer its place; the flow that asked holds them in a turn of a run; and if they
/// refuse it, with `Future` or `Collected`, that has its cause.
pub fn heads_take_their_turn<W: Leavings, D: Device>()
    ensures answer { (store shards : ℕ) → HeadsAnswer store shards W.left D }
    ensures turn { (store shards : ℕ) → HeadsTurn store shards W.left D }
    ensures cause { (store shards : ℕ) → HeadsHaveCause store shards W.left D }
    ensures places { PlacesAreFound }
{}

/// The decisions that the coordinator answers are those of the log after a place; the flow holds them in a turn of a run.
pub fn batch_takes_its_turn<W: Leavings, D: Device>()
    ensures answer { (store shards : ℕ) → BatchAnswers store shards W.left D }
    ensures turn { (store shards : ℕ) → BatchTurns store shards W.left D }
    ensures cause { (store shards : ℕ) → BatchHasCause store shards W.left D }
{}

/// Each refusal of `decide` other than `Down` has its cause.
pub fn decide_has_cause<W: Leavings, D: Device>()
    ensures { (store shards : ℕ) → DecideHasCause store shards W.left D }
{}

/// What the coordinator finds of an id is right; a resolution notes it, and a write holds a verdict on itself, in a turn of a run. A write that is not
/// decided is never found at a place.
pub fn inquire_takes_its_turn<W: Leavings, D: Device>()
    ensures answer { (store shards : ℕ) → InquiriesAnswer store shards W.left D }
    ensures resolving { (store shards : ℕ) → ResolvingTurns store shards W.left }
    ensures writing { (store shards : ℕ) → VerdictsTurn store shards W.left }
    ensures undecided { (store shards : ℕ) → UndecidedAreNotFound store shards W.left D }
{}

/// A write whose decision is kept ends with its place in a turn of a run; with `Unsure` if the coordinator failed or was opened since; and it goes on
/// with what it holds if the decision is still staged.
pub fn outcome_takes_its_turn<W: Leavings, D: Device>()
    ensures kept { (store shards : ℕ) → KeptAnswers store shards W.left D }
    ensures later { (store shards : ℕ) → StillTurns store shards W.left }
    ensures unsure { (store shards : ℕ) → UnsureAnswers store shards W.left }
    ensures forgotten { (store shards : ℕ) → DecisionsAreForgotten store shards W.left D }
    ensures away { AwayIsForgotten }
{}

/// A raise that the coordinator takes is a turn of a run, after which its flow holds that the horizon is staged; and each refusal of one has its cause.
pub fn raise_takes_its_turn<W: Leavings, D: Device>()
    ensures turn { (store shards : ℕ) → RaisesTurn store shards W.left D }
    ensures cause { (store shards : ℕ) → RaiseHasCause store shards W.left D }
{}
