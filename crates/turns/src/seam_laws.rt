// The seams between contracts of the coordinator's calls and turns of a run, each the clause of a function with an empty body.
ghost use Rattle.std.specs.Prelude.{ℕ};
ghost use Rattle.turns.specs.SeamLaws.{AbortTurns, BeginHasCause, BeginTurns, DecideTurns};

use device::Device;
use laws::Leavings;

/// A decision, by the contract of the coordinator's call alone, is a turn of a run.
pub fn decide_takes_its_turn<W: Leavings, D: Device>()
    ensures { (store shards : ℕ) → DecideTurns store shards W.left D }
{}

/// So is a write that is begun.
pub fn begin_takes_its_turn<W: Leavings, D: Device>()
    ensures { (store shards : ℕ) → BeginTurns store shards W.left D }
{}

/// Each refusal of `begin` has its cause.
pub fn begin_has_cause<W: Leavings, D: Device>()
    ensures { (store shards : ℕ) → BeginHasCause store shards W.left D }
{}

/// So is a write that is aborted, whether its flow was cancelled or not.
pub fn abort_takes_its_turn<W: Leavings, D: Device>()
    ensures { (store shards : ℕ) → AbortTurns store shards W.left D }
{}
