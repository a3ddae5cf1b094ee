// A write flow, whatever it asks, and its cancel: laws, each the clause of a function with an empty body.
ghost use Rattle.std.specs.Prelude.{ℕ};
ghost use Rattle.flow_turns.specs.WriteCancels.{CancelsRun};
ghost use Rattle.flow_turns.specs.WriteTurns.{AllTurn};

use device::Device;

/// Each call that a write flow asks is a turn of a run, whatever its node answers, even down or refused: the flow goes on with what it is then seen to
/// hold, or ends with the place of its write or with a refusal that has its cause.
pub fn writes_take_their_turn<D: Device>()
    ensures { (store shards : ℕ) → AllTurn D.state D.honest D.moment D.left_since store shards }
{}

/// A cancel of a write flow, between two of its turns, is a step of a run.
pub fn cancelled_writes_run<D: Device>()
    ensures { (store shards : ℕ) → CancelsRun D.state D.honest D.moment D.left_since store shards }
{}
