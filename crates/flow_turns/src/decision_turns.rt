// A write is begun, decided and told its outcome: laws of each call, the clause of a function with an empty body.
ghost use Rattle.std.specs.Prelude.{ℕ};
ghost use Rattle.tuples.specs.Writes.{WriteValue};
ghost use Rattle.std.specs.Global.{Vec};
ghost use Rattle.decisions.specs.Standing.{DecidedValue};
ghost use Rattle.decisions.specs.Values.{IntentValue, VoteValue};
ghost use Rattle.calls.specs.declared.call.NodeCall.TheVariants.{Coordinator};
ghost use Rattle.calls.specs.declared.call.CoordinatorCall.TheVariants.{Begin, Decide, Outcome};
ghost use Rattle.flow_turns.specs.WriteTurns.{TurnsBy};

use device::Device;

/// To begin a write is a turn of a run: it goes on with its intent, or ends with a refusal that has its cause.
pub fn begin_takes_its_turn<D: Device>()
    ensures { (store shards : ℕ) (write : WriteValue) → TurnsBy D.state D.honest D.moment D.left_since store shards (Coordinator (Begin write)) }
{}

/// To decide a write that all have voted for is a turn of a run: the log has it from then on, and the flow the decision.
pub fn decide_takes_its_turn<D: Device>()
    ensures { (store shards : ℕ) (intent : IntentValue) (votes : Vec VoteValue) → TurnsBy D.state D.honest D.moment D.left_since store shards (Coordinator (Decide intent votes)) }
{}

/// To ask for the outcome of a decision is a turn of a run: the write ends with its place, if that is kept, or with `Unsure`.
pub fn outcome_takes_its_turn<D: Device>()
    ensures { (store shards : ℕ) (d : DecidedValue) → TurnsBy D.state D.honest D.moment D.left_since store shards (Coordinator (Outcome d)) }
{}
