// Laws of the turns of flows that answer requests, each the clause of a function with an empty body.
ghost use Rattle.std.specs.Prelude.{ℕ};
ghost use Rattle.flow_turns.specs.AnswerTurns.{WatchesTurn};
ghost use Rattle.flow_turns.specs.CheckTurns.{ChecksTurn};
ghost use Rattle.flow_turns.specs.ReadTurns.{ReadsTurn};

use device::Device;

/// A watch goes on with heads that are right, lists the changes after its cursor, or ends with a refusal that has its cause.
pub fn watches_take_their_turn<D: Device>()
    ensures { (store shards : ℕ) → WatchesTurn D.state D.honest D.moment D.left_since store shards }
{}

/// A read goes on with a place and rows that are right, answers what its tuplesets select at the place, or ends with a refusal that has its cause.
pub fn reads_take_their_turn<D: Device>()
    ensures { (store shards : ℕ) → ReadsTurn D.state D.honest D.moment D.left_since store shards }
{}

/// A check goes on with a place and usersets that are right, answers whether the user is a member at the place, or ends with a refusal that has its cause.
pub fn checks_take_their_turn<D: Device>()
    ensures { (store shards : ℕ) → ChecksTurn D.state D.honest D.moment D.left_since store shards }
{}
