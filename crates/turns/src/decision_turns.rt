// A law of the turn in which a flow decides, the clause of a function with an empty body.
ghost use Rattle.std.specs.Prelude.{ℕ};
ghost use Rattle.turns.specs.DecisionTurns.{DecidersTurn};

use laws::Leavings;

/// With the flow that decided in its slot the whole store stands, and the step is a turn of a run in which the flow decides.
pub fn deciders_take_their_turn<W: Leavings>()
    ensures { (store shards : ℕ) → DecidersTurn store shards W.left }
{}
