// Laws of quiet turns, of whatever node, each the clause of a function with an empty body.
ghost use Rattle.std.specs.Prelude.{ℕ};
ghost use Rattle.turns.specs.QuietTurns.{AwayNodesHaveCause, QuietCallsAnswer, QuietCallsEnd, QuietCallsKeep, QuietCallsRefuse, QuietCallsTurn, RefusedFlowsEnd, RefusedWritesGoOut, WritesSpend};

use laws::Leavings;

/// A quiet call, after which its flow holds what is right, is a turn of a run.
pub fn quiet_calls_take_their_turn<W: Leavings>()
    ensures { (store shards : ℕ) → QuietCallsTurn store shards W.left W.left_after }
{}

/// So is one whose flow holds what it held, except for decisions on their way.
pub fn quiet_calls_keep<W: Leavings>()
    ensures { (store shards : ℕ) → QuietCallsKeep store shards W.left W.left_after }
{}

/// So is one with which its flow ends, with an answer that agrees.
pub fn quiet_calls_answer<W: Leavings>()
    ensures { (store shards : ℕ) → QuietCallsAnswer store shards W.left W.left_after }
{}

/// Or with a refusal.
pub fn quiet_calls_refuse<W: Leavings>()
    ensures { (store shards : ℕ) → QuietCallsRefuse store shards W.left W.left_after }
{}

/// Or, cancelled, with nothing.
pub fn quiet_calls_end_cancelled_flows<W: Leavings>()
    ensures { (store shards : ℕ) → QuietCallsEnd store shards W.left W.left_after }
{}

/// A write that is refused before its decision goes out with the refusal, in a turn of a run.
pub fn refused_writes_go_out<W: Leavings>()
    ensures { (store shards : ℕ) → RefusedWritesGoOut store shards W.left W.left_after }
{}

/// Each other flow that is refused ends with the refusal.
pub fn refused_flows_end<W: Leavings>()
    ensures { (store shards : ℕ) → RefusedFlowsEnd store shards W.left W.left_after }
{}

/// A write that spends some of what it holds, as a ticket or a vote, goes on in a turn of a run.
pub fn writes_spend_what_they_hold<W: Leavings>()
    ensures { (store shards : ℕ) → WritesSpend store shards W.left W.left_after }
{}

/// What a node that is down, or whose opening was refused, answers has its cause.
pub fn away_nodes_have_cause<W: Leavings>()
    ensures { (store shards : ℕ) → AwayNodesHaveCause store shards W.left W.left_after }
{}
