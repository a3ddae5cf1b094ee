//! Each call of a node and each turn of a flow, of a care, a write, a watch, a read or a check, is a turn of a run: laws that join what the flow asks for, what the
//! node answers and what the flow makes of that.
//!
//! Keeps: nothing at run time; each law is the contract of a function with an empty body.
//! Callers rely on: from any moment for which the store stands, a turn leads to one for which the store after it stands, and an answer agrees.
//!
//! Start at `specs/StoreCalls.antt`, a call of a node, `specs/StoreTurns.antt`, the promise of a turn, and `specs/Steps.antt`, the steps that call no node. The turn
//! of each kind of flow stands in `specs/CareTurns.antt`, `specs/WriteTurns.antt`, `specs/AnswerTurns.antt`, `specs/ReadTurns.antt` and `specs/CheckTurns.antt`.
#![tactic(auto)]

mod answer_laws;
mod call_laws;
mod care_laws;
mod catch_up_turns;
mod decision_turns;
mod flush_turns;
mod leaving_turns;
mod vote_turns;
mod write_laws;

pub use answer_laws::{checks_take_their_turn, reads_take_their_turn, watches_take_their_turn};
pub use call_laws::{
    failed_calls_have_cause, flows_start_and_are_cancelled, quiet_turns_run, still_calls_are_quiet,
};
pub use care_laws::{
    cares_take_their_turn, collections_take_their_turn, flushes_take_their_turn,
    raises_take_their_turn, resolutions_take_their_turn, shards_learn_in_turn,
};
pub use catch_up_turns::{batch_takes_its_turn, learn_takes_its_turn, learned_takes_its_turn};
pub use decision_turns::{begin_takes_its_turn, decide_takes_its_turn, outcome_takes_its_turn};
pub use flush_turns::{coordinator_flush_takes_its_turn, shard_flush_takes_its_turn};
pub use leaving_turns::{abort_takes_its_turn, drop_takes_its_turn, inquire_takes_its_turn};
pub use vote_turns::{prepare_takes_its_turn, vote_takes_its_turn};
pub use write_laws::{cancelled_writes_run, writes_take_their_turn};
