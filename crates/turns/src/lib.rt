//! Runs of lists of steps over a store, what each step may do and promises, and how the contracts of nodes are turns of them: words and laws.
//!
//! Keeps: nothing at run time; each law is the contract of a function with an empty body.
//! Callers rely on: each step leaves what a store stands for (`stores`), and is a step of a run.
//!
//! Start at `specs/Runs.antt`, what a step may do, and `specs/Promises.antt`, what it promises.
#![tactic(auto)]

mod answer_laws;
mod coordinator_opening_laws;
mod coordinator_seam_laws;
mod decision_turns;
mod flush_turns;
mod quiet_laws;
mod restart_laws;
mod room_laws;
mod seam_laws;
mod shard_opening_laws;
mod shard_seam_laws;
mod store_laws;

pub use answer_laws::{answers_agree, cares_agree, coordinator_flushes_are_quiet};
pub use coordinator_opening_laws::{
    coordinator_flushes_over_its_devices, coordinator_opening_is_a_step,
};
pub use coordinator_seam_laws::{
    batch_takes_its_turn, decide_has_cause, heads_take_their_turn, inquire_takes_its_turn,
    outcome_takes_its_turn, raise_takes_its_turn,
};
pub use decision_turns::deciders_take_their_turn;
pub use flush_turns::{failed_flushes_answer, flushes_answer, shard_flushes_answer};
pub use quiet_laws::{
    away_nodes_have_cause, quiet_calls_answer, quiet_calls_end_cancelled_flows, quiet_calls_keep,
    quiet_calls_refuse, quiet_calls_take_their_turn, refused_flows_end, refused_writes_go_out,
    writes_spend_what_they_hold,
};
pub use restart_laws::{
    closed_stores_stand, openings_of_shards_are_steps,
    openings_of_the_coordinator_leave_the_store_standing,
    refused_openings_of_shards_leave_the_store_standing,
    refused_openings_of_the_coordinator_leave_the_store_standing,
    stops_within_a_step_leave_all_at_rest,
};
pub use room_laws::lack_of_room_has_cause;
pub use seam_laws::{
    abort_takes_its_turn, begin_has_cause, begin_takes_its_turn, decide_takes_its_turn,
};
pub use shard_opening_laws::{flushes_of_shards_are_quiet, shard_opening_takes_its_step};
pub use shard_seam_laws::{
    check_takes_its_turn, collect_takes_its_turn, drop_takes_its_turn, learn_takes_its_turn,
    prepare_takes_its_turn, read_takes_its_turn, settle_takes_its_turn, told_doubts_are_given,
    vote_takes_its_turn,
};
pub use store_laws::{
    chains_join, chains_run, closed_stores_rest, runs_move, stopped_openings_rest,
    stopped_steps_rest, unmade_stores_rest,
};
