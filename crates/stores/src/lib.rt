//! What a store stands for: the moments of a store and what its flows hold, what they answer and why they are refused, and what one more record, reply or flow does to it; words and laws.
//!
//! Keeps: nothing at run time; each law is the contract of a function with an empty body.
//! Never: says a word of turns and runs, which are in `turns` above.
//! Callers rely on: with one more record at a node, one flush, or one flow that begins, goes on or ends, the store still stands for its machine.
//!
//! Start at `specs/Stands.antt`, what a store stands for, and `specs/Held.antt`, what is right in a flow's hands.
#![tactic(auto)]

mod abort_laws;
mod checking_laws;
mod deciding_laws;
mod flow_laws;
mod flush_laws;
mod heads_laws;
mod opening_laws;
mod prepare_laws;
mod raising_laws;
mod reading_laws;
mod staging_laws;
mod stopping_laws;

pub use abort_laws::{
    aborts_leave_the_store_standing, decisions_that_are_found_are_kept,
    ids_that_are_not_found_are_aborted, intents_are_refused_with_cause, outcomes_agree,
    tickets_are_refused_with_cause,
};
pub use checking_laws::{check_replies_select, checks_agree, checks_walk};
pub use deciding_laws::{
    deciders_hold_what_is_right, decisions_leave_the_store_standing, votes_prepare,
};
pub use flow_laws::{
    flows_that_begin_leave_the_store_standing, flows_that_end_leave_the_store_standing,
    flows_that_go_on_leave_the_store_standing, new_stores_stand,
    writes_that_begin_leave_the_store_standing,
};
pub use flush_laws::{
    failed_flushes_leave_the_store_standing, flushes_of_shards_leave_the_store_standing,
    flushes_of_the_coordinator_leave_the_store_standing,
};
pub use heads_laws::{
    batches_are_right, batches_meet_prepares, heads_are_right, settled_is_learned, shards_settle,
    watches_agree,
};
pub use opening_laws::openings_of_shards_leave_the_store_standing;
pub use prepare_laws::{
    broken_shards_have_cause, busy_shards_have_cause, collected_shards_have_cause,
    full_shards_have_cause, prepared_conditions_are_met,
};
pub use raising_laws::horizons_leave_the_store_standing;
pub use reading_laws::{
    one_shard_is_enough, reads_agree, reads_ask_all, reads_begin, reads_finish_a_tupleset,
    reads_go_on, replies_select, shard_rows_show_snapshots,
};
pub use staging_laws::{
    collected_rows_leave_the_store_standing, drops_leave_the_store_standing,
    learned_writes_leave_the_store_standing, prepares_leave_the_store_standing,
};
pub use stopping_laws::what_is_left_rests;
