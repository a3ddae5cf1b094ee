//! What the records of all nodes mean beside one log of whole writes, and the machine that a store stands for: words and laws.
//!
//! Keeps: nothing at run time; each law is the contract of a function with an empty body.
//! Callers rely on: with one more record at a node, whatever a stop leaves of all nodes still means a beginning of the log.
//!
//! Start at `specs/Worlds.antt`, what all nodes mean, and `specs/Machines.antt`, the log and two numbers.
#![tactic(auto)]

mod contents;
mod coordinator_laws;
mod lock_laws;
mod log_laws;
mod shard_laws;
mod stop_laws;

pub use contents::{Contents, Leavings};
pub use coordinator_laws::{
    decisions_leave_all_at_rest, flushes_of_the_coordinator_keep_all, horizons_leave_all_at_rest,
    openings_of_the_coordinator_leave_all_at_rest, restarts_of_the_coordinator_cut_the_log,
};
pub use lock_laws::{
    conditions_hold_as_known, conditions_hold_by_parts, decisions_leave_conditions,
    met_conditions_are_met_here, preparable_conditions_hold, writes_in_doubt_are_apart,
};
pub use log_laws::{
    events_stay, kept_writes_stay, later_horizons_collect, prepared_records_mean_the_same,
    selections_are_one, selections_ascend, snapshots_stay, versions_give_snapshots, watches_join,
};
pub use shard_laws::{
    collected_rows_leave_all_at_rest, drops_leave_all_at_rest, learned_writes_leave_all_at_rest,
    openings_of_shards_leave_all_at_rest, prepares_leave_all_at_rest,
};
pub use stop_laws::{
    an_empty_store_rests, flushes_leave_less, less_leaves_all_at_rest, the_horizon_may_rise,
    the_whole_log_rests,
};
