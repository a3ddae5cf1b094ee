//! What ties a node that many callers share, under its lock, to the list of writes that its pass has seen: words and laws.
//!
//! Keeps: nothing at run time; each law is the contract of a function with an empty body.
//! Callers rely on: each call of a node leaves it tied, and tells its caller what stands in the list from then on.
//!
//! Start at `specs/Ties.antt`.
#![tactic(auto)]

mod deciding_laws;
mod joining_laws;
mod resting_laws;
mod shard_tie_laws;
mod telling_laws;

pub use deciding_laws::{
    aborts_stay_tied, beginnings_stay_tied, decisions_stay_tied, kept_attempts_stand,
    raises_stay_tied,
};
pub use joining_laws::{
    checkpoints_stay_tied, failed_checkpoints_stay_tied, failed_flushes_stay_tied,
    flushes_stay_tied, landings_stay_tied, openings_stay_tied, refused_openings_stay_tied,
    tied_up_is_tied,
};
pub use resting_laws::{resting_nodes_are_tied, unmade_nodes_are_tied};
pub use shard_tie_laws::{
    check_reads_are_seen, collections_stay_tied, drops_stay_tied,
    failed_shard_checkpoints_stay_tied, failed_shard_flushes_stay_tied, learnings_stay_tied,
    longer_lists_stay_tied, prepares_stay_tied, reads_are_seen, refused_shard_openings_stay_tied,
    shard_checkpoints_stay_tied, shard_flushes_stay_tied, shard_openings_stay_tied,
    shard_tied_up_is_tied,
};
pub use telling_laws::{batches_are_seen, found_writes_stand, heads_are_seen};
