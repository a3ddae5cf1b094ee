//! What a stop may leave of all nodes at each moment, and who began which write: words and laws.
//!
//! Keeps: nothing at run time; each law is the contract of a function with an empty body.
//! Callers rely on: whichever node takes one of these steps, all nodes go on to agree on one legal list. Each write above what a shard has learned is in doubt
//! there, and what a shard has voted for stays prepared until it is decided. Each listed write that was not found was begun, and decided, by one caller.
//!
//! Start at `specs/Agreeing.antt`, and at `specs/OwnedLists.antt`. No program uses it yet.
#![tactic(auto)]

mod agreeing_laws;
mod fact;
mod following_laws;
mod goods;
mod owned_list_laws;
mod owning_laws;
mod parts;

pub use agreeing_laws::{
    batches_are_learnable, decisions_agree, landings_agree, openings_agree, prepares_agree,
    unmade_nodes_agree, votes_stay_at_decisions, votes_stay_at_prepares,
};
pub use fact::{DecidedWrite, Fact};
pub use following_laws::{aborts_follow, beginnings_follow, decisions_follow};
pub use goods::Begun;
pub use owned_list_laws::{
    aborts_keep_owners, beginnings_keep_owners, callers_begin_with_nothing, decided_writes_stay,
    decisions_keep_owners, found_lists_are_owned, no_list_is_owned, restarts_keep_owners,
};
pub use owning_laws::{owners_decide, undecided_is_unlisted};
pub use parts::{ListPart, LogPart, ShardPart};
