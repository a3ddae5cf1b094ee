//! A store that is carried over to another number of shards rests at the list at which it stood: the laws that join what `reshard` does by its contracts
//! to the headline.
//!
//! Keeps: nothing at run time; each law is the contract of a function with an empty body.
//! Callers rely on: what a carried store is opened over is what the headline asks for, so that it lives on from the same list, horizon and told ids.
//!
//! Start at `specs/Carried.antt`.
#![tactic(auto)]

mod carried_laws;

pub use carried_laws::{
    a_closed_store_is_carried_over, cares_keep_the_list, flushed_lists_are_kept,
    new_coordinators_are_whole, tokens_read_the_same, what_is_carried_over_rests,
};
