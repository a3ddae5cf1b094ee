//! That devices rest at one list, whose end the coordinator's have: the one premise of a server, and the laws by which it is met.
//!
//! Keeps: nothing at run time; each law is the contract of a function with an empty body.
//! Callers rely on: what closed stores leave, and what a stop leaves of a store that is served, is at rest once it is opened again, after checkpoints too.
//!
//! Start at `specs/RestingLaws.antt`, and at `AtRest.antt` of `locked`, the premise.
#![tactic(auto)]

mod resting_laws;

pub use resting_laws::{
    what_a_stop_leaves_is_at_rest, what_is_found_is_at_rest, what_rests_is_at_rest,
};
