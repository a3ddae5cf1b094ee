//! Bringing a shard up to a place of the log: how far has it learned; while that is below the place, the decisions after it, and the shard learns
//! them.
//!
//! Keeps: the decisions between the call that fetched them and the call that hands them over.
//! Never: calls a node itself, waits, or ends by itself: each turn is one call.
//! Callers rely on: it is there only if the shard has answered that it has learned up to the place.
//!
//! Start at `specs/CatchingUp.antt`, which calls are made and what each reply makes of it.
#![tactic(auto)]

mod catch_up;
mod caught;

pub use catch_up::CatchUp;
pub use caught::{CatchUpCall, Progress};
