//! The tuples that writes in doubt hold at a shard.
//!
//! Keeps: the writes that were taken and not released, ascending by id.
//! Never: holds two writes that name one tuple, changed or conditioned, or that have one id.
//! Callers rely on: a refusal leaves everything as it was, and a release frees all that its write held.
//!
//! Start at `specs/Holds.antt` and `holds.rt`.
#![tactic(auto)]

mod by_id;
mod held;
mod holds;
mod same;

pub use holds::Holds;
pub use same::is_same;
