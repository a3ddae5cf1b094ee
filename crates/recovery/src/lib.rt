//! What the records of a coordinator stand for, replayed at its opening.
//!
//! Keeps: after each record the state that the records so far stand for.
//! Never: touches a device, or keeps what it needs for its tests alone.
//! Callers rely on: a record that may not come next is refused, by its conditions too; n records cost n log n.
//!
//! Start at `records/specs/Coordinators.antt`, what each record does and which may come next.
#![tactic(auto)]

mod checkpoint_laws;
mod latest;
mod recovery;
mod replay;
mod rules;

pub use checkpoint_laws::coordinator_checkpoints_stand;
pub use recovery::Recovery;
pub use replay::Replay;
