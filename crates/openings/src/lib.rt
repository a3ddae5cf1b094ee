//! Opening a node: the records that its devices have are replayed, and one more opening is made durable.
//!
//! Keeps: at every moment a stop leaves the records that were found, with this opening's or without.
//! Never: knows what a record does to a node: what is made of the records is up to its kind.
//! Callers rely on: the returned journal has the next epoch durable and nothing staged; each refusal returns the devices.
//!
//! Start at `NodeKind`, what the records of a node have to be and what is made of them, and `specs/Openings.antt`, what an opening is.
#![tactic(auto)]

mod kind;
mod opening;

pub use kind::NodeKind;
pub use opening::open;
