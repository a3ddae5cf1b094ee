//! The values that pass between the coordinator and the shards.
//!
//! Keeps: an `Intent` has a whole write, a `Vote` a prepare that every stop leaves, and each of them is spent once.
//! Never: touches a device.
//! Callers rely on: it takes a journal that shows it to make an `Intent`, `Ticket`, `Vote`, `Settled`, `Verdict`, `Heads` or `Batch`; tests
//! and measures get theirs from nodes.
//!
//! Start at `specs/Values.antt`, what each value is.
#![tactic(auto)]

mod batch;
mod heads;
mod held;
mod intent;
mod settled;
mod ticket;
mod verdict;
mod vote;

pub use batch::Batch;
pub use heads::Heads;
pub use held::Held;
pub use intent::Intent;
pub use settled::Settled;
pub use ticket::Ticket;
pub use verdict::Verdict;
pub use vote::Vote;
