//! The coordinator of a store: it begins, decides and aborts writes, and tells what became of them.
//!
//! Keeps: its memory is what its durable and staged records stand for, above the durable horizon.
//! Never: looks at the conditions of a write that it decides: the votes of the shards are its word for them.
//! Callers rely on: an id is given once; a place is told as kept only if every stop leaves its decision; after `Down` it answers
//! nothing more until it is opened again.
//!
//! Its devices may be lent, while a flight makes durable what was staged: it goes on without them, and `land` takes them back. No program does
//! so yet.
//!
//! Start at `decisions/specs/Coordinators.antt`, what a coordinator is and what each of its calls does.
#![tactic(auto)]

mod aborting;
mod beginning;
mod carrying;
mod checkpointing;
mod coordinator;
mod decided;
mod deciding;
mod known;
mod lending;
mod open_writes;
mod opening;
mod raising;
mod staging;
mod telling;
mod votes;

pub use coordinator::Coordinator;
pub use decided::{Decided, NotDecided};
pub use lending::Flying;
pub use raising::{NotRaised, settles};
pub use telling::{Inquiry, Outcome};
pub use votes::votes_match;
