//! The files of a store in a folder: two for each node.
//!
//! Keeps: the devices come in the order of their nodes, the coordinator's first, bank a before bank b; each has just been opened, and found what it found.
//! Never: makes a file beside those of a store that is there, or writes to one that was there.
//! Callers rely on: a file that is unavailable ends the opening, and what was opened before it is closed.
//!
//! Only tested: in which folders a store is made, and what is printed of an unavailable one (`checks/served`, `checks/dumped`, `checks/resharded`).
//!
//! Start at `open_all`.
#![tactic(auto)]

mod devices;
mod identity;
mod pulses;
mod survey;
mod trouble;

pub use devices::{Mode, Opened, open_all};
pub use trouble::{About, Trouble};
