//! Scripts over a whole store: each line is carried out, and what it prints is appended; and a whole script, from a reader to a writer.
//!
//! Keeps: a flow that runs under a name has a slot of the store until it ends; a flow without a name ends within its line. Each line is answered once, in the
//! order of the lines, and its answer is written before the next line is looked at.
//! Never: looks into a node, makes a step except through the store's own, or takes room for the text of a write after its last call. A run holds no more than
//! one line and one block.
//! Callers rely on: what a line prints is appended whole or not at all, and in the second case nothing was done. What a run writes is what the lines that were
//! read print, or a beginning of it if a read or a write failed.
//!
//! Start at `specs/Scripts.antt`, what each line does and prints, and then `script.rt`; at `specs/Runs.antt` and `runs.rt` for a whole script, at
//! `over_disks.rt` for one over a store of its own, and at `specs/Lives.antt` and `life.rt` for what the program calls, with the headline's law. What owns a
//! store is here, where it is proved how it is dropped.
#![tactic(auto)]

mod going;
mod life;
mod line_laws;
mod over_disks;
mod printing;
mod refusals;
mod resharding;
mod room;
mod running;
mod runs;
mod script;
mod serving;
mod stepping;
mod store;
mod supply;
mod telling;

pub use life::sim;
pub use line_laws::{staying_is_one_life, writes_refused_memory};
pub use over_disks::run_over;
pub use runs::run;
pub use script::Script;
pub use stepping::Stepping;
pub use store::Store;
pub use supply::{InMemory, NoDevices, Supply, devices};
