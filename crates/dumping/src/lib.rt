//! All tuples of a store at one place, and their text.
//!
//! Keeps: the tuples are those that are there at the place, each once, ascending; the text is the token of the place and a line for each of them, and it is
//! written after the last call of a node.
//! Never: begins a write, raises a horizon, or opens a file.
//! Callers rely on: what `dump_over` writes is the snapshot of the one list that the store stands for, and if it is refused nothing is written.
//!
//! Start at `specs/Dumped.antt`, what a dump tells, and `over_devices.rt`; `specs/Gathering.antt` says by which steps of a store it gets there, and
//! `specs/Steps.antt` which steps are taken at all, even if it is refused.
#![tactic(auto)]

mod dump_laws;
mod folder;
mod found;
mod gathering;
mod looking;
mod over_devices;
mod playing;
mod reading;
mod taking;
mod text;

pub use dump_laws::dumps_are_snapshots;
pub use folder::dump_folder;
pub use over_devices::{Fault, dump_over};
pub use taking::{Dump, take_dump};
