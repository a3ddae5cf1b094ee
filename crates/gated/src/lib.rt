//! A log on one device: the list of the bodies that were appended.
//!
//! Keeps: after `Ok` every stop leaves the new list, and during a call the old list or the new.
//! Never: reads a length behind a closed gate, looks into a body, or keeps bodies in memory.
//! Callers rely on: the list gains the body on `Ok`; after `Full` nothing has changed, after `Down` open again.
//!
//! Many bodies may be written ahead of a list, behind its closed gate, and become its end by one byte (`write_ahead`, `publish`); `clear` empties
//! a list by one byte. A journal's checkpoint is written with these three. What is ahead needs no sync: `publish` makes all of it durable with
//! one, before it opens the gate in front.
//!
//! `lend` gives the log with its device away, and leaves one that knows where the list ends.
//!
//! Start at `specs/Gated.antt`, what bytes stand for which list, and then `append`, its four calls.
#![tactic(auto)]

mod ahead;
mod append;
mod format;
mod lending;
mod log;
mod opening;
mod split;

pub use format::{MAX_BODY, MAX_DEVICE};
pub use log::GatedLog;
