//! The records of a node, staged and durable, on its two devices, of which one has the records and the other takes a checkpoint.
//!
//! Keeps: a flush leaves the durable records with all that was staged or without, at every moment, and with it after `Ok`; a checkpoint leaves the old
//! records or its own.
//! Never: knows what a record does to a node, but for those that begin and end a checkpoint, by which the current bank is told.
//! Callers rely on: `stage` and `flush` take no memory; after `Down` nothing becomes durable until the devices are opened again.
//!
//! A bank b that has records without a checkpoint is damage.
//!
//! Devices without a record may get a first checkpoint, of what another store knows (`Begun`): that it begins is durable before anything else, so that
//! half of one is damage and no store.
//!
//! A journal may lend its devices: a flight is a journal with them, to be flushed, while records are staged to what stays, and `land` brings
//! them back. The nodes of a server are flushed so.
//!
//! Start at `specs/Records.antt`, which records two contents have.
#![tactic(auto)]

mod batch;
mod begun;
mod checkpoint;
mod journal;
mod lending;
mod measure;
mod opening;
mod record_ref;
mod refused;
mod room;
mod summary;
mod unread;

pub use begun::Begun;
pub use checkpoint::Source;
pub use journal::Journal;
pub use lending::{BatchRoom, Sent};
pub use measure::len_of;
pub use opening::Opening;
pub use record_ref::RecordRef;
pub use refused::{Bank, Refused};
pub use summary::is_plain;
pub use unread::Unread;
