//! The records of a node's journal, batches of them as bytes, and what lists of records stand for.
//!
//! Keeps: one spelling per record within a version, and none begins another.
//! Never: reads a device, or carries out what a record says: `replay` does that for a shard.
//! Callers rely on: what is decoded is exactly what the bytes spell, and bytes that spell no batch are refused.
//!
//! Start at `specs/Format.antt`, the bytes of each record, and `specs/Reading.antt`, what bytes are read as. `specs/Replays.antt` and
//! `specs/Coordinators.antt` define what the records of a shard and of a coordinator stand for, and which may come next: each crate above
//! speaks of them.
#![tactic(auto)]

mod checkpoint;
mod decode;
mod distinct;
mod encode;
mod format;
mod identity;
mod laws;
mod mark;
mod measure;
mod places;
mod put;
mod put_tuple;
mod put_write;
mod read_text;
mod read_tuple;
mod read_write;
mod record;
mod unread;

pub use checkpoint::may_begin;
pub use decode::decode_batch;
pub use encode::{encode_decision, encode_prepare, encode_row};
pub use format::{MAX_PLACED_IDS, MAX_RECORDS, VERSION};
pub use identity::{COORDINATOR, Identity};
pub use laws::no_record_begins_another;
pub use mark::{Inside, Mark, Stage};
pub use measure::{decision_len, prepare_len};
pub use places::{ask_of_log, places_rise};
pub use record::{PlacedId, PlacedIds, Record};
