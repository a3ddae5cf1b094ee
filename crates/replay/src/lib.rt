//! What a shard keeps in memory: the replay of its records.
//!
//! Keeps: the memory is what the records that were applied stand for; versions of different tuples in no promised order.
//! Never: touches a device or a journal.
//! Callers rely on: a refused growth leaves it as it was.
//!
//! Start at `records/specs/Replays.antt`, what each record does, and then `specs/Alike.antt`, `replay.rt` and `memory.rt`.
#![tactic(auto)]

mod checkpoint_laws;
mod inside_rules;
mod learning;
mod memory;
mod replay;
mod rules;

pub use checkpoint_laws::shard_checkpoints_stand;
pub use memory::Memory;
pub use replay::Replay;
