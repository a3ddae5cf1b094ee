//! Tables of cases, over public calls alone: texts, bytes and what a stop leaves; the coordinator and the shards of a store; answers, and sessions that break off; the
//! laws at one type each. What they expect was worked out outside the program, or from what its calls promise.
//!
//! Keeps: nothing at run time; it has tests, and two functions that flush a node in two steps, for their contracts alone.
//! They stand here, since a crate with tests of its own is proved once more for them. Whatever calls a node is generic over its devices: a call at a disk in memory
//! itself takes longer to prove. What is read of a line stands in `checks/request_lines.tsv` for a server, and in `examples/` for a script, and so does what a
//! script prints.
//!
//! Start at `small_stores.rt`, how a store is made, and `writes.rt`, one write from its beginning to the shards.
#![tactic(auto)]

#[cfg(test)]
mod answer_texts;
#[cfg(test)]
mod batch_bytes;
#[cfg(test)]
mod batches;
#[cfg(test)]
mod broken_sessions;
#[cfg(test)]
mod disks;
#[cfg(test)]
mod file_devices;
mod flights;
#[cfg(test)]
mod horizons;
#[cfg(test)]
mod journal_bytes;
#[cfg(test)]
mod laws_of_records;
#[cfg(test)]
mod laws_of_ties;
#[cfg(test)]
mod laws_of_turns;
#[cfg(test)]
mod log_bytes;
#[cfg(test)]
mod logs;
#[cfg(test)]
mod refusal_names;
#[cfg(test)]
mod shard_bytes;
#[cfg(test)]
mod shard_replay;
#[cfg(test)]
mod small_stores;
#[cfg(test)]
mod struck_disks;
#[cfg(test)]
mod token_texts;
#[cfg(test)]
mod version_rows;
#[cfg(test)]
mod writes;

pub use flights::{fly_coordinator, fly_shard};
