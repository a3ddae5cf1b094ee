//! A shard: the tuples of its objects at every place, and the writes that it holds in doubt. It is a participant of two-phase commit with
//! presumed abort (Mohan, Lindsay, Obermarck 1986).
//!
//! A write at a shard, with the call at each arrow:
//!
//! ```text
//!            stage_prepare            flush               learn
//! not here ----------------> staged --------> prepared ----------> learned: its changes are rows at its place
//!                              |                 |
//!                              +-----------------+---------------> dropped: as if it had never been here
//!                                                    drop_write
//! ```
//!
//! A write that is staged or prepared is in doubt: it holds its tuples, and no other write that names one is prepared. `vote` answers
//! `Later` for a staged write and `Yes` for a prepared one, whose prepare every stop leaves. That a write was learned or dropped is staged
//! too, and durable by the next flush: until then a stop may leave it in doubt, and it is learned or dropped once more. `settle` tells how
//! far learning is durable, `collect` forgets the rows that nobody reads any more.
//!
//! Keeps: its memory is the replay of its durable and staged records.
//! Never: decides a write, or shows what is not decided.
//! Callers rely on: a `Vote` means that every stop leaves the prepare; once a flush failed the shard answers `Down` to all until it is
//! opened again.
//!
//! Its devices may be lent, while a flight makes durable what was staged: it goes on without them, and `land` takes them back. No program does
//! so yet.
//!
//! Start at `specs/Shards.antt`, what a shard is, and `records/specs/Replays.antt`, what its records stand for.
#![tactic(auto)]

mod checkpointing;
mod collecting;
mod dropping;
mod known;
mod learning;
mod lending;
mod opening;
mod own;
mod preparing;
mod reading;
mod replies;
mod settling;
mod shard;
mod staged_ids;
mod write_ids;

pub use lending::Flying;
pub use replies::{ReadReply, VoteReply};
pub use shard::Shard;
