// Writes with their ids, as a log lists them.
use crate::{Changes, Conditions};

/// The id of a write: the epoch of the coordinator that began it, and its number there, both from 1 on.
#[derive(Clone, Copy, Debug, PartialEq, Eq, PartialOrd, Ord)]
pub struct WriteId {
    pub epoch: u64,
    pub number: u64,
}

/// A write with its id, whole or one shard's part of it.
#[derive(Clone, Drop)]
pub struct Entry {
    pub id: WriteId,
    pub changes: Changes,
    pub conditions: Conditions,
}
