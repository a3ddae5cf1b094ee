// What each node has of the one state.
use records::Record;
use std::collections::LinkedList;
use tuples::Entry;

/// A shard's part: the lists of records that a stop may leave of it now; and the list that it knows while it is up, durable and staged. No value of it is made.
pub struct ShardPart {
    pub left: LinkedList<LinkedList<Record>>,
    pub known: LinkedList<Record>,
    pub is_up: bool,
}

/// The coordinator's part: the same, the list of writes, kept or not, the kept place and the horizon, and the writes that are open in its memory.
/// No value of it is made.
pub struct LogPart {
    pub left: LinkedList<LinkedList<Record>>,
    pub known: LinkedList<Record>,
    pub is_up: bool,
    pub log: LinkedList<Entry>,
    pub kept: u64,
    pub horizon: u64,
    pub open_writes: LinkedList<Entry>,
}

/// The list of writes as its coordinator has it: how many were found as the store was opened, the list, kept or not, the writes that are open in its memory, its
/// epoch, and how many ids it has given in that. No value of it is made.
pub struct ListPart {
    pub found: u64,
    pub log: LinkedList<Entry>,
    pub open_writes: LinkedList<Entry>,
    pub epoch: u64,
    pub given: u64,
}
