// What anybody may know for good.
use tuples::{Entry, WriteId};

/// A fact that stays right. No value of it is made.
pub enum Fact {
    /// This shard has voted for the write with this id.
    Voted(u64, WriteId),
}

/// A write that was decided at a place, in an epoch of the coordinator. No value of it is made.
pub struct DecidedWrite {
    pub epoch: u64,
    pub place: u64,
    pub write: Entry,
}
