// The marks of a checkpoint, and how much of one has been read.
use tuples::Change;

/// A mark of a checkpoint: one list of records that stands for what a node's journal stood for, and replaces it.
#[derive(Drop)]
pub enum Mark {
    /// A checkpoint of this generation begins, from 1 on.
    Begins(u64),
    /// A version that a shard keeps: its place in the log, and the change there.
    Row { place: u64, change: Change },
    /// The checkpoint of this generation is whole.
    Ends(u64),
}

/// The last part so far of a checkpoint that has not ended. The parts come in this order.
#[derive(Clone, Copy, Debug, PartialEq, Eq)]
pub enum Stage {
    /// Its begin.
    Begun,
    /// Its epoch.
    Opened,
    /// Its horizon; at a coordinator also the decisions above it.
    Bounded,
    /// The place that a shard has learned, and its versions.
    Listed,
    /// The writes in doubt at a shard.
    Doubted,
}

/// A checkpoint that has begun and not ended.
#[derive(Clone, Copy, Debug, PartialEq, Eq)]
pub struct Inside {
    pub generation: u64,
    pub stage: Stage,
}
