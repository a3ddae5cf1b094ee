// The nodes of a store.

/// Which node of a store.
#[derive(Clone, Copy, Debug, PartialEq, Eq)]
pub enum NodeName {
    /// `c` in a script.
    Coordinator,
    /// `0`, or another number below that of the shards.
    Shard(u8),
}
