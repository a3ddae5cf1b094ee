// The cares of nodes.
use crate::NodeName;

/// What a node needs from time to time.
#[derive(Clone, Copy, Debug, PartialEq, Eq)]
pub enum Care {
    /// All that the node has staged becomes durable: `flush c`.
    Flush(NodeName),
    /// The shard learns what is kept: `learn 0`.
    Learn(u8),
    /// What became of each write in doubt at the shard is found out, and done there: `resolve 0`.
    Resolve(u8),
    /// The horizon is raised to the place: `raise 3`.
    Raise(u64),
    /// The shard forgets what no read from the horizon on needs: `collect 0`.
    Collect(u8),
    /// As a flush, by records of what the node knows in place of all that it has: `checkpoint 0`.
    Checkpoint(NodeName),
}
