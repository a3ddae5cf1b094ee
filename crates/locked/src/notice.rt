// Who is told of what has befallen the nodes of a store that is tended.
use names::NodeName;

/// Is told by the thread that tends a store, outside of all locks, of what befalls its nodes: that one is down, once a round until the node is opened again, or
/// has no room for a checkpoint.
pub trait Notice: Drop {
    /// The node refused its flush, since a call of one of its devices failed.
    fn down(&mut self, node: NodeName);

    /// The disk of the node has no room for a checkpoint of about so many bytes, which is put off. It is told each time that one is tried.
    fn put_off(&mut self, node: NodeName, bytes: u64);

    /// The node has made a checkpoint.
    fn shortened(&mut self, node: NodeName);
}

/// Nobody is told.
#[derive(Drop)]
pub struct Unnoticed;

impl Notice for Unnoticed {
    fn down(&mut self, _node: NodeName) {}

    fn put_off(&mut self, _node: NodeName, _bytes: u64) {}

    fn shortened(&mut self, _node: NodeName) {}
}
