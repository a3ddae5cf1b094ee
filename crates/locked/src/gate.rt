// Who is told of the calls of a store's nodes.
use names::{CallName, NodeName};

/// Is told of each call of a node that a caller makes, outside of all locks: before the call, which may have to wait for the node, and after it.
pub trait Gate: Drop {
    /// A call is about to be made.
    fn before(&self, node: NodeName, call: CallName);

    /// A call was made.
    fn after(&self, node: NodeName, call: CallName);
}

/// Lets every call pass.
#[derive(Drop)]
pub struct Open;

impl Gate for Open {
    fn before(&self, _node: NodeName, _call: CallName) {}

    fn after(&self, _node: NodeName, _call: CallName) {}
}
