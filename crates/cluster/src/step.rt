// The steps of a store.
use names::{Care, NodeName};
use tuples::Request;

/// One step of a store. A step that names a slot without a flow, or a node that is not there, changes nothing and reports nothing.
#[derive(Drop)]
pub enum Step {
    /// A flow for the request begins. It makes no call yet.
    Start(Request),
    /// The flow in the slot makes its next call.
    Turn(usize),
    /// The flow in the slot ends: a write before its decision goes out, and nothing more is reported of it; any other flow is gone at once.
    Cancel(usize),
    /// A flow that cares for the nodes begins. It makes no call yet.
    Care(Care),
    /// The node's memory is thrown away, its devices are revived, and it is opened again.
    Restart(NodeName),
}
