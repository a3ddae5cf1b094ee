// Where a node's devices are.
use journal::BatchRoom;

/// A node with its devices, and the room for a flight; or the node without them, and the number of the flight that has them.
#[derive(Drop)]
pub(crate) enum Berth<H, O> {
    Here(H, BatchRoom),
    Out(O, u64),
}
