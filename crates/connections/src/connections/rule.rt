// What waits, what a pass knows, and the rule of the queue.
use crossbeam_queue::protocol::Protocol;
use std::collections::LinkedList;

/// A connection with its number.
#[derive(Drop)]
pub struct Numbered<C> {
    pub number: u64,
    pub connection: C,
}

/// What a pass knows: the acceptor's how many were put and how many passes were made, a worker's the numbers that it took.
/// `share` counts the passes that were gathered in it, and in `told` stand numbers that it was told were taken. No value of it is made.
pub struct View {
    pub puts: bool,
    pub put: u64,
    pub made: u64,
    pub share: u64,
    pub taken: LinkedList<u64>,
    pub told: LinkedList<u64>,
}

/// The numbers that were put were taken or wait, each once, in their order.
pub struct InOrder;

impl<C> Protocol<Numbered<C>, View> for InOrder {
    ghost use Rattle.connections.specs.Waiting.{Ruled, acceptor};
    ghost use Rattle.std.specs.Prelude.{[]};

    ghost holds = { Ruled };

    ghost first = { acceptor 0 1 [] };
}
