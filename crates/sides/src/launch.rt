// A flight of a node's devices, as a list of flights has it.
use records::Record;
use std::collections::LinkedList;

/// Which kind of node it is whose devices are lent, and its records then: those that are durable, and those that fly. No value of it is made.
pub struct Launch {
    pub of_coordinator: bool,
    pub durable: LinkedList<Record>,
    pub staged: LinkedList<Record>,
}
