// A refused opening, and the two devices of a node.
use device::Device;
use tuples::Refusal;

/// Which device of a node.
#[derive(Clone, Copy, Debug, PartialEq, Eq)]
pub enum Bank {
    A,
    B,
}

/// An opening that was refused, with the devices.
#[derive(Drop)]
pub struct Refused<D: Device> {
    pub refusal: Refusal,
    pub a: D,
    pub b: D,
}
