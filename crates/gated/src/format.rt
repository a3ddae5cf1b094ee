// The numbers of the format of a gated log.

/// A gate with this byte is open: a whole record follows it. Any other byte is closed, and ends the list.
pub(crate) const OPEN: u8 = 0xa5;

/// The byte that closes a gate.
pub(crate) const CLOSED: u8 = 0;

/// The number of bytes of a length, the high ones first.
pub(crate) const SIZE: usize = 4;

/// The number of bytes of a record before its body: the gate and the length.
pub(crate) const HEAD: usize = 1 + SIZE;

/// The most bytes of one body; each has at least one.
pub const MAX_BODY: usize = 1 << 20;

/// The most bytes of a device.
pub const MAX_DEVICE: usize = 1 << 40;
