// Bytes that are written one after another.
use itoa::Buffer;
use std::alloc::Global;
use tuples::Tuple;

/// Bytes that are written one after another. If memory is refused some are missing, and it says so.
#[derive(Drop)]
pub(crate) struct Page {
    bytes: Vec<u8>,
    is_torn: bool,
}

impl Page {
    pub(crate) fn new(alloc: Global) -> Page {
        Page {
            bytes: Vec::new(alloc),
            is_torn: false,
        }
    }

    pub(crate) fn bytes(&self) -> &[u8] {
        self.bytes.as_slice()
    }

    /// Whether some bytes are missing.
    pub(crate) fn is_torn(&self) -> bool {
        self.is_torn
    }

    /// It begins again.
    pub(crate) fn clear(&mut self) {
        self.bytes.clear();
        self.is_torn = false;
    }

    pub(crate) fn push(&mut self, part: &[u8]) {
        if self.bytes.extend_from_slice(part).is_err() {
            self.is_torn = true;
        }
    }

    /// The number in decimal.
    pub(crate) fn push_number(&mut self, number: u64) {
        let mut buffer = Buffer::new();
        self.push(buffer.format(number).as_bytes());
    }

    /// The number, and a space after it.
    pub(crate) fn push_column(&mut self, number: u64) {
        self.push_number(number);
        self.push(b" ");
    }

    pub(crate) fn push_tuple(&mut self, tuple: &Tuple) {
        if tuple.write_to(&mut self.bytes).is_err() {
            self.is_torn = true;
        }
    }
}
