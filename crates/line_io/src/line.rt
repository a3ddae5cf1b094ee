// A line while it is read.
ghost use Rattle.std.specs.Prelude.{◌≡◌, ◌↔◌, ◌++◌, [], List, ℕ, IsTrue, MatchOption};
ghost use Rattle.line_io.specs.Lines.{Holds, IsUnheld, IsWhole, unended_refusal};

use refusal::Refusal;
use std::alloc::Global;
use tuples::MAX_LINE;

/// The bytes of a line, for as long as it is within the limit and there is memory for it.
#[derive(Drop)]
pub struct Line {
    bytes: Vec<u8>,
    // how many bytes it has, kept or not
    len: usize,
    is_refused: bool,
}

impl Line {
    pub fn new(alloc: Global) -> Line
        ensures { Holds result [] }
    {
        Line {
            bytes: Vec::new(alloc),
            len: 0,
            is_refused: false,
        }
    }

    /// Begins the next line, in the same memory.
    pub fn clear(&mut self)
        ensures { Holds self.new [] }
    {
        self.bytes.clear();
        self.len = 0;
        self.is_refused = false;
    }

    pub fn add(&mut self, part: &[u8])
        ensures { (front : List ℕ) → Holds self.old front → Holds self.new (front ++ part.now) }
    {
        self.len = self.len.saturating_add(part.len());
        if self.len > MAX_LINE || self.is_refused {
            return;
        }
        match self.bytes.extend_from_slice(part) {
            Ok(()) => {}
            Err(_) => self.is_refused = true,
        }
    }

    /// Why it is not read, if it is not: it is too long, or there was no memory for it.
    pub fn refusal(&self) -> Option<Refusal>
        ensures { (front : List ℕ) → Holds self.now front → MatchOption result (IsWhole self.now front) (IsUnheld front) }
    {
        if self.len > MAX_LINE {
            Some(Refusal::TooLarge)
        } else if self.is_refused {
            Some(Refusal::NoMemory)
        } else {
            None
        }
    }

    /// Whether it has no byte.
    pub fn is_empty(&self) -> bool
        ensures { (front : List ℕ) → Holds self.now front → IsTrue result ↔ (front ≡ []) }
    {
        self.len == 0
    }

    /// Why it is refused if no line feed ends it; `None` if it is empty.
    pub fn unended(&self) -> Option<Refusal>
        ensures { (front : List ℕ) → Holds self.now front → result ≡ unended_refusal front }
    {
        if self.len > MAX_LINE {
            Some(Refusal::TooLarge)
        } else if self.len > 0 {
            Some(Refusal::BadRequest)
        } else {
            None
        }
    }

    pub fn as_bytes(&self) -> &[u8]
        ensures { result.now ≡ self.now.bytes.items }
    {
        &self.bytes
    }
}
