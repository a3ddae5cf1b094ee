// A text in the making, at the end of a vector.
ghost use Rattle.std.specs.Prelude.{◌≡◌, ◌≤◌, false, true, OnOk, OnErr, length, take, vec_capacity};
ghost use Rattle.std.specs.Fmt.{decimal};
ghost use Rattle.json.specs.Print.{token_text};
ghost use Rattle.json.specs.Token.{boolean};
ghost use Rattle.json_lines.specs.Grown.{Grown};

use itoa::Buffer;
use std::alloc::AllocError;

/// A text in the making, after what stands in a vector. Once the vector has no room for a part, it takes no later part either.
#[derive(Drop)]
pub struct Text<'a> {
    out: &'a mut Vec<u8>,
    start: usize,
    is_full: bool,
}

impl<'a> Text<'a> {
    /// An empty text after these bytes.
    pub fn behind(out: &'a mut Vec<u8>) -> Text<'a>
        ensures same_reference { result.out.ghost_name ≡ out.entry.ghost_name }
        ensures empty { (result.out.now ≡ out.old) × (result.start ≡ length out.old.items) × (result.is_full ≡ false) }
    {
        let start = out.len();
        Text {
            out,
            start,
            is_full: false,
        }
    }

    /// Appends the bytes, if there was room for everything before them.
    pub fn push(&mut self, part: &[u8])
        ensures { Grown self.old self.new part.now }
    {
        if !self.is_full {
            self.is_full = self.out.extend_from_slice(part).is_err();
        }
    }

    /// The number in decimal.
    pub fn push_number(&mut self, number: u64)
        ensures { Grown self.old self.new (decimal number) }
    {
        let mut buffer = Buffer::new();
        self.push(buffer.format(number).as_bytes());
    }

    pub(crate) fn push_bool(&mut self, is_true: bool)
        ensures { Grown self.old self.new (token_text (boolean is_true)) }
    {
        self.push(if is_true { b"true" } else { b"false" });
    }

    /// The vector has the whole text, or, if there was no room, nothing of it.
    pub fn end(self) -> Result<(), AllocError>
        ensures ok { OnOk result ((self.entry.is_full ≡ false) × (self.exit.0.now ≡ self.entry.out.now)) }
        ensures err { OnErr result ((self.entry.is_full ≡ true) × (self.exit.0.now.items ≡ take self.entry.start self.entry.out.now.items)) }
        ensures capacity { vec_capacity self.exit.0.now ≡ vec_capacity self.entry.out.now }
    {
        let Text {
            out,
            start,
            is_full,
        } = self;
        if is_full {
            out.truncate(start);
            return Err(AllocError);
        }
        Ok(())
    }
}
