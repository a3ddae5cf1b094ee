// What is read and taken of a block.
ghost use Rattle.std.specs.Prelude.{◌≡◌, ◌<◌, ◌↔◌, [], List, ℕ, IfErr, IfOk, OnOk, OnErr, IsTrue};
ghost use Rattle.std.specs.Io.KnownBytes.{Consumes, IsAtEnd, Keeps};
ghost use Rattle.line_io.specs.Lines.{HasNoFeed, Holds};
ghost use Rattle.line_io.specs.Blocks.{unread as unread_of, Refills, TakesPart};

use crate::held::{BLOCK, Block};
use crate::line::Line;
use crate::telling::Reader;
use memchr::memchr;
use std::alloc::{AllocError, Global};
use std::io;

impl Block {
    pub fn new(alloc: Global) -> Result<Block, AllocError>
        ensures { IfOk result (λ b. unread_of b ≡ []) }
    {
        Ok(Block {
            bytes: vec![in alloc; 0; BLOCK]?,
            filled: 0,
            taken: 0,
        })
    }

    fn unread(&self) -> &[u8]
        ensures { result.now ≡ unread_of self.now }
    {
        &self.bytes[self.taken..self.filled]
    }

    fn is_empty(&self) -> bool
        ensures { IsTrue result ↔ (unread_of self.now ≡ []) }
    {
        self.unread().is_empty()
    }

    /// Whether a whole line waits.
    pub fn has_line(&self) -> bool
        ensures { IsTrue result → HasNoFeed (unread_of self.now) → ⊥ }
    {
        match memchr(b'\n', self.unread()) {
            Some(_) => true,
            None => false,
        }
    }

    // Reads the next bytes in place of those that are there; none are read at the end of input alone.
    fn fill<R: Reader>(&mut self, input: &mut R) -> io::Result<()>
        ensures ok { OnOk result (Consumes (R.remaining input.old) (R.remaining input.new) (unread_of self.new)) }
        ensures end { OnOk result (unread_of self.new ≡ [] → IsAtEnd (R.remaining input.new)) }
        ensures err { OnErr result (Keeps (R.remaining input.old) (R.remaining input.new)) }
        ensures told { IfErr result R.tells }
    {
        self.taken = 0;
        self.filled = 0;
        self.filled = input.read_part(&mut self.bytes)?;
        Ok(())
    }

    /// Reads the next bytes if all were taken. Whether there are any: none at the end of input.
    pub fn refill<R: Reader>(&mut self, input: &mut R) -> io::Result<bool>
        ensures ok { IfOk result (λ has. Refills has (R.remaining input.old) (R.remaining input.new) (unread_of self.old) (unread_of self.new)) }
        ensures err { OnErr result (Keeps (R.remaining input.old) (R.remaining input.new)) }
        ensures told { IfErr result R.tells }
    {
        if !self.is_empty() {
            return Ok(true);
        }
        self.fill(input)?;
        Ok(!self.is_empty())
    }

    /// Takes the bytes up to the first line feed, and the line feed; all if there is none. Whether there was one.
    pub fn take_part(&mut self, line: &mut Line) -> bool
        ensures { (front : List ℕ) → Holds line.old front → TakesPart result (unread_of self.old) (unread_of self.new) front line.new }
    {
        match memchr(b'\n', self.unread()) {
            Some(count) => {
                line.add(&self.unread()[..count]);
                self.taken += count + 1;
                true
            }
            None => {
                line.add(self.unread());
                self.taken = self.filled;
                false
            }
        }
    }
}
