// A reader that reads again if a read found nothing in time.
ghost use Rattle.std.specs.Prelude.{◌≡◌, ◌≢◌, ◌<◌, ◌↔◌, IfOk, IsTrue, None, OnOk, take};
ghost use Rattle.std.specs.Io.{ReadsAtMost};
ghost use Rattle.std.specs.Io.KnownBytes.{ReadConsumes};
ghost use Rattle.serving.specs.Slowness.{EndsLine, GoesOn};

use crate::patience::Patience;
use crate::slowness::is_over;
use std::io::{self, ErrorKind, Read};
use std::time::{Clock, Instant};

/// Reads as its input does. But each read that found nothing in time is a tick, and it reads again, until its patience ends: then the read
/// fails as that one did. If a line has not ended for too long and others wait, no more of it is read, and nothing is if the server ends.
#[derive(Drop)]
pub struct Patient<'a, R, C> {
    pub input: R,
    pub clock: &'a C,
    pub patience: Patience<'a>,
    /// Since when there is a part of a line without its end. None if the last that was read ended one.
    pub line_since: Option<Instant>,
}

// Whether it ends with a line feed.
fn ends_line(part: &[u8]) -> bool
    ensures { IsTrue result ↔ EndsLine part.now }
{
    match part.last() {
        Some(byte) => *byte == b'\n',
        None => false,
    }
}

impl<R, C: Clock> Patient<'_, R, C> {
    // Whether a line has kept others waiting for as long as it may. One whose session may be idle for ever may take as long as it likes. Nothing is late if
    // the clock can't be read.
    fn is_late(&self) -> bool
        ensures only { IsTrue result → (self.now.line_since ≢ None) × (0 < self.now.patience.idle) }
    {
        if self.line_since.is_none() || self.patience.idle == 0 {
            return false;
        }
        if !self.patience.signs.is_pressed() {
            return false;
        }
        is_over(self.line_since, self.clock)
    }

    // Notes what was read: a part that ends a line, one after whose last line feed the next line begins, or one of the same line. If the clock can't be
    // read, a line begins with its next part.
    fn note(&mut self, part: &[u8])
        ensures line { GoesOn part.now self.old.line_since self.new.line_since }
        ensures input { self.new.input ≡ self.old.input }
        ensures patience { self.new.patience ≡ self.old.patience }
    {
        if ends_line(part) {
            self.line_since = None;
        } else if self.line_since.is_none() || part.contains(&b'\n') {
            self.line_since = Instant::now(self.clock).ok();
        }
    }
}

impl<R: Read, C: Clock> Read for Patient<'_, R, C> {
    ghost remaining = { λ p. R.remaining p.input };

    fn read(&mut self, buf: &mut [u8]) -> io::Result<usize>
        ensures bound { ReadsAtMost result buf.new }
        ensures bytes { ReadConsumes (R.remaining self.old.input) (R.remaining self.new.input) result buf.new }
        ensures ticks { OnOk result (self.new.patience.ticks ≡ 0) }
        ensures line { IfOk result (λ count. GoesOn (take count buf.new) self.old.line_since self.new.line_since) }
        ensures idle { self.new.patience.idle ≡ self.old.patience.idle }
    {
        if self.is_late() || self.patience.signs.is_ending() {
            return Err(ErrorKind::TimedOut.into());
        }
        for _ in 0..u64::MAX {
            match self.input.read(buf) {
                Ok(count) => {
                    self.patience.ticks = 0;
                    self.note(&buf[..count]);
                    return Ok(count);
                }
                Err(error) => match error.kind() {
                    ErrorKind::Interrupted => {}
                    ErrorKind::WouldBlock | ErrorKind::TimedOut => {
                        let others_wait = self.patience.signs.has_waiting();
                        let is_closing = self.patience.signs.is_closing();
                        if self.patience.tick(others_wait, is_closing) || self.is_late() {
                            return Err(error);
                        }
                    }
                    _ => return Err(error),
                },
            }
        }
        Err(ErrorKind::TimedOut.into())
    }
}
