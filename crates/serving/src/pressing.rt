// A writer that does not wait for ever for who takes its bytes.
ghost use Rattle.std.specs.Prelude.{◌≡◌, ◌≢◌, IfOk, IsTrue, None, length};
ghost use Rattle.std.specs.Io.{WritesAtMost};
ghost use Rattle.std.specs.Io.KnownBytes.{WriteAppends};
ghost use Rattle.serving.specs.Slowness.{IsTaken};

use crate::signs::Signs;
use crate::slowness::{ENOUGH, begun, is_over};
use std::io::{self, ErrorKind, Write};
use std::time::{Clock, Instant};

/// Writes as its output does, and again if that took nothing in time, until nothing was taken for too long. If a client has not taken all for too long,
/// nor much of it, and others wait, no more is written either; and if the server ends, what is not taken at once is not written.
#[derive(Drop)]
pub struct Pressing<'a, W, C> {
    pub output: W,
    pub clock: &'a C,
    pub signs: &'a Signs,
    /// Since when a part of what was to be written is not taken, or since it last was enough. None if all was.
    pub since: Option<Instant>,
    /// How many bytes were taken since. Nothing if that is none.
    pub taken: usize,
}

impl<W, C: Clock> Pressing<'_, W, C> {
    // Whether what is not taken has kept others waiting for as long as it may.
    fn is_late(&self) -> bool
        ensures only { IsTrue result → self.now.since ≢ None }
    {
        if self.since.is_none() || !self.signs.is_pressed() {
            return false;
        }
        is_over(self.since, self.clock)
    }

    // Notes that so many of these bytes were taken, for which it was waited since then. If the clock can't be read, a time that runs goes on, and else one
    // begins with the next part.
    fn note(&mut self, count: usize, wanted: usize, waited: Option<Instant>)
        ensures taken { IsTaken count wanted self.old.since self.old.taken self.new.since self.new.taken }
        ensures output { self.new.output ≡ self.old.output }
    {
        if count == wanted {
            self.since = None;
            self.taken = 0;
            return;
        }
        if self.since.is_none() {
            self.since = waited;
            self.taken = 0;
        }
        self.taken = self.taken.saturating_add(count);
        if self.since.is_none() || ENOUGH <= self.taken {
            if let Ok(now) = Instant::now(self.clock) {
                self.since = Some(now);
            }
            self.taken = 0;
        }
    }
}

impl<W: Write, C: Clock> Write for Pressing<'_, W, C> {
    ghost contents = { λ p. W.contents p.output };

    fn write(&mut self, buf: &[u8]) -> io::Result<usize>
        ensures bound { WritesAtMost result buf.now }
        ensures bytes { WriteAppends (W.contents self.old.output) (W.contents self.new.output) result buf.now }
        ensures taken { IfOk result (λ count. IsTaken count (length buf.now) self.old.since self.old.taken self.new.since self.new.taken) }
    {
        let mut waited = None;
        for _ in 0..u64::MAX {
            if self.is_late() {
                return Err(ErrorKind::TimedOut.into());
            }
            match self.output.write(buf) {
                Ok(count) => {
                    self.note(count, buf.len(), waited);
                    return Ok(count);
                }
                Err(error) => match error.kind() {
                    ErrorKind::Interrupted => {}
                    ErrorKind::WouldBlock | ErrorKind::TimedOut => {
                        waited = begun(waited, self.clock);
                        if self.signs.is_ending() || is_over(waited, self.clock) {
                            return Err(error);
                        }
                    }
                    _ => return Err(error),
                },
            }
        }
        Err(ErrorKind::TimedOut.into())
    }

    fn flush(&mut self) -> io::Result<()> {
        self.output.flush()
    }
}
