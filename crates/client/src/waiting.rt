// A reader that waits for an answer, and tells so.
ghost use Rattle.std.specs.Prelude.{◌≡◌};
ghost use Rattle.std.specs.Io.{ReadsAtMost};
ghost use Rattle.std.specs.Io.KnownBytes.{ReadConsumes};

use std::io::{self, Eprint, ErrorKind, Read};
use std::time::{Clock, Instant};

/// A read of the connection gives up after so long, and is made again.
pub(crate) const TICK_MILLISECONDS: u64 = 250;

/// Who waits is told after so many seconds.
pub(crate) const TOLD_SECONDS: u64 = 3;

/// Reads as its input does, and again if that found nothing in time, until an answer was waited for as long as it may be: then the read fails with
/// `WouldBlock`. Tells once an answer that it still waits.
#[derive(Drop)]
pub struct Waiting<'a, R, C> {
    pub input: R,
    pub rt: &'a C,
    pub address: &'a str,
    /// For how many seconds at most an answer is waited for. None: without a limit.
    pub timeout: Option<u64>,
    /// Since when an answer is waited for. None if the last that was read ended one.
    pub since: Option<Instant>,
    /// Whether it was told of this answer that it is waited for.
    pub is_told: bool,
}

impl<R, C: Clock + Eprint> Waiting<'_, R, C> {
    // Whether the answer was waited for as long as it may be.
    fn is_over(&mut self) -> bool
        ensures { self.new.input ≡ self.old.input }
    {
        let waited = self.waited();
        if let Some(timeout) = self.timeout
            && timeout <= waited
        {
            return true;
        }
        if TOLD_SECONDS <= waited && !self.is_told {
            self.is_told = true;
            let address = self.address;
            // A text that can't be printed changes nothing.
            let _ = eprintln!(self.rt;
                "zanstore: call: {address}: no answer after {TOLD_SECONDS} s, still waiting: all workers of the server may be taken"
            );
        }
        false
    }

    // For how many seconds the answer was waited for. It begins with the first read, and does not begin if the clock can't be read.
    fn waited(&mut self) -> u64
        ensures { self.new.input ≡ self.old.input }
    {
        let Ok(now) = Instant::now(self.rt) else {
            return 0;
        };
        match self.since {
            Some(since) => now.duration_since(since).as_secs(),
            None => {
                self.since = Some(now);
                0
            }
        }
    }

    // An answer ends with its line feed.
    fn note(&mut self, part: &[u8])
        ensures { self.new.input ≡ self.old.input }
    {
        if let Some(last) = part.last()
            && *last == b'\n'
        {
            self.since = None;
            self.is_told = false;
        }
    }
}

impl<R: Read, C: Clock + Eprint> Read for Waiting<'_, R, C> {
    ghost remaining = { λ w. R.remaining w.input };

    fn read(&mut self, buf: &mut [u8]) -> io::Result<usize>
        ensures bound { ReadsAtMost result buf.new }
        ensures bytes { ReadConsumes (R.remaining self.old.input) (R.remaining self.new.input) result buf.new }
    {
        for _ in 0..u64::MAX {
            if self.is_over() {
                return Err(ErrorKind::WouldBlock.into());
            }
            match self.input.read(buf) {
                Ok(count) => {
                    self.note(&buf[..count]);
                    return Ok(count);
                }
                Err(error) => match error.kind() {
                    ErrorKind::Interrupted | ErrorKind::WouldBlock => {}
                    _ => return Err(error),
                },
            }
        }
        Err(ErrorKind::WouldBlock.into())
    }
}
