// Whether connections wait for long.
ghost use Rattle.std.specs.Prelude.{◌≡◌, ◌<◌, ◌+◌, true};

use std::time::{Clock, Duration, Instant};

// Those that wait for less are none to speak of.
const LEAST_SECONDS: u64 = 1;

/// Which connections waited when it was last looked.
#[derive(Drop)]
pub(crate) struct Crowd {
    since: Option<Instant>,
    // the number of the last one that had come by then
    last: u64,
}

impl Crowd {
    /// It was not looked so far.
    pub(crate) fn new() -> Crowd {
        Crowd {
            since: None,
            last: 0,
        }
    }

    /// Whether one of those that waited a second ago does still, if so many have come and so many of them wait. They are taken in the order in which they
    /// came. It is told at most once a second, and never if the clock can't be read.
    pub(crate) fn has_lasted<C: Clock>(&mut self, clock: &C, come: u64, waiting: u64) -> bool
        ensures waits { result ≡ true → 0 < waiting }
        ensures came { result ≡ true → come < self.old.last + waiting }
    {
        let Ok(now) = Instant::now(clock) else {
            return false;
        };
        if waiting == 0 {
            self.since = None;
            return false;
        }
        let Some(since) = self.since else {
            self.begin(now, come);
            return false;
        };
        if now.duration_since(since) < Duration::from_secs(LEAST_SECONDS) {
            return false;
        }
        let earlier = self.last;
        self.begin(now, come);
        come.saturating_sub(waiting) < earlier
    }

    fn begin(&mut self, now: Instant, come: u64) {
        self.since = Some(now);
        self.last = come;
    }
}
