// How long a slow client may keep others waiting.
ghost use Rattle.std.specs.Prelude.{◌≡◌, ◌≢◌, ◌↔◌, IsTrue, None};
ghost use Rattle.serving.specs.Slowness.{HasLasted};

use std::time::{Clock, Instant};

/// For how many seconds a client may take nothing of its answers, and a line that does not end, or answers that are not taken, may keep others waiting.
const SLOWEST_SECONDS: u64 = 30;

/// A client that takes so many bytes of its answers is given the time anew.
pub(crate) const ENOUGH: usize = 16_384;

// Whether what began then has lasted for as long as it may by now. What has not begun has not.
fn has_lasted(since: Option<Instant>, now: Instant) -> bool
    ensures { IsTrue result ↔ HasLasted since now }
{
    match since {
        Some(since) => SLOWEST_SECONDS <= now.duration_since(since).as_secs(),
        None => false,
    }
}

/// An instant now, if there is none; none if the clock can't be read either.
pub(crate) fn begun<C: Clock>(since: Option<Instant>, clock: &C) -> Option<Instant>
    ensures { since ≢ None → result ≡ since }
{
    match since {
        Some(since) => Some(since),
        None => Instant::now(clock).ok(),
    }
}

/// Whether what began then has lasted for as long as it may. Nothing has if the clock can't be read.
pub(crate) fn is_over<C: Clock>(since: Option<Instant>, clock: &C) -> bool
    ensures only { IsTrue result → since ≢ None }
{
    match Instant::now(clock) {
        Ok(now) => has_lasted(since, now),
        Err(_) => false,
    }
}
