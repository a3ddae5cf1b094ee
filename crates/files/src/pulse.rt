// What threads can see of the calls that others have under way.
use libc::nanosleep;
use libc::types::timespec;
use std::sync::atomic::{AtomicU64, Ordering};

// How often to look whether what was under way has ended, a millisecond apart.
const LOOKS: u32 = 10_000;

/// Shows any thread whether a call is under way, and lasts: a write or a sync of a file, or the asking for room of any file of a store. It is not part of what
/// a device promises.
#[derive(Drop)]
pub struct Pulse {
    // how many calls began, and how many ended
    begun: AtomicU64,
    ended: AtomicU64,
}

impl Pulse {
    /// No calls so far.
    pub fn new() -> Pulse {
        Pulse {
            begun: AtomicU64::new(0),
            ended: AtomicU64::new(0),
        }
    }

    pub(crate) fn begin(&self) {
        self.begun.fetch_add(1, Ordering::SeqCst);
    }

    /// The call that was begun has ended.
    pub(crate) fn end(&self) {
        self.ended.fetch_add(1, Ordering::SeqCst);
    }

    /// The number of the call under way, from 1 on; 0 if there is none. The same number twice is one call, which lasts.
    pub fn call(&self) -> u64 {
        // A call that ends between the two, and any later one, count as none.
        let begun = self.begun.load(Ordering::SeqCst);
        let ended = self.ended.load(Ordering::SeqCst);
        if begun <= ended { 0 } else { begun }
    }

    /// How many calls have ended.
    pub(crate) fn ended(&self) -> u64 {
        self.ended.load(Ordering::SeqCst)
    }

    /// Whether a call was under way at some moment since this many had ended, and all that were have ended. It waits for that, but at most ten seconds.
    pub(crate) fn was_under_way(&self, ended: u64) -> bool {
        let begun = self.begun.load(Ordering::SeqCst);
        if begun <= ended {
            return false;
        }
        for _ in 0..LOOKS {
            if self.ended() >= begun {
                return true;
            }
            sleep_a_millisecond();
        }
        false
    }
}

fn sleep_a_millisecond() {
    let asked = timespec {
        tv_sec: 0,
        tv_nsec: 1_000_000,
    };
    let mut left = asked;
    // A shorter sleep is as good.
    let _ = nanosleep(&asked, &mut left);
}
