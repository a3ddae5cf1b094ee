// Who waits for the devices of a node to land, by the number of the flight that they wait for.
use std::sync::Wait;
use std::sync::atomic::{AtomicU64, Ordering};

/// In the place of a flight's number: whichever lands next.
pub(crate) const ANY: u64 = u64::MAX;

// One who waits, in a word of `Landings`.
const WAITER: u64 = 1 << 32;

/// While a flight is out, callers wait for it or for the next one. Those are told apart, and those who wait for a flight that has landed wake one another in turn:
/// if all were woken at once they would take the processors from whoever asks for something else, and half of them for nothing.
#[derive(Drop)]
pub(crate) struct Landings {
    // of those who wait for a flight of an even number, and for one of an odd number: in the lower half how often they were told of something, in the upper
    // half how many there are, so that a landing calls the system only if somebody waits
    even: AtomicU64,
    odd: AtomicU64,
}

impl Landings {
    /// Nobody waits.
    pub(crate) fn new() -> Landings {
        Landings {
            even: AtomicU64::new(0),
            odd: AtomicU64::new(0),
        }
    }

    fn of(&self, flight: u64) -> &AtomicU64 {
        if flight % 2 == 0 {
            &self.even
        } else {
            &self.odd
        }
    }

    /// What is to be handed to `wait`: how often those were told of something who wait for this flight. To be asked under the node's lock, by who then waits
    /// without it.
    pub(crate) fn seen(&self, flight: u64) -> u64 {
        self.of(flight).load(Ordering::SeqCst)
    }

    /// Waits until those who wait for this flight are told of more than was seen. It may return before.
    pub(crate) fn wait<R: Wait>(&self, rt: &R, flight: u64, seen: u64) {
        let word = self.of(flight);
        // Said before the word is looked at once more: who tells of something then either finds the caller waiting, or is noticed by it.
        word.fetch_add(WAITER, Ordering::SeqCst);
        word.park(rt, (seen & 0xffff_ffff) as u32);
        word.fetch_sub(WAITER, Ordering::SeqCst);
    }

    // Who was about to sleep does not, and who has slept longest goes on.
    fn tell_one(&self, flight: u64) {
        self.of(flight).fetch_add(1, Ordering::SeqCst);
        self.pass_on(flight);
    }

    /// The flight before this one has landed. One of those who waited for it goes on, and passes that on; and one of those who wait for this one, which then has
    /// it leave.
    pub(crate) fn tell(&self, next: u64) {
        self.tell_one(next.wrapping_add(1));
        self.tell_one(next);
    }

    /// The caller goes on, and so does the next one who waits for this flight. Not under the node's lock: who is woken may take the processor from who holds it.
    pub(crate) fn pass_on(&self, flight: u64) {
        let word = self.of(flight);
        if word.load(Ordering::SeqCst) >= WAITER {
            word.wake_one();
        }
    }

    /// All who wait go on and look again: if no flight can leave, and if the caller waited for whichever lands.
    pub(crate) fn tell_all(&self) {
        for told in [&self.even, &self.odd] {
            told.fetch_add(1, Ordering::SeqCst);
            told.wake_all();
        }
    }
}
