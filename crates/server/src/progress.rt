// Lines on standard error while something takes long.
use crate::stamp::Stamp;
use std::io::Eprint;
use std::sync::Wait;
use std::sync::atomic::{AtomicU64, Ordering};
use std::thread::Parker;
use std::time::{Clock, Duration, Instant};

// It is told after the first second, and then ever more rarely, but once a minute.
const FIRST: u64 = 1;

const LAST: u64 = 60;

/// Whether something goes on still, for the one who tells how long it takes.
#[derive(Drop)]
pub struct Progress {
    parker: Parker,
    ended: AtomicU64,
}

impl Progress {
    /// It does.
    pub fn new() -> Progress {
        Progress {
            parker: Parker::new(),
            ended: AtomicU64::new(0),
        }
    }

    /// It has ended, well or not.
    pub fn end(&self) {
        self.ended.store(1, Ordering::SeqCst);
        self.parker.unpark();
    }

    /// Tells on standard error now and then what goes on with the folder, as `being opened`, until that ends.
    pub fn tell<R: Eprint + Clock + Wait>(&self, rt: &R, dir: &str, what: &str) {
        let began = Instant::now(rt).ok();
        let mut pause = FIRST;
        for _ in rt.forever() {
            self.parker.park_timeout(rt, Duration::from_secs(pause));
            if self.ended.load(Ordering::SeqCst) != 0 {
                return;
            }
            tell_so_far(rt, dir, what, began);
            pause = pause.saturating_mul(2).min(LAST);
        }
    }
}

// Nothing depends on the line, so that it can't be printed changes nothing.
fn tell_so_far(rt: &(impl Eprint + Clock), dir: &str, what: &str, began: Option<Instant>) {
    if let Some(Ok(took)) = began.map(|began| began.elapsed(rt)) {
        let seconds = took.as_secs();
        let stamp = Stamp::now(rt);
        let _ = eprintln!(rt; "zanstore: {stamp}{dir}: {what}, for {seconds} s so far");
    }
}
