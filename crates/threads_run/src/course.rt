// What all threads of a run share beside the store: its clock, and its counter.
use std::sync::atomic::{AtomicU64, Ordering};
use std::time::{Clock, Duration, Instant};
use std::{io, thread};

/// The time of a run, and the counter that says which calls had ended before another began.
#[derive(Drop)]
pub(crate) struct Course {
    ticks: AtomicU64,
    start: Instant,
    milliseconds: u64,
}

impl Course {
    /// A run of this many milliseconds that begins now.
    pub(crate) fn begin(rt: &impl Clock, milliseconds: u64) -> io::Result<Course> {
        let start = Instant::now(rt)?;
        Ok(Course {
            ticks: AtomicU64::new(1),
            start,
            milliseconds,
        })
    }

    /// The next tick, which no other call gets.
    pub(crate) fn tick(&self) -> u64 {
        self.ticks.fetch_add(1, Ordering::SeqCst)
    }

    /// How many milliseconds of the run are left. None if the clock can't be read.
    fn left(&self, rt: &impl Clock) -> u64 {
        match self.start.elapsed(rt) {
            Ok(elapsed) => self.milliseconds.saturating_sub(milliseconds_of(elapsed)),
            Err(_) => 0,
        }
    }

    pub(crate) fn is_over(&self, rt: &impl Clock) -> bool {
        self.left(rt) == 0
    }

    pub(crate) fn milliseconds(&self) -> u64 {
        self.milliseconds
    }

    /// Sleeps until this many milliseconds of the run are over, if they are not.
    pub(crate) fn sleep_until(&self, rt: &impl Clock, milliseconds: u64) {
        let left = self.left(rt);
        let then = self.milliseconds.saturating_sub(milliseconds);
        if left > then {
            thread::sleep(rt, Duration::from_millis(left - then));
        }
    }
}

fn milliseconds_of(duration: Duration) -> u64 {
    duration
        .as_secs()
        .saturating_mul(1_000)
        .saturating_add(u64::from(duration.subsec_millis()))
}
