// A worker that asks a store, from a thread of its own.
use crate::course::Course;
use crate::page::Page;
use crate::plan::Kind;
use crate::random::Random;
use device::Device;
use locked::{Caller, Gate, Store};
use sides::Room;
use std::alloc::Global;
use std::sync::Wait;
use std::thread;
use std::time::Clock;

/// A worker, and a line for each call that it made.
#[derive(Drop)]
pub(crate) struct Worker<B: Room> {
    pub(crate) alloc: Global,
    pub(crate) kind: Kind,
    pub(crate) number: u64,
    pub(crate) caller: Caller<B>,
    pub(crate) random: Random,
    /// The highest place that it was told.
    pub(crate) known: u64,
    /// Up to which place it has watched.
    pub(crate) cursor: u64,
    /// How many calls it has made.
    pub(crate) made: u64,
    /// A call of it was refused.
    pub(crate) is_refused: bool,
    pub(crate) page: Page,
    /// What it asks for in the next line.
    pub(crate) draft: Page,
}

impl<B: Room> Worker<B> {
    pub(crate) fn new(
        alloc: Global,
        kind: Kind,
        number: u64,
        caller: Caller<B>,
        random: Random,
    ) -> Worker<B> {
        Worker {
            alloc,
            kind,
            number,
            caller,
            random,
            known: 0,
            cursor: 0,
            made: 0,
            is_refused: false,
            page: Page::new(alloc),
            draft: Page::new(alloc),
        }
    }

    /// Makes this many calls, spread over the course of the run, or those that it has time for; at least one.
    pub(crate) fn work<D: Device, G: Gate, R: Wait + Clock>(
        &mut self,
        rt: &R,
        store: &Store<D, B, G>,
        course: &Course,
        calls: u64,
    ) {
        let burst = self.kind.burst();
        for call in 0..calls {
            self.ask(rt, store, course);
            if course.is_over(rt) || self.page.is_torn() {
                return;
            }
            thread::yield_now();
            if call % burst == 0 {
                course.sleep_until(rt, part_of(course.milliseconds(), call, calls));
            }
        }
    }

    /// It was told this place.
    pub(crate) fn learn(&mut self, place: u64) {
        self.known = self.known.max(place);
    }

    /// The line of the next call begins with its ticks.
    pub(crate) fn begin_line(&mut self, begin: u64, end: u64) {
        self.made = self.made.saturating_add(1);
        self.page.push_column(begin);
        self.page.push_number(end);
    }
}

// This many parts of a whole that has some.
fn part_of(whole: u64, part: u64, parts: u64) -> u64 {
    whole.saturating_mul(part) / parts.max(1)
}
