// What the threads of each kind ask.
use crate::course::Course;
use crate::drawing::{Drawn, draw_freshness, draw_write};
use crate::plan::{CHECKED, Kind, NAMESPACES, SETS};
use crate::worker::Worker;
use device::Device;
use locked::{Gate, Store};
use sides::Room;
use std::sync::Wait;

impl<B: Room> Worker<B> {
    /// Makes its next call. If what it would ask for is refused before it is asked, there is none this time.
    pub(crate) fn ask<D: Device, G: Gate, R: Wait>(
        &mut self,
        rt: &R,
        store: &Store<D, B, G>,
        course: &Course,
    ) {
        match self.kind {
            Kind::Writer => {
                if self.made == 0 || self.random.happens(85) {
                    self.ask_write(rt, store, course);
                } else {
                    self.ask_answer(rt, store, course);
                }
            }
            Kind::Reader => self.ask_answer(rt, store, course),
            Kind::Watcher => self.ask_watch(rt, store, course),
            Kind::Trouble => self.make_trouble(rt, store, course),
            Kind::End => {}
        }
    }

    fn ask_write<D: Device, G: Gate, R: Wait>(
        &mut self,
        rt: &R,
        store: &Store<D, B, G>,
        course: &Course,
    ) {
        let drawn = Drawn {
            writer: self.number,
            number: self.made,
            known: self.known,
        };
        if let Ok(write) = draw_write(self.alloc, &mut self.random, drawn) {
            self.write(rt, store, course, write);
        }
    }

    fn ask_answer<D: Device, G: Gate, R: Wait>(
        &mut self,
        rt: &R,
        store: &Store<D, B, G>,
        course: &Course,
    ) {
        let freshness = draw_freshness(&mut self.random, self.known);
        // What can't be asked for is not asked for again.
        let _ = if self.random.happens(50) {
            let text = CHECKED[self.random.below(10) as usize];
            self.check(rt, store, course, freshness, text)
        } else {
            let text = SETS[self.random.below(12) as usize];
            self.read(rt, store, course, freshness, text)
        };
    }

    fn ask_watch<D: Device, G: Gate, R: Wait>(
        &mut self,
        rt: &R,
        store: &Store<D, B, G>,
        course: &Course,
    ) {
        let limit = [1u64, 4, 30, 256][self.random.below(4) as usize];
        let count = if self.number % 2 == 0 { 1 } else { 2 };
        let _ = self.watch(rt, store, course, limit, &NAMESPACES[..count]);
    }
}
