// The last part of a run: the whole list, and some answers after it.
use crate::course::Course;
use crate::plan::{CHECKED, NAMESPACES, SETS};
use crate::worker::Worker;
use device::Device;
use locked::{Gate, Store, Unnoticed};
use sides::Room;
use std::sync::Wait;
use tuples::{Freshness, Refusal};

// How many places one watch lists.
const AT_ONCE: u64 = 256;

// How often the last part begins again, if a disk fails only then. Each disk fails once, and there are ten.
const TRIES: u64 = 12;

impl<B: Room> Worker<B> {
    // Lists all up to this place.
    fn list<D: Device, G: Gate, R: Wait>(
        &mut self,
        rt: &R,
        store: &Store<D, B, G>,
        course: &Course,
        latest: u64,
    ) -> Result<(), Refusal> {
        self.cursor = 0;
        for _ in 0..latest {
            if self.cursor >= latest || self.is_refused {
                break;
            }
            self.watch(rt, store, course, AT_ONCE, &NAMESPACES)?;
        }
        Ok(())
    }

    // Reads and checks all that readers ask for, at the latest place.
    fn answer_all<D: Device, G: Gate, R: Wait>(
        &mut self,
        rt: &R,
        store: &Store<D, B, G>,
        course: &Course,
    ) -> Result<(), Refusal> {
        for text in SETS {
            self.read(rt, store, course, Freshness::Latest, text)?;
        }
        for text in CHECKED {
            self.check(rt, store, course, Freshness::Latest, text)?;
        }
        Ok(())
    }

    fn tell_all<D: Device, G: Gate, R: Wait>(
        &mut self,
        rt: &R,
        store: &Store<D, B, G>,
        course: &Course,
    ) -> Result<(), Refusal> {
        let latest = store.latest(&mut self.caller);
        self.list(rt, store, course, latest)?;
        self.answer_all(rt, store, course)
    }

    /// Opens all nodes again, and then lists all and asks some. Returns whether all was told.
    pub(crate) fn end<D: Device, G: Gate, R: Wait>(
        &mut self,
        rt: &R,
        store: &Store<D, B, G>,
        course: &Course,
        trouble: &mut Worker<B>,
    ) -> bool {
        for _ in 0..TRIES {
            trouble.restart_all(rt, store, course);
            store.tend(rt, self.alloc, &mut self.caller, u64::MAX, &mut Unnoticed);
            self.page.clear();
            self.is_refused = false;
            if self.tell_all(rt, store, course).is_err() {
                return false;
            }
            if !self.is_refused {
                return true;
            }
        }
        false
    }
}
