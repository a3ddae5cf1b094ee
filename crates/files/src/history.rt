// A list of what was done, which only clauses read: it takes no memory.
//
// `new` and `note` are proved by hand (proofs/history), since no rule of the language sets data that no memory holds. That is sound:
// `also_owns` asks for nothing, so every list is one that a history may have, and no run can tell which. What clauses make of the list rests
// on `note` alone adding to it, with what its caller did. So no other function over `History` may be proved by hand: it could
// set the events to anything, and the clauses of a device would then speak of calls that were not made.
ghost use Rattle.std.specs.Prelude.{◌≡◌, List, [], ◌∷◌};
ghost use Rattle.std.specs.Borrow.{ftrue};
ghost use Rattle.files.specs.Life.{Event, event_of, opened, written, synced};

use std::marker::{Model, PhantomData};

#[derive(Drop)]
pub struct History {
    marker: PhantomData<u8>,
    pub ghost events: { List Event },
}

impl Model for History {
    ghost also_owns = { λ _. ftrue };
}

// It owns nothing, so a device may go to another thread, and threads may share one.
unsafe impl Send for History {}

unsafe impl Sync for History {}

impl History {
    fn new() -> History
        ensures { result.events ≡ [] }
    {
        History {
            marker: PhantomData,
        }
    }

    // The kind of the event, its offset and its bytes.
    fn note(&mut self, _numbers: &[u64], _bytes: &[u8])
        ensures { self.new.events ≡ event_of _numbers.now _bytes.now ∷ self.old.events }
    {}

    // The file was opened, and had this content, all of it durable.
    pub(crate) fn of(content: &[u8]) -> History
        ensures { result.events ≡ opened content.now ∷ [] }
    {
        let mut history = History::new();
        history.note(&[0, 0], content);
        history
    }

    // A write was made; it may have failed.
    pub(crate) fn note_write(&mut self, at: usize, bytes: &[u8])
        ensures { self.new.events ≡ written at bytes.now ∷ self.old.events }
    {
        self.note(&[1, at as u64], bytes);
    }

    // A sync succeeded.
    pub(crate) fn note_sync(&mut self)
        ensures { self.new.events ≡ synced ∷ self.old.events }
    {
        self.note(&[2, 0], &[]);
    }
}
