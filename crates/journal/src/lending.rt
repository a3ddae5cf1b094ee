// A journal whose devices are elsewhere, while what was staged is made durable there.
ghost use Rattle.std.specs.Prelude.{◌≡◌, length};
ghost use Rattle.journal.specs.Lending.{Flies, IsLent, landed};

use crate::Journal;
use crate::batch::Batch;
use away::Away;
use device::Device;
use std::alloc::{AllocError, Global};

/// The memory for one batch more, so that to lend takes none.
#[derive(Drop)]
pub struct BatchRoom {
    batch: Batch,
}

impl BatchRoom {
    pub fn new(alloc: Global) -> Result<BatchRoom, AllocError> {
        let batch = Batch::new(alloc)?;
        Ok(BatchRoom { batch })
    }
}

/// How much was staged when the devices were lent.
#[derive(Clone, Copy, Debug, PartialEq, Eq)]
pub struct Sent {
    /// How many records.
    pub count: usize,
    /// In how many bytes.
    pub len: usize,
}

impl<D: Device> Journal<D> {
    /// The journal without its devices, to which records can be staged, and a flight: the journal with them, to be flushed. Both have what
    /// is staged. Without its devices a journal is not to be flushed: it would be down.
    pub fn lend(self, room: BatchRoom) -> (Journal<Away<D>>, Journal<D>, Sent)
        ensures flight { result.1 ≡ self }
        ensures stays { IsLent D.state self result.0 }
        ensures all { result.2.count ≡ length self.staged }
        ensures sent { Flies self.staged result.2 }
    {
        let BatchRoom { mut batch } = room;
        let Journal {
            a,
            b,
            is_b,
            generation,
            staged,
            is_down,
        } = self;
        batch.copy(&staged);
        let sent = staged.size();
        let (without_a, a) = a.lend();
        let (without_b, b) = b.lend();
        let lent = Journal {
            a: without_a,
            b: without_b,
            is_b,
            generation,
            staged,
            is_down,
        };
        let flight = Journal {
            a,
            b,
            is_b,
            generation,
            staged: batch,
            is_down,
        };
        (lent, flight, sent)
    }
}

impl<D: Device> Journal<Away<D>> {
    /// The devices come back, and the room for the next flight. What flew is staged no more; if its flush failed the journal is down, and
    /// what was staged since never becomes durable.
    pub fn land(self, flown: Journal<D>, sent: Sent) -> (Journal<D>, BatchRoom)
        requires sent { Flies self.staged sent }
        ensures { result.0 ≡ landed self flown sent }
    {
        let Journal {
            a: _,
            b: _,
            is_b: _,
            generation: _,
            mut staged,
            is_down,
        } = self;
        staged.forget_first(sent);
        let Journal {
            a,
            b,
            is_b,
            generation,
            staged: batch,
            is_down: has_failed,
        } = flown;
        let back = Journal {
            a,
            b,
            is_b,
            generation,
            staged,
            is_down: is_down || has_failed,
        };
        (back, BatchRoom { batch })
    }
}
