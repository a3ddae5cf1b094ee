// A shard whose devices are elsewhere, while what was staged is made durable there.
ghost use Rattle.std.specs.Prelude.{◌≡◌, false, length, take};
ghost use Rattle.away.specs.Aways.{lent_honest, lent_state};
ghost use Rattle.journal.specs.Lending.{Flies};
ghost use Rattle.shard.specs.Keeping.{prepared_ids};
ghost use Rattle.shard.specs.Lending.{HasFlown, IsLentShard, landed_shard};
ghost use Rattle.shard.specs.Shards.{IsUp, journal_of, memory as memory_of};

use crate::Shard;
use away::Away;
use device::Device;
use journal::{BatchRoom, Journal, Sent};

/// What of a shard's staged records flies.
#[derive(Clone, Copy, Debug, PartialEq, Eq)]
pub struct Flying {
    /// How many records.
    pub sent: Sent,
    /// How many of them are prepares.
    pub prepares: usize,
    /// The place that the shard has learned with them.
    pub learned: u64,
}

impl<D: Device> Shard<D> {
    /// The shard without its devices, of which all may be asked but a flush; and a flight, its journal with them, to be flushed.
    pub fn lend(self, room: BatchRoom) -> (Shard<Away<D>>, Journal<D>, Flying)
        ensures flight { result.1 ≡ journal_of self }
        ensures stays { IsLentShard D.state self result.0 }
        ensures all { result.2.sent.count ≡ length self.staged }
        ensures sent { Flies self.staged result.2.sent }
        ensures prepares { self.is_down ≡ false → result.2.prepares ≡ length (prepared_ids self.staged) }
        ensures learned { self.is_down ≡ false → D.honest self.a → D.honest self.b → result.2.learned ≡ (memory_of self).learned }

        // It is up without its devices.
        ensures up { IsUp D.state D.honest self → IsUp (lent_state D.state) (lent_honest D.honest) result.0 }
    {
        let Shard {
            journal,
            me,
            memory,
            unflushed,
            settled,
        } = self;
        let prepares = unflushed.len();
        let learned = memory.learned();
        let (without, flight, sent) = journal.lend(room);
        let lent = Shard {
            journal: without,
            me,
            memory,
            unflushed,
            settled,
        };
        let flying = Flying {
            sent,
            prepares,
            learned,
        };
        (lent, flight, flying)
    }
}

impl<D: Device> Shard<Away<D>> {
    /// The devices come back, and the room for the next flight. If the flight's flush went well, what flew is durable: its prepares are
    /// voted for, and what it has learned is settled. Else the shard is down, and has to be opened again.
    pub fn land(self, flown: Journal<D>, flying: Flying) -> (Shard<D>, BatchRoom)
        requires sent { Flies self.staged flying.sent }
        requires prepares { self.is_down ≡ false → flown.is_down ≡ false → flying.prepares ≡ length (prepared_ids (take flying.sent.count self.staged)) }
        requires flown { self.is_down ≡ false → flown.is_down ≡ false → D.honest flown.a → D.honest flown.b → HasFlown D.state D.honest self flown flying }
        ensures landed { result.0 ≡ landed_shard self flown flying.sent }
        ensures up { self.is_down ≡ false → flown.is_down ≡ false → D.honest flown.a → D.honest flown.b → IsUp D.state D.honest result.0 }
    {
        let Shard {
            journal,
            me,
            memory,
            mut unflushed,
            mut settled,
        } = self;
        let (journal, room) = journal.land(flown, flying.sent);
        if !journal.is_down() {
            unflushed.forget_first(flying.prepares);
            settled = flying.learned;
        }
        let back = Shard {
            journal,
            me,
            memory,
            unflushed,
            settled,
        };
        (back, room)
    }
}
