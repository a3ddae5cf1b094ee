// A ticket: a prepare was staged, and may not be durable yet.
ghost use Rattle.std.specs.Prelude.{◌≡◌};
ghost use Rattle.decisions.specs.Values.{HasEpoch, IsHeldBy};

use device::Device;
use journal::Journal;
use std::marker::Model;
use tuples::WriteId;

/// A prepare was staged at a shard in this epoch. It has no `Drop`, so it has to go back to that shard or be left.
#[must_use]
#[derive(Debug)]
pub struct Ticket {
    id: WriteId,
    epoch: u64,
}

impl Model for Ticket {
    ghost use Rattle.decisions.specs.Values.{TicketValue};

    ghost Value = { TicketValue };

    ghost view = { λ t. record { id = t.id; epoch = t.epoch } };
}

impl Ticket {
    /// Made by a shard whose journal shows that the write is in doubt by what is durable and staged.
    pub fn new<D: Device>(journal: &Journal<D>, id: WriteId, epoch: u64) -> Ticket
        requires held { IsHeldBy D.honest journal.now id }
        requires epoch { HasEpoch D.honest journal.now epoch }
        ensures { result ≡ record { id = id; epoch = epoch } }
    {
        let _journal = journal;
        Ticket { id, epoch }
    }

    /// The id of the write.
    pub fn id(&self) -> WriteId
        ensures { result ≡ self.now.id }
    {
        self.id
    }

    /// The shard's epoch when it was made.
    pub fn epoch(&self) -> u64
        ensures { result ≡ self.now.epoch }
    {
        self.epoch
    }

    /// Only spends it: the write stays in doubt at its shard.
    pub fn leave(self) {
        let Ticket { id: _, epoch: _ } = self;
    }
}
