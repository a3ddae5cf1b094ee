// A vote: a prepare is durable.
ghost use Rattle.std.specs.Prelude.{◌≡◌};
ghost use Rattle.decisions.specs.Values.{IsOfNode, IsPreparedIn};

use device::Device;
use journal::Journal;
use std::marker::Model;
use tuples::WriteId;

/// The prepare of the write lies at the shard in whatever a stop leaves there. It has no `Drop`, so it has to be handed to the
/// decision or left.
#[must_use]
#[derive(Debug)]
pub struct Vote {
    id: WriteId,
    shard: u8,
}

impl Model for Vote {
    ghost use Rattle.decisions.specs.Values.{VoteValue};

    ghost Value = { VoteValue };

    ghost view = { λ v. record { id = v.id; shard = v.shard } };
}

impl Vote {
    /// Made by a shard whose journal shows that the prepare is durable, and which shard it is.
    pub fn new<D: Device>(journal: &Journal<D>, id: WriteId, shard: u8) -> Vote
        requires durable { IsPreparedIn D.state D.honest journal.now.a journal.now.b id }
        requires shard { IsOfNode D.honest journal.now shard }
        ensures id { result.id ≡ id }
        ensures shard { result.shard ≡ shard }
    {
        let _journal = journal;
        Vote { id, shard }
    }

    /// The id of the write.
    pub fn id(&self) -> WriteId
        ensures { result ≡ self.now.id }
    {
        self.id
    }

    /// The shard that has the prepare.
    pub fn shard(&self) -> u8
        ensures { result ≡ self.now.shard }
    {
        self.shard
    }

    /// Only spends it: the write stays in doubt at its shard.
    pub fn leave(self) {
        let Vote { id: _, shard: _ } = self;
    }
}
