// What a flow holds of a prepare.
ghost use Rattle.std.specs.Prelude.{◌≡◌};
ghost use Rattle.decisions.specs.Held.{held_id};

use crate::{Ticket, Vote};
use tuples::WriteId;

/// What a shard returned for a prepare. It has no `Drop`, so it has to go back to the shard or be left.
#[must_use]
#[derive(Debug)]
pub enum Held {
    Ticket(Ticket),
    Vote(Vote),
}

impl Held {
    /// The id of the write.
    pub fn id(&self) -> WriteId
        ensures { result ≡ held_id self.now }
    {
        match self {
            Held::Ticket(ticket) => ticket.id(),
            Held::Vote(vote) => vote.id(),
        }
    }

    /// Only spends it: the write stays in doubt at its shard.
    pub fn leave(self) {
        match self {
            Held::Ticket(ticket) => ticket.leave(),
            Held::Vote(vote) => vote.leave(),
        }
    }
}
