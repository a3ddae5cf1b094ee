// What a shard answers to a vote and to a read.
use decisions::{Ticket, Vote};
use tuples::{Refusal, Tuple};

/// The answer to a ticket.
#[must_use]
pub enum VoteReply {
    /// The prepare is durable.
    Yes(Vote),
    /// The prepare is staged and not flushed: flush, and ask again.
    Later(Ticket),
    /// `Aborted` if the write is not in doubt at the shard, `Down`; the ticket is spent.
    No(Refusal),
}

/// The answer to a read.
#[derive(Drop)]
pub enum ReadReply {
    /// The tuples that are there at the place, ascending.
    Rows(Vec<Tuple>),
    /// The shard has not learned as far as the place.
    Behind,
}
