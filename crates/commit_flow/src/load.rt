// The tickets and votes of a write.
ghost use Rattle.std.specs.Prelude.{◌≡◌, ◌≤◌, ◌<◌, ◌+◌, ◌++◌, ◌∷◌, [], length, IfOk, IfNone, option_to_list};
ghost use Rattle.std.specs.Vec.{vec_capacity, vec_len};

use decisions::{Ticket, Vote};
use std::alloc::{AllocError, Global};
use tuples::Shards;

/// The tickets and votes of a write, with room for as many as there are shards.
pub(crate) struct Load {
    pub(crate) shards: Shards,
    pub(crate) tickets: Vec<(u8, Ticket)>,
    pub(crate) votes: Vec<Vote>,
    ghost ticket_room: { shards ≤ vec_capacity tickets },
    ghost vote_room: { shards ≤ vec_capacity votes },
}

impl Load {
    ghost use Rattle.commit_flow.specs.Kept.{IsFresh};

    /// None yet.
    pub(crate) fn new(alloc: Global, shards: Shards) -> Result<Load, AllocError>
        ensures { IfOk result (λ l. IsFresh shards l) }
    {
        let tickets = Vec::with_capacity(alloc, usize::from(shards.count()))?;
        match Vec::with_capacity(alloc, usize::from(shards.count())) {
            Ok(votes) => Ok(Load {
                shards,
                tickets,
                votes,
            }),
            Err(error) => {
                tickets.destroy_empty();
                Err(error)
            }
        }
    }

    pub(crate) fn add_ticket(&mut self, shard: u8, ticket: Ticket)
        requires { vec_len self.old.tickets < self.old.shards }
        ensures tickets { self.new.tickets.items ≡ self.old.tickets.items ++ (shard, ticket) ∷ [] }
        ensures one_more { vec_len self.new.tickets ≡ vec_len self.old.tickets + 1 }
        ensures others { (self.new.shards ≡ self.old.shards) × (self.new.votes ≡ self.old.votes) }
    {
        self.tickets.push_reserved((shard, ticket));
    }

    pub(crate) fn add_vote(&mut self, vote: Vote)
        requires { vec_len self.old.votes < self.old.shards }
        ensures votes { self.new.votes.items ≡ self.old.votes.items ++ vote ∷ [] }
        ensures one_more { vec_len self.new.votes ≡ vec_len self.old.votes + 1 }
        ensures others { (self.new.shards ≡ self.old.shards) × (self.new.tickets ≡ self.old.tickets) }
    {
        self.votes.push_reserved(vote);
    }

    /// The ticket of the lowest shard.
    pub(crate) fn take_ticket(&mut self) -> Option<(u8, Ticket)>
        ensures tickets { self.old.tickets.items ≡ option_to_list result ++ self.new.tickets.items }
        ensures len { vec_len self.new.tickets + length (option_to_list result) ≡ vec_len self.old.tickets }
        ensures none { IfNone result (vec_len self.new.tickets ≡ 0) }
        ensures others { (self.new.shards ≡ self.old.shards) × (self.new.votes ≡ self.old.votes) }
    {
        take_first(&mut self.tickets)
    }

    /// Only spends them.
    pub(crate) fn leave(self) {
        let Load {
            shards: _,
            tickets,
            votes,
        } = self;
        leave_tickets(tickets);
        leave_votes(votes);
    }
}

/// The first of a list, and the others in their order.
pub(crate) fn take_first<T>(list: &mut Vec<T>) -> Option<T>
    ensures items { list.old.items ≡ option_to_list result ++ list.new.items }
    ensures len { vec_len list.new + length (option_to_list result) ≡ vec_len list.old }
    ensures none { IfNone result ((vec_len list.new ≡ 0) × (list.new.items ≡ [])) }
    ensures room { vec_capacity list.new ≡ vec_capacity list.old }
{
    if list.is_empty() {
        return None;
    }
    Some(list.remove(0))
}

/// Only spends the tickets.
pub(crate) fn leave_tickets(mut tickets: Vec<(u8, Ticket)>) {
    while let Some((_, ticket)) = tickets.pop() {
        ticket.leave();
    }
    tickets.destroy_empty();
}

/// Only spends the votes.
pub(crate) fn leave_votes(mut votes: Vec<Vote>) {
    while let Some(vote) = votes.pop() {
        vote.leave();
    }
    votes.destroy_empty();
}
