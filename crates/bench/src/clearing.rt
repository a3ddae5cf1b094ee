// What is left of writes on their way, and may not be let go, is only spent.
ghost use Rattle.std.specs.Prelude.{◌≡◌, []};

use coordinator::Decided;
use decisions::{Intent, Ticket, Vote};

pub(crate) fn clear_intents(intents: &mut Vec<Intent>)
    ensures { intents.new.items ≡ [] }
{
    while let Some(intent) = intents.pop() {
        intent.leave();
    }
}

pub(crate) fn clear_tickets(tickets: &mut Vec<Ticket>)
    ensures { tickets.new.items ≡ [] }
{
    while let Some(ticket) = tickets.pop() {
        ticket.leave();
    }
}

pub(crate) fn clear_votes(votes: &mut Vec<Vote>)
    ensures { votes.new.items ≡ [] }
{
    while let Some(vote) = votes.pop() {
        vote.leave();
    }
}

pub(crate) fn clear_ballots(ballots: &mut Vec<Vec<Vote>>)
    ensures { ballots.new.items ≡ [] }
{
    while let Some(ballot) = ballots.pop() {
        let mut ballot = ballot;
        clear_votes(&mut ballot);
        ballot.destroy_empty();
    }
}

pub(crate) fn clear_decided(decided: &mut Vec<Decided>)
    ensures { decided.new.items ≡ [] }
{
    while let Some(one) = decided.pop() {
        one.leave();
    }
}
