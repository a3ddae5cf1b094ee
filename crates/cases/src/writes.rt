// One write on its way in a store of one shard: it is begun, prepared and voted for, and decided.
ghost use Rattle.std.specs.Prelude.{IfOk};
ghost use Rattle.records.specs.Replays.{AskOfLog};

use crate::small_stores::only;
use coordinator::{Coordinator, Decided, NotDecided, votes_match};
use decisions::{Intent, Ticket, Vote};
use device::Device;
use shard::{Shard, VoteReply};
use std::alloc::Global;
use tuples::{Change, Condition, Refusal, Tuple, Want, Write, WriteId};

fn touches(alloc: Global, text: &str) -> Result<Vec<Change>, Refusal> {
    let tuple = Tuple::parse(alloc, text.as_bytes())?;
    Ok(only(alloc, Change::Touch(tuple))?)
}

/// The write that touches the tuple of this text.
pub(crate) fn touch(alloc: Global, text: &str) -> Result<Write, Refusal>
    ensures { IfOk result (λ w. AskOfLog w.conditions) }
{
    Write::new(touches(alloc, text)?, Vec::new(alloc))
}

fn not_after(alloc: Global, text: &str, place: u64) -> Result<Vec<Condition>, Refusal> {
    let tuple = Tuple::parse(alloc, text.as_bytes())?;
    let want = Want::NotAfter(place);
    Ok(only(alloc, Condition { tuple, want })?)
}

/// The write that touches one tuple if that has no change after the place.
pub(crate) fn touch_since(alloc: Global, text: &str, place: u64) -> Result<Write, Refusal> {
    let changes = touches(alloc, text)?;
    match not_after(alloc, text, place) {
        Ok(conditions) => Write::new(changes, conditions),
        Err(refusal) => {
            drop(changes);
            Err(refusal)
        }
    }
}

/// The id of a write that is begun and stays open, and the place that is kept then.
pub(crate) fn begin<D: Device>(
    coordinator: &mut Coordinator<D>,
    write: Write,
) -> Result<(WriteId, u64), Refusal> {
    let intent = coordinator.begin(write)?;
    let begun = (intent.id(), intent.kept());
    intent.leave();
    Ok(begun)
}

/// The vote for a ticket: it comes later before a flush, and is there after it.
fn vote<D: Device>(shard: &mut Shard<D>, ticket: Ticket) -> Result<Vote, Refusal> {
    let ticket = match shard.vote(ticket) {
        VoteReply::Later(ticket) => ticket,
        VoteReply::Yes(vote) => {
            vote.leave();
            return Err(Refusal::BadRequest);
        }
        VoteReply::No(refusal) => return Err(refusal),
    };
    if let Err(refusal) = shard.flush() {
        ticket.leave();
        return Err(refusal);
    }
    match shard.vote(ticket) {
        VoteReply::Yes(vote) => Ok(vote),
        VoteReply::Later(ticket) => {
            ticket.leave();
            Err(Refusal::BadRequest)
        }
        VoteReply::No(refusal) => Err(refusal),
    }
}

/// Puts the vote of the shard there, if it takes part.
fn gather<D: Device>(
    alloc: Global,
    shard: &mut Shard<D>,
    intent: &Intent,
    votes: &mut Vec<Vote>,
) -> Result<(), Refusal> {
    if !shard.takes_part(intent) {
        return Ok(());
    }
    votes.reserve(1)?;
    let ticket = shard.stage_prepare(alloc, intent)?;
    let vote = vote(shard, ticket)?;
    votes.push_reserved(vote);
    Ok(())
}

fn leave(refusal: Refusal, intent: Intent, votes: Vec<Vote>) -> Refusal {
    let left = NotDecided {
        refusal,
        intent: Some(intent),
        votes,
    };
    left.leave();
    refusal
}

/// Decides a write by the votes for it; `BadRequest` if they are not one of each participant.
fn decide_by<D: Device>(
    coordinator: &mut Coordinator<D>,
    intent: Intent,
    votes: Vec<Vote>,
) -> Result<Decided, Refusal> {
    if !votes_match(coordinator.identity().shards(), &intent, &votes) {
        return Err(leave(Refusal::BadRequest, intent, votes));
    }
    match coordinator.decide(intent, votes) {
        Ok(decided) => Ok(decided),
        Err(not_decided) => {
            let refusal = not_decided.refusal;
            not_decided.leave();
            Err(refusal)
        }
    }
}

/// Begins a write, prepares it at the shard and decides it.
pub(crate) fn decide<D: Device>(
    alloc: Global,
    coordinator: &mut Coordinator<D>,
    shard: &mut Shard<D>,
    write: Write,
) -> Result<Decided, Refusal> {
    let intent = coordinator.begin(write)?;
    let mut votes = Vec::new(alloc);
    match gather(alloc, shard, &intent, &mut votes) {
        Ok(()) => decide_by(coordinator, intent, votes),
        Err(refusal) => Err(leave(refusal, intent, votes)),
    }
}
