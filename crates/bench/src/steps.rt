// The steps of a group of writes at a coordinator and at its shard. What is handed on is lent as a list, so that what a refusal leaves of it
// is spent in one place.
use coordinator::{Coordinator, Decided, NotDecided, Outcome, votes_match};
use decisions::{Batch, Intent, Ticket, Vote};
use device::Device;
use measures::timing::{now, since};
use shard::{Shard, VoteReply};
use std::alloc::Global;
use std::rt::Clock;
use std::time::Duration;
use tuples::{Refusal, Write};

/// How many writes are flushed, decided and learned together.
pub(crate) const GROUP: u32 = 100;

/// Aborts writes that were begun.
pub(crate) fn abort_all<D: Device>(
    coordinator: &mut Coordinator<D>,
    intents: &mut Vec<Intent>,
) -> Result<(), Refusal> {
    for _ in 0..GROUP {
        let Some(intent) = intents.pop() else {
            return Ok(());
        };
        let _verdict = coordinator.abort(intent)?;
    }
    Ok(())
}

/// How long it takes to begin the writes, the last of them first.
pub(crate) fn begin_all<D: Device>(
    rt: &impl Clock,
    coordinator: &mut Coordinator<D>,
    writes: &mut Vec<Write>,
    intents: &mut Vec<Intent>,
) -> Result<Duration, Refusal> {
    let start = now(rt)?;
    for _ in 0..GROUP {
        intents.reserve(1)?;
        let Some(write) = writes.pop() else {
            break;
        };
        intents.push_reserved(coordinator.begin(write)?);
    }
    since(rt, start)
}

/// How long it takes to stage the prepares.
pub(crate) fn stage_all<D: Device>(
    rt: &impl Clock,
    alloc: Global,
    shard: &mut Shard<D>,
    intents: &[Intent],
    tickets: &mut Vec<Ticket>,
) -> Result<Duration, Refusal> {
    let start = now(rt)?;
    for intent in intents {
        if !shard.takes_part(intent) {
            return Err(Refusal::BadRequest);
        }
        tickets.reserve(1)?;
        tickets.push_reserved(shard.stage_prepare(alloc, intent)?);
    }
    since(rt, start)
}

/// How long it takes to vote for what is flushed, the last prepare first.
pub(crate) fn vote_all<D: Device>(
    rt: &impl Clock,
    shard: &Shard<D>,
    tickets: &mut Vec<Ticket>,
    votes: &mut Vec<Vote>,
) -> Result<Duration, Refusal> {
    let start = now(rt)?;
    for _ in 0..GROUP {
        votes.reserve(1)?;
        let Some(ticket) = tickets.pop() else {
            break;
        };
        votes.push_reserved(vote(shard, ticket)?);
    }
    since(rt, start)
}

fn vote<D: Device>(shard: &Shard<D>, ticket: Ticket) -> Result<Vote, Refusal> {
    match shard.vote(ticket) {
        VoteReply::Yes(vote) => Ok(vote),
        VoteReply::No(refusal) => Err(refusal),
        VoteReply::Later(ticket) => {
            ticket.leave();
            Err(Refusal::BadRequest)
        }
    }
}

/// Each vote alone in a list: the store has one shard.
pub(crate) fn list_all(
    alloc: Global,
    votes: &mut Vec<Vote>,
    ballots: &mut Vec<Vec<Vote>>,
) -> Result<(), Refusal> {
    for _ in 0..GROUP {
        ballots.reserve(1)?;
        let mut ballot = Vec::new(alloc);
        if ballot.reserve(1).is_err() {
            ballot.destroy_empty();
            return Err(Refusal::NoMemory);
        }
        if let Some(vote) = votes.pop() {
            ballot.push_reserved(vote);
        }
        ballots.push_reserved(ballot);
    }
    Ok(())
}

/// Stages the decision of each write by its votes.
pub(crate) fn decide_all<D: Device>(
    coordinator: &mut Coordinator<D>,
    intents: &mut Vec<Intent>,
    ballots: &mut Vec<Vec<Vote>>,
    decided: &mut Vec<Decided>,
) -> Result<(), Refusal> {
    for _ in 0..GROUP {
        decided.reserve(1)?;
        let Some(intent) = intents.pop() else {
            return Ok(());
        };
        let Some(votes) = ballots.pop() else {
            intent.leave();
            return Err(Refusal::BadRequest);
        };
        decided.push_reserved(decide(coordinator, intent, votes)?);
    }
    Ok(())
}

// Stages the decision of a write by these votes.
fn decide<D: Device>(
    coordinator: &mut Coordinator<D>,
    intent: Intent,
    votes: Vec<Vote>,
) -> Result<Decided, Refusal> {
    let not_decided = if votes_match(coordinator.identity().shards(), &intent, &votes) {
        match coordinator.decide(intent, votes) {
            Ok(decided) => return Ok(decided),
            Err(not_decided) => not_decided,
        }
    } else {
        NotDecided {
            refusal: Refusal::BadRequest,
            intent: Some(intent),
            votes,
        }
    };
    let refusal = not_decided.refusal;
    not_decided.leave();
    Err(refusal)
}

/// The sum of the places at which the decisions are kept.
pub(crate) fn tell_all<D: Device>(
    coordinator: &Coordinator<D>,
    decided: &mut Vec<Decided>,
) -> Result<u64, Refusal> {
    let mut sum = 0u64;
    for _ in 0..GROUP {
        let Some(one) = decided.pop() else {
            return Ok(sum);
        };
        match coordinator.outcome(one) {
            Outcome::Kept(place) => sum = sum.wrapping_add(place),
            Outcome::Later(later) => later.leave(),
            Outcome::Unsure => return Err(Refusal::Unsure),
        }
    }
    Ok(sum)
}

/// How long it takes to learn the decisions that are kept. Only the shard's own work is timed, and not that the coordinator makes the batch.
pub(crate) fn learn_kept<C: Device, D: Device>(
    rt: &impl Clock,
    alloc: Global,
    coordinator: &Coordinator<C>,
    shard: &mut Shard<D>,
) -> Result<Duration, Refusal> {
    let from = shard.learned()?;
    let to = coordinator.kept();
    if to < from {
        return Err(Refusal::Future);
    }
    let batch = coordinator.batch(alloc, from, to)?;
    learn(rt, alloc, shard, &batch)
}

fn learn<D: Device>(
    rt: &impl Clock,
    alloc: Global,
    shard: &mut Shard<D>,
    batch: &Batch,
) -> Result<Duration, Refusal> {
    let start = now(rt)?;
    shard.learn(alloc, batch)?;
    since(rt, start)
}
