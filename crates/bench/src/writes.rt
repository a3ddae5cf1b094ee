// How fast a coordinator and its shard take writes of one touch, a hundred in a flush: read from their texts, begun, staged, flushed, voted,
// decided, flushed, told and learned. Three measures go by the same turns, and each prints its own steps.
use crate::clearing::{clear_ballots, clear_decided, clear_intents, clear_tickets, clear_votes};
use crate::steps::{
    GROUP, abort_all, begin_all, decide_all, learn_kept, list_all, stage_all, tell_all, vote_all,
};
use crate::touches::{open_coordinator, open_shard, two_disks, write_of};
use coordinator::{Coordinator, Decided};
use decisions::{Intent, Ticket, Vote};
use device::Device;
use measures::timing::{now, print, since};
use shard::Shard;
use std::alloc::Global;
use std::rt::Clock;
use std::time::Duration;
use tuples::{Refusal, Write};

// How many groups go through beside the writes in doubt.
const GROUPS: u32 = 100;

// The text before the first write, and where its digits stand.
const TEXT: [u8; 23] = *b"doc:d10000000#viewer@u1";

const DIGITS: (usize, usize) = (5, 13);

// The writes of a group on their way; what it has is lent, so that it is let go in one place.
struct Group {
    // the text of the newest write
    text: [u8; 23],
    writes: Vec<Write>,
    // the last write first, as the tickets and the ballots
    intents: Vec<Intent>,
    tickets: Vec<Ticket>,
    // the first write first
    votes: Vec<Vote>,
    ballots: Vec<Vec<Vote>>,
    decided: Vec<Decided>,
}

// What is measured so far.
#[derive(Clone, Copy)]
struct Spent {
    beginning: Duration,
    staging: Duration,
    voting: Duration,
    deciding: Duration,
    learning: Duration,
    whole: Duration,
    // the sum of the places at which the writes are kept
    places: u64,
    // the place that the shard has learned
    learned: u64,
}

const NOTHING: Spent = Spent {
    beginning: Duration::ZERO,
    staging: Duration::ZERO,
    voting: Duration::ZERO,
    deciding: Duration::ZERO,
    learning: Duration::ZERO,
    whole: Duration::ZERO,
    places: 0,
    learned: 0,
};

/// Leaves so many writes in doubt at a shard, to the next hundred below, and takes 10,000 more through it (`prepare`, `vote`, `learn`), and
/// prints how long each step took. What they answer is the place that the shard has learned at the end.
pub(crate) fn prepares(
    rt: &(impl Clock + Eprint),
    alloc: Global,
    in_doubt: u32,
) -> Result<(), Refusal> {
    let spent = time(rt, alloc, in_doubt / GROUP, GROUPS)?;
    let amount = writes_in(GROUPS);
    print(rt, "prepare", spent.staging, amount, spent.learned)?;
    print(rt, "vote", spent.voting, amount, spent.learned)?;
    print(rt, "learn", spent.learning, amount, spent.learned)
}

/// Takes so many writes through a coordinator and its shard, to the next hundred below, each from its text on (`write-path`), and prints how
/// long that took. What it answers is the place that the shard has learned at the end.
pub(crate) fn path(rt: &(impl Clock + Eprint), alloc: Global, writes: u32) -> Result<(), Refusal> {
    let groups = writes / GROUP;
    let spent = time(rt, alloc, 0, groups)?;
    print(
        rt,
        "write-path",
        spent.whole,
        writes_in(groups),
        spent.learned,
    )
}

/// Begins so many groups of writes (`begin`), and decides and keeps them (`decide`), and prints how long each took. What they answer are the
/// number that was given last and the sum of the places.
pub(crate) fn decisions(
    rt: &(impl Clock + Eprint),
    alloc: Global,
    groups: u32,
) -> Result<(), Refusal> {
    let spent = time(rt, alloc, 0, groups)?;
    let amount = writes_in(groups);
    print(rt, "begin", spent.beginning, amount, amount)?;
    print(rt, "decide", spent.deciding, amount, spent.places)
}

fn writes_in(groups: u32) -> u64 {
    u64::from(groups) * u64::from(GROUP)
}

// What so many groups take beside so many that are in doubt. The nodes are lent, since each way out of a function that owns one is proved.
fn time(rt: &impl Clock, alloc: Global, in_doubt: u32, groups: u32) -> Result<Spent, Refusal> {
    let (a, b) = two_disks(alloc)?;
    let mut shard = open_shard(alloc, a, b)?;
    let spent = time_beside(rt, alloc, &mut shard, in_doubt, groups);
    drop(shard);
    spent
}

fn time_beside<D: Device>(
    rt: &impl Clock,
    alloc: Global,
    shard: &mut Shard<D>,
    in_doubt: u32,
    groups: u32,
) -> Result<Spent, Refusal> {
    let (a, b) = two_disks(alloc)?;
    let mut coordinator = open_coordinator(alloc, a, b)?;
    let mut group = Group {
        text: TEXT,
        writes: Vec::new(alloc),
        intents: Vec::new(alloc),
        tickets: Vec::new(alloc),
        votes: Vec::new(alloc),
        ballots: Vec::new(alloc),
        decided: Vec::new(alloc),
    };
    let begun = leave_in_doubt(rt, alloc, &mut coordinator, shard, &mut group, in_doubt);
    let spent = match begun {
        Ok(()) => take_groups(rt, alloc, &mut coordinator, shard, &mut group, groups),
        Err(refusal) => Err(refusal),
    };
    leave(group);
    drop(coordinator);
    spent
}

// The coordinator aborts them, so that it has not too many open writes; the shard is not told.
fn leave_in_doubt<C: Device, D: Device>(
    rt: &impl Clock,
    alloc: Global,
    coordinator: &mut Coordinator<C>,
    shard: &mut Shard<D>,
    group: &mut Group,
    groups: u32,
) -> Result<(), Refusal> {
    for _ in 0..groups {
        read_all(alloc, &mut group.text, &mut group.writes)?;
        begin_all(rt, coordinator, &mut group.writes, &mut group.intents)?;
        stage_all(rt, alloc, shard, &group.intents, &mut group.tickets)?;
        shard.flush()?;
        clear_tickets(&mut group.tickets);
        abort_all(coordinator, &mut group.intents)?;
    }
    Ok(())
}

fn take_groups<C: Device, D: Device>(
    rt: &impl Clock,
    alloc: Global,
    coordinator: &mut Coordinator<C>,
    shard: &mut Shard<D>,
    group: &mut Group,
    groups: u32,
) -> Result<Spent, Refusal> {
    let mut spent = NOTHING;
    let start = now(rt)?;
    for _ in 0..groups {
        take_group(rt, alloc, coordinator, shard, group, &mut spent)?;
    }
    spent.whole = since(rt, start)?;
    spent.learned = shard.learned()?;
    Ok(spent)
}

fn take_group<C: Device, D: Device>(
    rt: &impl Clock,
    alloc: Global,
    coordinator: &mut Coordinator<C>,
    shard: &mut Shard<D>,
    group: &mut Group,
    spent: &mut Spent,
) -> Result<(), Refusal> {
    read_all(alloc, &mut group.text, &mut group.writes)?;
    let beginning = begin_all(rt, coordinator, &mut group.writes, &mut group.intents)?;
    spent.beginning = spent.beginning.saturating_add(beginning);
    let staging = stage_all(rt, alloc, shard, &group.intents, &mut group.tickets)?;
    spent.staging = spent.staging.saturating_add(staging);
    shard.flush()?;
    let voting = vote_all(rt, shard, &mut group.tickets, &mut group.votes)?;
    spent.voting = spent.voting.saturating_add(voting);
    list_all(alloc, &mut group.votes, &mut group.ballots)?;
    decide_group(rt, coordinator, group, spent)?;
    let learning = learn_kept(rt, alloc, coordinator, shard)?;
    spent.learning = spent.learning.saturating_add(learning);
    Ok(())
}

// The next writes of a group, each from its text.
fn read_all(alloc: Global, text: &mut [u8; 23], writes: &mut Vec<Write>) -> Result<(), Refusal> {
    for _ in 0..GROUP {
        count_up(text);
        writes.reserve(1)?;
        writes.push_reserved(write_of(alloc, text)?);
    }
    Ok(())
}

// Counts up the number in a text.
fn count_up(text: &mut [u8]) {
    let (first, end) = DIGITS;
    for i in (first..end).rev() {
        let Some(digit) = text.get_mut(i) else {
            return;
        };
        if *digit < b'9' {
            *digit += 1;
            return;
        }
        *digit = b'0';
    }
}

// Each write by its vote, all in one flush, and then what became of each.
fn decide_group<D: Device>(
    rt: &impl Clock,
    coordinator: &mut Coordinator<D>,
    group: &mut Group,
    spent: &mut Spent,
) -> Result<(), Refusal> {
    let start = now(rt)?;
    decide_all(
        coordinator,
        &mut group.intents,
        &mut group.ballots,
        &mut group.decided,
    )?;
    coordinator.flush()?;
    let places = tell_all(coordinator, &mut group.decided)?;
    let deciding = since(rt, start)?;
    spent.deciding = spent.deciding.saturating_add(deciding);
    spent.places = spent.places.wrapping_add(places);
    Ok(())
}

// Only spends what is left of a group.
fn leave(group: Group) {
    let Group {
        text: _,
        writes: _,
        mut intents,
        mut tickets,
        mut votes,
        mut ballots,
        mut decided,
    } = group;
    clear_intents(&mut intents);
    intents.destroy_empty();
    clear_tickets(&mut tickets);
    tickets.destroy_empty();
    clear_votes(&mut votes);
    votes.destroy_empty();
    clear_ballots(&mut ballots);
    ballots.destroy_empty();
    clear_decided(&mut decided);
    decided.destroy_empty();
}
