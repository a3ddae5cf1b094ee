// How long an opening of a node takes over the records of so many writes, and how much memory.
ghost use Rattle.std.specs.Prelude.{◌≤◌, IfOk};
ghost use Rattle.decisions.specs.Values.{IsIntent};
ghost use Rattle.journal.specs.Rest.{IsPlain};
ghost use Rattle.records.specs.Format.{IsRecord};

use crate::touches::{STORE, open_coordinator, open_journal, open_shard, two_disks, write_of};
use device::{Device, SimDisk};
use journal::Journal;
use measures::timing::{now, print_since};
use records::{COORDINATOR, PlacedId, PlacedIds, Record};
use std::alloc::{AllocError, Global};
use std::rt::Clock;
use tuples::{Entry, Refusal, WriteId};

/// The node whose records are made: the coordinator, or the only shard of its store.
#[derive(Clone, Copy)]
pub(crate) enum Node {
    Coordinator,
    Shard,
}

impl Node {
    // What its measures are called: the records, and the opening.
    fn names(self) -> (&'static str, &'static str) {
        match self {
            Node::Coordinator => ("log", "opening"),
            Node::Shard => ("records", "shard-opening"),
        }
    }

    // How many records it has of so many writes: of each a decision, or a prepare and what was learned of it.
    fn records_of(self, writes: u32) -> u64 {
        match self {
            Node::Coordinator => u64::from(writes),
            Node::Shard => u64::from(writes) * 2,
        }
    }
}

/// Makes the records of a node that has seen so many writes of one touch to their end (`log`, `records`), and prints how long that took; its
/// answer is the bytes of the log. Until it opens a node, an opening takes the same memory.
pub(crate) fn records(
    rt: &(impl Clock + Eprint),
    alloc: Global,
    node: Node,
    writes: u32,
) -> Result<(), Refusal> {
    let start = now(rt);
    let (mut a, _b) = made(alloc, node, writes)?;
    let size = a.len().unwrap_or(0) as u64;
    let (name, _) = node.names();
    print_since(rt, name, start, node.records_of(writes), Ok(size))
}

/// Opens a node over such records (`opening`, `shard-opening`), and prints how long that took. What it answers is the place of the last write.
pub(crate) fn opening(
    rt: &(impl Clock + Eprint),
    alloc: Global,
    node: Node,
    writes: u32,
) -> Result<(), Refusal> {
    let (a, b) = made(alloc, node, writes)?;
    let (_, name) = node.names();
    let records = node.records_of(writes);
    match node {
        Node::Coordinator => time_coordinator(rt, alloc, a, b, name, records),
        Node::Shard => time_shard(rt, alloc, a, b, name, records),
    }
}

fn time_coordinator<D: Device>(
    rt: &(impl Clock + Eprint),
    alloc: Global,
    a: D,
    b: D,
    name: &str,
    amount: u64,
) -> Result<(), Refusal> {
    let start = now(rt);
    let coordinator = open_coordinator(alloc, a, b)?;
    let printed = print_since(rt, name, start, amount, Ok(coordinator.kept()));
    drop(coordinator);
    printed
}

/// Prints what opening a shard over these devices takes.
pub(crate) fn time_shard<D: Device>(
    rt: &(impl Clock + Eprint),
    alloc: Global,
    a: D,
    b: D,
    name: &str,
    amount: u64,
) -> Result<(), Refusal> {
    let start = now(rt);
    let shard = open_shard(alloc, a, b)?;
    let printed = print_since(rt, name, start, amount, shard.learned());
    drop(shard);
    printed
}

/// Devices with a node's records of so many writes.
pub(crate) fn made(alloc: Global, node: Node, writes: u32) -> Result<(SimDisk, SimDisk), Refusal> {
    let (a, b) = two_disks(alloc)?;
    let mut journal = open_journal(alloc, a, b)?;
    let staged = stage_all(alloc, &mut journal, node, writes);
    let devices = journal.into_devices();
    staged?;
    Ok(devices)
}

// Makes a first opening and the records of so many writes durable.
fn stage_all<D: Device>(
    alloc: Global,
    journal: &mut Journal<D>,
    node: Node,
    writes: u32,
) -> Result<(), Refusal> {
    stage_opening(journal, node)?;
    for before in 0..writes {
        let number = u64::from(before) + 1;
        match node {
            Node::Coordinator => stage_decision(alloc, journal, number)?,
            Node::Shard => stage_write(alloc, journal, number)?,
        }
    }
    journal.flush()
}

fn stage_opening<D: Device>(journal: &mut Journal<D>, node: Node) -> Result<(), Refusal> {
    let node = match node {
        Node::Coordinator => COORDINATOR,
        Node::Shard => 0,
    };
    let opening = Record::Epoch {
        epoch: 1,
        store: STORE,
        shards: 1,
        node,
    };
    stage(journal, opening)
}

fn stage_decision<D: Device>(
    alloc: Global,
    journal: &mut Journal<D>,
    number: u64,
) -> Result<(), Refusal>
    requires some { 1 ≤ number }
    requires fits { number ≤ 4294967296 }
{
    let entry = entry(alloc, number)?;
    let decision = Record::Decision {
        place: number,
        entry,
    };
    stage(journal, decision)
}

// The two records of the write with this number, which has that place too.
fn stage_write<D: Device>(
    alloc: Global,
    journal: &mut Journal<D>,
    number: u64,
) -> Result<(), Refusal>
    requires some { 1 ≤ number }
    requires fits { number ≤ 4294967296 }
{
    let prepare = Record::Prepare(entry(alloc, number)?);
    stage(journal, prepare)?;
    let learned = learned(alloc, number)?;
    stage(journal, learned)
}

// A record is lent to what can fail, so that it is let go in one place.
fn stage<D: Device>(journal: &mut Journal<D>, made: Record) -> Result<(), Refusal>
    requires spellable { IsRecord made }
    requires plain { IsPlain made }
{
    let staged = stage_next(journal, &made);
    drop(made);
    staged
}

// A full batch goes out first.
fn stage_next<D: Device>(journal: &mut Journal<D>, next: &Record) -> Result<(), Refusal>
    requires spellable { IsRecord next.now }
    requires plain { IsPlain next.now }
{
    if !journal.has_room(next) {
        journal.flush()?;
    }
    journal.stage(next)
}

// The write with this number of the first epoch, a touch of a tuple of its own.
fn entry(alloc: Global, number: u64) -> Result<Entry, Refusal>
    requires some { 1 ≤ number }
    requires fits { number ≤ 4294967296 }
    ensures { IfOk result IsIntent }
{
    let text = format!(in alloc; "doc:d{number}#viewer@u1")?;
    let (changes, conditions) = write_of(alloc, text.as_bytes())?.into_parts();
    Ok(Entry {
        id: WriteId { epoch: 1, number },
        changes,
        conditions,
    })
}

fn learned(alloc: Global, number: u64) -> Result<Record, AllocError>
    requires some { 1 ≤ number }
    requires fits { number ≤ 4294967296 }
    ensures spellable { IfOk result IsRecord }
    ensures plain { IfOk result IsPlain }
{
    let placed_id = PlacedId {
        id: WriteId { epoch: 1, number },
        place: number,
    };
    let mut placed_ids = Vec::new(alloc);
    placed_ids.reserve(1)?;
    placed_ids.push_reserved(placed_id);
    Ok(Record::Learned {
        to: number,
        placed_ids: PlacedIds::from_vec(placed_ids),
    })
}
