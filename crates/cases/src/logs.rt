// Nodes over devices that have the records of an earlier opening.
ghost use Rattle.std.specs.Prelude.{◌≤◌, IfOk};
ghost use Rattle.decisions.specs.Values.{IsIntent};
ghost use Rattle.journal.specs.Rest.{IsPlain};
ghost use Rattle.records.specs.Format.{IsRecord};

use crate::small_stores::{STORE, open_coordinator, open_shard, two_of};
use crate::writes::touch;
use coordinator::Coordinator;
use device::Device;
use journal::Journal;
use records::{COORDINATOR, Identity, PlacedIds, Record};
use shard::Shard;
use std::alloc::Global;
use tuples::{Entry, Refusal, Shards, WriteId};

/// A journal over two of the devices.
fn journal<D: Device>(alloc: Global, devices: &mut Vec<D>) -> Result<Journal<D>, Refusal> {
    let (a, b) = two_of(devices)?;
    match Journal::open(alloc, a, b) {
        Ok((journal, records)) => {
            drop(records);
            Ok(journal)
        }
        Err(refused) => {
            let refusal = refused.refusal;
            drop(refused);
            Err(refusal)
        }
    }
}

/// Stages a record, which is dropped here: within a `?` it would be dropped once per exit.
fn stage<D: Device>(journal: &mut Journal<D>, next: Record) -> Result<(), Refusal>
    requires spellable { IsRecord next }
    requires plain { IsPlain next }
{
    let staged = journal.stage(&next);
    drop(next);
    staged
}

/// The same with the first opening of a node of a store of one shard, which is staged.
fn opened_once<D: Device>(
    alloc: Global,
    devices: &mut Vec<D>,
    node: u8,
) -> Result<Journal<D>, Refusal> {
    let mut journal = journal(alloc, devices)?;
    let opening = Record::Epoch {
        epoch: 1,
        store: STORE,
        shards: 1,
        node,
    };
    match stage(&mut journal, opening) {
        Ok(()) => Ok(journal),
        Err(refusal) => {
            drop(journal);
            Err(refusal)
        }
    }
}

/// The write with that number of the first epoch.
fn entry(alloc: Global, number: u64) -> Result<Entry, Refusal>
    requires some { 1 ≤ number }
    requires fits { number ≤ 1000000 }
    ensures { IfOk result IsIntent }
{
    let (changes, conditions) = touch(alloc, "doc:a#viewer@u1")?.into_parts();
    Ok(Entry {
        id: WriteId { epoch: 1, number },
        changes,
        conditions,
    })
}

/// A full batch goes out, so that there is room for this record.
fn make_room<D: Device>(journal: &mut Journal<D>, next: &Record) -> Result<(), Refusal>
    requires { IsRecord next.now }
{
    if journal.has_room(next) {
        return Ok(());
    }
    journal.flush()
}

/// Stages a decision; a full batch goes out first.
fn stage_decision<D: Device>(
    journal: &mut Journal<D>,
    place: u64,
    entry: Entry,
) -> Result<(), Refusal>
    requires { IsIntent entry }
{
    let decision = Record::Decision { place, entry };
    match make_room(journal, &decision) {
        Ok(()) => stage(journal, decision),
        Err(refusal) => {
            drop(decision);
            Err(refusal)
        }
    }
}

/// Stages this many decisions: at each place the write with the number of the place.
fn stage_decisions<D: Device>(
    alloc: Global,
    journal: &mut Journal<D>,
    count: u64,
) -> Result<(), Refusal>
    requires fits { count ≤ 1000000 }
{
    for before in 0..count {
        let entry = entry(alloc, before + 1)?;
        stage_decision(journal, before + 1, entry)?;
    }
    Ok(())
}

/// Stages this many decisions and a horizon, and flushes.
fn keep<D: Device>(
    alloc: Global,
    journal: &mut Journal<D>,
    decisions: u64,
    horizon: u64,
) -> Result<(), Refusal>
    requires fits { decisions ≤ 1000000 }
{
    stage_decisions(alloc, journal, decisions)?;
    if horizon > 0 {
        stage(journal, Record::Horizon(horizon))?;
    }
    journal.flush()
}

/// The devices of a journal after what was done to it, unless that was refused.
fn devices_behind<D: Device>(
    journal: Journal<D>,
    done: Result<(), Refusal>,
) -> Result<(D, D), Refusal> {
    match done {
        Ok(()) => Ok(journal.into_devices()),
        Err(refusal) => {
            drop(journal);
            Err(refusal)
        }
    }
}

/// The coordinator at its second opening, over this many decisions and a horizon.
pub(crate) fn coordinator_with<D: Device>(
    alloc: Global,
    devices: &mut Vec<D>,
    decisions: u64,
    horizon: u64,
) -> Result<Coordinator<D>, Refusal>
    requires fits { decisions ≤ 1000000 }
{
    let mut journal = opened_once(alloc, devices, COORDINATOR)?;
    let kept = keep(alloc, &mut journal, decisions, horizon);
    let (a, b) = devices_behind(journal, kept)?;
    open_coordinator(alloc, a, b, Identity::coordinator(STORE, Shards::of(1)))
}

/// Stages that all up to a place is learned, without a part of the shard, and flushes.
fn learn<D: Device>(alloc: Global, journal: &mut Journal<D>, to: u64) -> Result<(), Refusal> {
    let placed_ids = PlacedIds::from_vec(Vec::new(alloc));
    stage(journal, Record::Learned { to, placed_ids })?;
    journal.flush()
}

/// The shard at its second opening, which took part in nothing and has learned up to a place.
pub(crate) fn shard_with<D: Device>(
    alloc: Global,
    devices: &mut Vec<D>,
    to: u64,
) -> Result<Shard<D>, Refusal> {
    let mut journal = opened_once(alloc, devices, 0)?;
    let learned = learn(alloc, &mut journal, to);
    let (a, b) = devices_behind(journal, learned)?;
    open_shard(alloc, a, b, Identity::shard(STORE, Shards::of(1), 0))
}
