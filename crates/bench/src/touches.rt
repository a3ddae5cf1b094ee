// Writes of one touch each, and what the nodes that make them stand on.
ghost use Rattle.std.specs.Prelude.{IfOk};
ghost use Rattle.records.specs.Replays.{AskOfLog};

use coordinator::Coordinator;
use device::{Device, SimDisk};
use journal::{Journal, Refused};
use measures::changes::push_touch;
use records::Identity;
use shard::Shard;
use std::alloc::{AllocError, Global};
use tuples::{Refusal, Shards, Write};

/// The number of the store, which has one shard.
pub(crate) const STORE: u64 = 1;

/// The devices of a new node.
pub(crate) fn two_disks(alloc: Global) -> Result<(SimDisk, SimDisk), AllocError> {
    let a = SimDisk::new(alloc, Vec::new(alloc))?;
    let b = SimDisk::new(alloc, Vec::new(alloc))?;
    Ok((a, b))
}

pub(crate) fn open_coordinator<D: Device>(
    alloc: Global,
    a: D,
    b: D,
) -> Result<Coordinator<D>, Refusal> {
    match Coordinator::open(alloc, a, b, Identity::coordinator(STORE, Shards::of(1))) {
        Ok(coordinator) => Ok(coordinator),
        Err(
            Refused {
                refusal,
                a: _,
                b: _,
            },
        ) => Err(refusal),
    }
}

/// The only shard of the store.
pub(crate) fn open_shard<D: Device>(alloc: Global, a: D, b: D) -> Result<Shard<D>, Refusal> {
    match Shard::open(alloc, a, b, Identity::shard(STORE, Shards::of(1), 0)) {
        Ok(shard) => Ok(shard),
        Err(
            Refused {
                refusal,
                a: _,
                b: _,
            },
        ) => Err(refusal),
    }
}

pub(crate) fn open_journal<D: Device>(alloc: Global, a: D, b: D) -> Result<Journal<D>, Refusal> {
    match Journal::open(alloc, a, b) {
        Ok((journal, _)) => Ok(journal),
        Err(
            Refused {
                refusal,
                a: _,
                b: _,
            },
        ) => Err(refusal),
    }
}

/// A touch of the tuple with this text.
pub(crate) fn write_of(alloc: Global, text: &[u8]) -> Result<Write, Refusal>
    ensures { IfOk result (λ w. AskOfLog w.conditions) }
{
    let mut changes = Vec::new(alloc);
    push_touch(alloc, &mut changes, text)?;
    Write::new(changes, Vec::new(alloc))
}
