// The nodes of a store over disks in memory: its coordinator and its shard.
ghost use Rattle.std.specs.Prelude.{◌≡◌, ◌<◌};
ghost use Rattle.records.specs.Identity.{coordinator_number};

use coordinator::{Coordinator, NotRaised, settles};
use decisions::Settled;
use device::{Device, SimDisk};
use records::Identity;
use shard::Shard;
use std::alloc::{AllocError, Global};
use tuples::{Refusal, Shards};

/// The number of each store.
pub(crate) const STORE: u64 = 1;

/// The list of one item.
pub(crate) fn only<T: Drop>(alloc: Global, item: T) -> Result<Vec<T>, AllocError> {
    let mut list = Vec::new(alloc);
    list.reserve(1)?;
    list.push_reserved(item);
    Ok(list)
}

fn add_disk(alloc: Global, disks: &mut Vec<SimDisk>) -> Result<(), Refusal> {
    disks.reserve(1)?;
    let disk = SimDisk::new(alloc, Vec::new(alloc))?;
    disks.push_reserved(disk);
    Ok(())
}

/// This many new disks; each node takes two.
pub(crate) fn new_disks(alloc: Global, count: usize) -> Result<Vec<SimDisk>, Refusal> {
    let mut disks = Vec::new(alloc);
    for _ in 0..count {
        add_disk(alloc, &mut disks)?;
    }
    Ok(disks)
}

/// Two of the devices.
pub(crate) fn two_of<D: Device>(devices: &mut Vec<D>) -> Result<(D, D), Refusal> {
    let Some(a) = devices.pop() else {
        return Err(Refusal::Full);
    };
    match devices.pop() {
        Some(b) => Ok((a, b)),
        None => {
            drop(a);
            Err(Refusal::Full)
        }
    }
}

pub(crate) fn open_coordinator<D: Device>(
    alloc: Global,
    a: D,
    b: D,
    me: Identity,
) -> Result<Coordinator<D>, Refusal>
    requires { me.node ≡ coordinator_number }
{
    match Coordinator::open(alloc, a, b, me) {
        Ok(coordinator) => Ok(coordinator),
        Err(refused) => {
            let refusal = refused.refusal;
            drop(refused);
            Err(refusal)
        }
    }
}

pub(crate) fn open_shard<D: Device>(
    alloc: Global,
    a: D,
    b: D,
    me: Identity,
) -> Result<Shard<D>, Refusal>
    requires { me.node < me.shards }
{
    match Shard::open(alloc, a, b, me) {
        Ok(shard) => Ok(shard),
        Err(refused) => {
            let refusal = refused.refusal;
            drop(refused);
            Err(refusal)
        }
    }
}

/// The shard of a store of one, over two of the devices.
pub(crate) fn open_only_shard<D: Device>(
    alloc: Global,
    devices: &mut Vec<D>,
) -> Result<Shard<D>, Refusal> {
    let (a, b) = two_of(devices)?;
    open_shard(alloc, a, b, Identity::shard(STORE, Shards::of(1), 0))
}

/// Raises the horizon of a coordinator; none if the values don't settle the place at each shard of its store.
pub(crate) fn raise<D: Device>(
    coordinator: &mut Coordinator<D>,
    place: u64,
    settled: Vec<Settled>,
) -> Option<Result<(), NotRaised>> {
    let shards = coordinator.identity().shards();
    if !settles(shards, place, &settled) {
        return None;
    }
    Some(coordinator.raise(place, settled))
}
