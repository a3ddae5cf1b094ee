// Where the devices of new nodes come from.
ghost use Rattle.std.specs.Prelude.{◌≡◌, ◌+◌, ◌*◌, All, IfOk, vec_len};
ghost use Rattle.scripts.specs.Sims.{IsEmptyDisk};

use device::{Device, SimDisk};
use std::alloc::{AllocError, Global};
use tuples::Shards;

/// What gives the devices of new nodes, one by one.
pub trait Supply<D: Device>: Drop {
    /// It may give this one.
    ghost gives: { D → Type 0 };

    /// An `Err` is for lack of memory, or of another device.
    fn give(&mut self, alloc: Global) -> Result<D, AllocError>
        ensures { IfOk result gives };
}

/// Empty disks in memory.
#[derive(Drop)]
pub struct InMemory;

impl Supply<SimDisk> for InMemory {
    ghost gives = { IsEmptyDisk };

    fn give(&mut self, alloc: Global) -> Result<SimDisk, AllocError> {
        SimDisk::new(alloc, Vec::new(alloc))
    }
}

/// None: a store over such devices can't be carried over, which is refused as for lack of memory.
#[derive(Drop)]
pub struct NoDevices;

impl<D: Device> Supply<D> for NoDevices {
    ghost gives = { λ d. ⊥ };

    fn give(&mut self, _alloc: Global) -> Result<D, AllocError> {
        Err(AllocError)
    }
}

/// Two devices for each node of a store of this many shards.
pub fn devices<D: Device, P: Supply<D>>(
    alloc: Global,
    supply: &mut P,
    shards: Shards,
) -> Result<Vec<D>, AllocError>
    ensures count { IfOk result (λ devices. vec_len devices ≡ 2 * (shards + 1)) }
    ensures each { IfOk result (λ devices. All P.gives devices.items) }
{
    let count = 2 * (usize::from(shards.count()) + 1);
    let mut devices = Vec::with_capacity(alloc, count)?;
    for _ in 0..count {
        devices.push_reserved(supply.give(alloc)?);
    }
    Ok(devices)
}
