// A new store is opened over disks in memory, and what was asked for is run over it.
ghost use Rattle.std.specs.Prelude.{◌≡◌, ◌*◌, ◌+◌, [], All, vec_len};
ghost use Rattle.locked.specs.Opening.{RestAt};

use crate::asked::Asked;
use crate::disks::new_disks;
use crate::meeting::{Door, Meeting};
use crate::{stress, two_callers, two_writers};
use crossbeam_utils::sync::Parker;
use device::{Device, SimDisk};
use locked::{Gate, Parts, Store};
use sides::Room;
use std::alloc::Global;
use std::marker::Brand;
use std::rt::Runtime;
use std::sync::Wait;
use std::thread::Threads;
use tuples::Shards;

/// The number of the store.
const STORE: u64 = 1;

/// How many shards it has.
const SHARDS: u8 = 4;

/// The status if a run was cut off, or a play did not go as it has to.
pub(crate) const FAILED: u8 = 1;

/// Opens a store, and runs what was asked for. Returns the status.
pub fn run<R: Runtime + Threads + Wait + Sync>(rt: &R, alloc: Global, asked: Asked) -> u8 {
    match Parts::new(alloc) {
        Ok((parker, parts)) => run_over_parts(rt, alloc, parker, parts, asked),
        Err(_) => FAILED,
    }
}

fn run_over_parts<R: Runtime + Threads + Wait + Sync>(
    rt: &R,
    alloc: Global,
    parker: Parker,
    parts: Parts,
    asked: Asked,
) -> u8
    requires own { parts.log.table ≡ parts.words }
    requires empty { (parts.log.seen ≡ []) × (parts.log.horizon ≡ 0) }
{
    let meeting = Meeting::of(asked.guests());
    match new_disks(alloc, Shards::of(SHARDS), asked.failing()) {
        Ok(disks) => run_over::<SimDisk, Brand, R>(
            rt, alloc, parker, &meeting, parts, disks, asked,
        ),
        Err(_) => FAILED,
    }
}

fn run_over<D: Device + Send + Sync, B: Room + Send + Sync, R: Runtime + Threads + Wait + Sync>(
    rt: &R,
    alloc: Global,
    parker: Parker,
    meeting: &Meeting,
    parts: Parts,
    devices: Vec<D>,
    asked: Asked,
) -> u8
    requires own { (parts.words ≡ B.log) × (parts.log.table ≡ B.log) × (parts.attempts ≡ B.attempts) × (parts.launches ≡ B.launches) }
    requires empty { (parts.log.seen ≡ []) × (parts.log.horizon ≡ 0) }
    requires of { (B.store ≡ STORE) × (B.shards ≡ SHARDS) }
    requires count { vec_len devices ≡ 2 * (SHARDS + 1) }
    requires honest { All D.honest devices.items }
    requires rests { B.rests → RestAt D.state D.honest B.shards B.first B.low devices.items }
{
    match Store::<D, B, Door<'_>>::open(
        rt,
        alloc,
        Door { meeting },
        parts,
        devices,
        STORE,
        Shards::of(SHARDS),
    ) {
        Ok((store, _first)) => run_asked(rt, alloc, &store, parker, meeting, asked),
        Err(_) => FAILED,
    }
}

fn run_asked<
    D: Device + Send + Sync,
    B: Room + Send + Sync,
    G: Gate + Sync,
    R: Runtime + Threads + Wait + Sync,
>(
    rt: &R,
    alloc: Global,
    store: &Store<D, B, G>,
    parker: Parker,
    meeting: &Meeting,
    asked: Asked,
) -> u8 {
    match asked {
        Asked::Stress(asked) => stress::run(rt, alloc, store, parker, asked),
        Asked::TwoCallers => two_callers::run(rt, alloc, store),
        Asked::TwoWriters => two_writers::run(rt, alloc, store, meeting),
    }
}
