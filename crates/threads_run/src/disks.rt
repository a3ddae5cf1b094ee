// The disks of a new store, and when each of them fails.
ghost use Rattle.std.specs.Prelude.{◌≡◌, ◌*◌, ◌+◌, All, IfOk, vec_len};
ghost use Rattle.device.specs.Disk.{state_of};
ghost use Rattle.locked.specs.Opening.{IsNew};

use crate::random::Random;
use device::{Device, SimDisk, Tear};
use std::alloc::{AllocError, Global};
use tuples::Shards;

// Each disk has a sequence of numbers of its own, beside those of the threads.
const FIRST_ROW: u64 = 1_000;

// At which call a disk fails, from 1, and what is found then.
#[derive(Clone, Copy)]
struct Failure {
    call: u64,
    tear: Tear,
}

// When the disk of this number fails, by the seed; never if there is none.
fn failure_of(seed: Option<u64>, disk: u64) -> Option<Failure> {
    let seed = seed?;
    let mut random = Random::of(seed, FIRST_ROW.saturating_add(disk));
    let call = 100 + random.below(3_900);
    let tear = match random.below(3) {
        0 => Tear::Old,
        1 => Tear::New,
        _ => Tear::Fill(random.below(256) as u8),
    };
    Some(Failure { call, tear })
}

// A disk that nobody has written to, set to fail if that is said.
fn new_disk(alloc: Global, failure: Option<Failure>) -> Result<SimDisk, AllocError>
    ensures { IfOk result (λ disk. IsNew state_of (λ d. Unit {0}) disk) }
{
    let mut disk = SimDisk::new(alloc, Vec::new(alloc))?;
    if let Some(Failure { call, tear }) = failure {
        disk.fail(call, tear);
    }
    Ok(disk)
}

/// Two disks for each node of a store of this many shards, each set to fail once if there is a seed.
pub(crate) fn new_disks(
    alloc: Global,
    shards: Shards,
    seed: Option<u64>,
) -> Result<Vec<SimDisk>, AllocError>
    ensures count { IfOk result (λ disks. vec_len disks ≡ 2 * (shards + 1)) }
    ensures new { IfOk result (λ disks. All (IsNew state_of (λ d. Unit {0})) disks.items) }
{
    let count = 2 * (usize::from(shards.count()) + 1);
    let mut disks = Vec::with_capacity(alloc, count)?;
    for disk in 0..count {
        let failure = failure_of(seed, disk as u64);
        disks.push_reserved(new_disk(alloc, failure)?);
    }
    Ok(disks)
}
