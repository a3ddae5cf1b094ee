// A script over disks in memory, as one life of a store, or one after another if it is carried over (`specs/Lives.antt`): what was done for its lines, step by step
// and with what each told, is one run of the machine of whole writes from the empty log. If the store is carried over to another number of shards, that run ends, and
// the devices of what it became rest at its one list and horizon, from where it lives on. `headline` has the law, and the program calls this.
ghost use Rattle.std.specs.Prelude.{◌≡◌, ◌≢◌, ◌≤◌, ◌⊎◌, All, List};
ghost use Rattle.device.specs.Disk.{is_set_to_fail, left_since_of, moment_of, state_of};
ghost use Rattle.device.specs.declared.sim_disk.SimDisk.{SimDisk as AnyDisk};
ghost use Rattle.scripts.specs.Lives.{BrokeAsLife, RanAsLife};
ghost use Rattle.scripts.specs.Sims.{IsEmptyDisk, IsUntouched};

use crate::over_disks::{BROKE, run_over};
use crate::{InMemory, devices};
use device::SimDisk;
use headline::acted_headline;
use reshard_laws::what_is_carried_over_rests;
use std::alloc::Global;
use std::io::{Read, Write};
use tuples::Shards;

/// Runs a script over a store of 1 to 64 shards on disks in memory. The status is 0 at the end of the script, and 1 if the reader or the writer failed, or
/// if there is no memory for the disks.
pub fn sim<R: Read, W: Write>(
    alloc: Global,
    store: u64,
    shards: Shards,
    reader: &mut R,
    writer: &mut W,
) -> u8
    ensures ran { result ≡ 0 → (disks : List AnyDisk) × All IsEmptyDisk disks × RanAsLife IsEmptyDisk is_set_to_fail state_of (λ d. Unit {0}) moment_of left_since_of store shards disks (R.remaining reader.old) (R.remaining reader.new) (W.contents writer.old) (W.contents writer.new) }
    ensures broke { result ≢ 0 → (result ≡ 1) × (((disks : List AnyDisk) × All IsEmptyDisk disks × BrokeAsLife IsEmptyDisk is_set_to_fail state_of (λ d. Unit {0}) moment_of left_since_of store shards disks (R.remaining reader.old) (R.remaining reader.new) (W.contents writer.old) (W.contents writer.new)) ⊎ IsUntouched (R.remaining reader.old) (R.remaining reader.new) (W.contents writer.old) (W.contents writer.new)) }
{
    // Laws: they do nothing.
    acted_headline::<SimDisk>();
    what_is_carried_over_rests::<SimDisk>();
    let _count = shards.count();
    let mut supply = InMemory;
    match devices(alloc, &mut supply, shards) {
        Ok(disks) => run_over(alloc, store, shards, disks, supply, reader, writer),
        Err(_) => BROKE,
    }
}
