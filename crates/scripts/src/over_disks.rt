// A script over a store that is opened for it, over devices that are given.
ghost use Rattle.std.specs.Prelude.{◌≡◌, ◌≢◌, ◌≤◌, ◌+◌, ◌*◌, ◌⊎◌, IfOk, OnErr, OnOk, vec_len};
ghost use Rattle.cluster.specs.Openings.{IsOpenedOver};
ghost use Rattle.scripts.specs.Runs.{Broke, Ran};
ghost use Rattle.scripts.specs.Scripts.{ScriptView};
ghost use Rattle.scripts.specs.Sims.{BrokeOver, IsUntouched, RanOver, begun};

use crate::runs::run;
use crate::{Script, Stepping, Store, Supply};
use cluster::reopen;
use device::Device;
use std::alloc::{AllocError, Global};
use std::io::{self, Read, Write};
use tuples::Shards;

/// The status if the script broke off, or there is no memory for the nodes or for their disks.
pub(crate) const BROKE: u8 = 1;

// Opens the store over its devices.
fn open<D: Device, P: Supply<D>>(
    alloc: Global,
    store: u64,
    shards: Shards,
    devices: Vec<D>,
    supply: P,
) -> Result<Stepping<D, P>, AllocError>
    requires count { vec_len devices ≡ 2 * (shards + 1) }
    ensures { IfOk result (IsOpenedOver D.state D.honest D.moment D.left_since store shards devices.items) }
{
    match reopen(alloc, devices, store, shards) {
        Ok(world) => Ok(Stepping::new(alloc, world, supply)),
        Err(_) => Err(AllocError),
    }
}

// Runs a script over the store, in which no flow runs.
fn run_new<S: Store, R: Read, W: Write>(
    alloc: Global,
    id: u64,
    store: S,
    reader: &mut R,
    writer: &mut W,
) -> io::Result<()>
    ensures ok { OnOk result ((after : ScriptView S) × Ran S.takes S.nexts S.shows S.sets S.reshards S.shards_of (R.remaining reader.old) (R.remaining reader.new) (W.contents writer.old) (W.contents writer.new) (begun id store) after) }
    ensures err { OnErr result ((after : ScriptView S) × Broke S.takes S.nexts S.shows S.sets S.reshards S.shards_of (R.remaining reader.old) (R.remaining reader.new) (W.contents writer.old) (W.contents writer.new) (begun id store) after) }
{
    let mut script = Script::new(alloc, id, store);
    run(alloc, &mut script, reader, writer)
}

/// Opens the store of 1 to 64 shards over its devices, as `reopen` does, and runs a script over it. The status is 0 at the end of the script, and 1 if the
/// reader or the writer failed, or if there is no memory for the nodes. A node whose opening is refused answers that to each line that asks it. If the store
/// is carried over, the new nodes' devices are those that are given.
pub fn run_over<D: Device, P: Supply<D>, R: Read, W: Write>(
    alloc: Global,
    store: u64,
    shards: Shards,
    devices: Vec<D>,
    supply: P,
    reader: &mut R,
    writer: &mut W,
) -> u8
    requires count { vec_len devices ≡ 2 * (shards + 1) }
    ensures ran { result ≡ 0 → RanOver P.gives D.set_to_fail D.state D.honest D.moment D.left_since store shards devices.items (R.remaining reader.old) (R.remaining reader.new) (W.contents writer.old) (W.contents writer.new) }
    ensures broke { result ≢ 0 → (result ≡ BROKE) × (BrokeOver P.gives D.set_to_fail D.state D.honest D.moment D.left_since store shards devices.items (R.remaining reader.old) (R.remaining reader.new) (W.contents writer.old) (W.contents writer.new) ⊎ IsUntouched (R.remaining reader.old) (R.remaining reader.new) (W.contents writer.old) (W.contents writer.new)) }
{
    match open(alloc, store, shards, devices, supply) {
        Ok(opened) => match run_new(alloc, store, opened, reader, writer) {
            Ok(()) => 0,
            Err(_) => BROKE,
        },
        Err(AllocError) => BROKE,
    }
}
