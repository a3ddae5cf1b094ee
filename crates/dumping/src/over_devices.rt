// A dump of a store that is opened over its devices.
ghost use Rattle.std.specs.Prelude.{◌≡◌, ◌≤◌, ◌+◌, ◌*◌, ◌++◌, List, ℕ, IfErr, IfOk, OnOk, vec_len};
ghost use Rattle.cluster.specs.Openings.{IsOpenedOver};
ghost use Rattle.cluster.specs.Steps.{Takes};
ghost use Rattle.cluster.specs.Worlds.{WorldView};
ghost use Rattle.dumping.specs.Dumped.{IsDumped, Leaves, dump_text};
ghost use Rattle.dumping.specs.Dumps.{Dumps};
ghost use Rattle.dumping.specs.Looking.{AreOfOneMoment};
ghost use Rattle.dumping.specs.Steps.{LooksOn};
ghost use Rattle.line_io.specs.Outputs.{HasBegun};
ghost use Rattle.scripts.specs.Stepping.{IsNext, ShowsRows};
ghost use Rattle.std.specs.Io.KnownBytes.{Appends};
ghost use Rattle.tuples.specs.declared.tuple.Tuple.{Tuple as AnyTuple};

use crate::dump_laws::dumps_are_snapshots;
use crate::looking::look_over;
use crate::taking::{Dump, take_dump};
use crate::text::write_text;
use cluster::{World, reopen};
use device::Device;
use line_io::write_all;
use scripts::{NoDevices, Stepping, Store};
use std::alloc::{AllocError, Global};
use std::io::Write;
use tuples::{Refusal, Shards};

/// Why a dump was not written, or not to its end.
#[derive(Clone, Copy, Debug, PartialEq, Eq)]
pub enum Fault {
    /// Nothing was written: the place can't be read, a node is not up, or there is no memory.
    Refused(Refusal),
    /// The writer failed; it may have a part.
    Unwritten,
}

// Opens the store over its devices, whose nodes are all of one moment.
fn open<D: Device>(
    alloc: Global,
    store: u64,
    shards: Shards,
    devices: Vec<D>,
) -> Result<Stepping<D, NoDevices>, Refusal>
    requires count { vec_len devices ≡ 2 * (shards + 1) }
    ensures opened { IfOk result (IsOpenedOver D.state D.honest D.moment D.left_since store shards devices.items) }
    ensures moment { IfOk result (λ opened. AreOfOneMoment D.state D.honest opened.nodes opened.shards) }
{
    match reopen(alloc, devices, store, shards) {
        Ok(world) => see(alloc, world),
        Err(_) => Err(Refusal::NoMemory),
    }
}

fn see<D: Device>(alloc: Global, world: World<D>) -> Result<Stepping<D, NoDevices>, Refusal>
    ensures same { IfOk result (λ opened. opened ≡ world) }
    ensures moment { OnOk result (AreOfOneMoment D.state D.honest world.nodes world.shards) }
{
    let seen = look_over(&world);
    let opened = Stepping::new(alloc, world, NoDevices);
    match seen {
        Ok(()) => Ok(opened),
        Err(refusal) => Err(refusal),
    }
}

fn write_dump(id: u64, dump: &Dump, text: &mut Vec<u8>) -> Result<(), Refusal>
    ensures { OnOk result (text.new.items ≡ text.old.items ++ dump_text id dump.now.place dump.now.tuples.items) }
{
    match write_text(id, dump.place, &dump.tuples, text) {
        Ok(()) => Ok(()),
        Err(AllocError) => Err(Refusal::NoMemory),
    }
}

// Appends the text of the store with this id.
fn append<S: Store>(
    alloc: Global,
    id: u64,
    store: &mut S,
    shards: Shards,
    at: Option<u64>,
    text: &mut Vec<u8>,
) -> Result<(), Refusal>
    ensures ok { OnOk result ((place : ℕ) × (rows : List AnyTuple) × Dumps S.takes S.nexts S.shows shards at store.old place rows store.new × (text.new.items ≡ text.old.items ++ dump_text id place rows)) }
    ensures looks { LooksOn S.takes store.old store.new }
{
    match take_dump(alloc, store, shards, at) {
        Ok(dump) => write_dump(id, &dump, text),
        Err(refusal) => Err(refusal),
    }
}

// Opens the store over its devices, and appends its text.
fn append_over<D: Device>(
    alloc: Global,
    store: u64,
    shards: Shards,
    at: Option<u64>,
    devices: Vec<D>,
    text: &mut Vec<u8>,
) -> Result<(), Refusal>
    requires count { vec_len devices ≡ 2 * (shards + 1) }
    ensures { OnOk result ((opened new : WorldView D) × (place : ℕ) × (rows : List AnyTuple) × IsOpenedOver D.state D.honest D.moment D.left_since store shards devices.items opened
        × AreOfOneMoment D.state D.honest opened.nodes opened.shards × Dumps (Takes D.state D.honest D.moment D.left_since) IsNext (ShowsRows D.state D.honest) shards at opened place rows new × (text.new.items ≡ text.old.items ++ dump_text store place rows)) }
{
    match open(alloc, store, shards, devices) {
        Ok(mut opened) => append(alloc, store, &mut opened, shards, at, text),
        Err(refusal) => Err(refusal),
    }
}

/// Opens the store of this id and of 1 to 64 shards over its devices, as `reopen` does, and writes the text of all tuples that are there at the place, or at
/// the latest: the token of the place, and each tuple, one per line. Refused as `take_dump` is, and before that as a node was, the coordinator first;
/// `Damaged` if a shard has learned more than the coordinator keeps, or less than that has forgotten: the devices are not all of one moment.
pub fn dump_over<D: Device, W: Write>(
    alloc: Global,
    store: u64,
    shards: Shards,
    at: Option<u64>,
    devices: Vec<D>,
    output: &mut W,
) -> Result<(), Fault>
    requires count { vec_len devices ≡ 2 * (shards + 1) }
    ensures ok { OnOk result (IsDumped D.state D.honest D.moment D.left_since store shards devices.items at (W.contents output.old) (W.contents output.new)) }
    ensures err { IfErr result (Leaves D.state D.honest D.moment D.left_since store shards devices.items at (W.contents output.old) (W.contents output.new)) }
{
    // A law: does nothing.
    dumps_are_snapshots::<D>();
    let _count = shards.count();
    let mut text = Vec::new(alloc);
    match append_over(alloc, store, shards, at, devices, &mut text) {
        Ok(()) => write(output, &text),
        Err(refusal) => Err(Fault::Refused(refusal)),
    }
}

fn write<W: Write>(output: &mut W, text: &[u8]) -> Result<(), Fault>
    ensures ok { OnOk result (Appends (W.contents output.old) (W.contents output.new) text.now) }
    ensures err { IfErr result (λ fault. (fault ≡ Fault.Unwritten) × HasBegun (W.contents output.old) (W.contents output.new) text.now) }
{
    match write_all(output, text) {
        Ok(()) => Ok(()),
        Err(_) => Err(Fault::Unwritten),
    }
}
