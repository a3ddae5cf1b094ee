// A store that a folder keeps is carried over to another folder.
ghost use Rattle.std.specs.Prelude.{◌≤◌, ◌≡◌, ◌⊎◌, ◌+◌, ◌*◌, IfErr, IfOk, List, OnOk, vec_len};
ghost use Rattle.cluster.specs.Worlds.{flow_count};
ghost use Rattle.node_files.specs.Devices.{HostDevice, is_honest, left_since_of, moment_of, state_of};
ghost use Rattle.reshard.specs.Folders.{CarriesDevices, CarriesDevicesNot, CarriesFiles, CarriesWorld, CarriesWorldNot};

use crate::{blamed, carry_over};
use cluster::{World, reopen};
use device::Device;
use files::{FileDevice, HostFile};
use node_files::{Mode, Trouble, open_all};
use std::alloc::Global;
use tuples::{Refusal, Shards};

// The status of a resharding that was not done.
const FAILED: u8 = 1;

/// Where a store is, and where it is to go.
#[derive(Clone, Copy)]
pub struct Folders<'a> {
    /// The folder that keeps it.
    pub dir: &'a str,
    /// The folder that is to keep it, which has no file of a store yet.
    pub to: &'a str,
}

/// Carries the store that one folder keeps over to the other one, with so many shards, and prints `done`. On standard error it says why it did not:
/// `zanstore: 13 Down` if a file of the store can't be opened, or another process has it, `zanstore: 16 Damaged` if the other folder has a file of a
/// store, and else the refusal; and on a second line what that is about, if it is known. The status is 0 or 1.
///
/// Nothing is written to the files of the old folder. If the status is not 0 the files of the new one are to be deleted.
pub fn reshard_folder(
    rt: &HostRuntime,
    folders: Folders<'_>,
    store: u64,
    shards: Shards,
    new_shards: Shards,
) -> u8
    ensures status { (result ≡ 0) ⊎ (result ≡ 1) }
    ensures carried { result ≡ 0 → (made : List HostDevice) × CarriesFiles store shards new_shards made }
{
    match carry_folder(rt, folders, store, shards, new_shards) {
        Ok(()) => tell_done(rt),
        Err(trouble) => tell(rt, &trouble),
    }
}

// That the devices are over files of these folders no clause can say.
fn carry_folder(
    rt: &HostRuntime,
    folders: Folders<'_>,
    store: u64,
    shards: Shards,
    new_shards: Shards,
) -> Result<(), Trouble>
    ensures { OnOk result ((made : List HostDevice) × CarriesFiles store shards new_shards made) }
{
    let (dir, to) = (folders.dir, folders.to);
    let devices = open_all(rt, dir, store, shards, Mode::Look)?.devices;
    let new_devices = open_all(rt, to, store, new_shards, Mode::New)?.devices;
    match carry_files(rt.alloc(), devices, store, shards, new_devices, new_shards) {
        Ok(()) => Ok(()),
        Err(refusal) => Err(blamed(rt, dir, store, shards, refusal)),
    }
}

// As `carry_devices`, and the new files are let go, so that others may open them.
fn carry_files(
    alloc: Global,
    devices: Vec<FileDevice<HostFile>>,
    store: u64,
    shards: Shards,
    new_devices: Vec<FileDevice<HostFile>>,
    new_shards: Shards,
) -> Result<(), Refusal>
    requires count { vec_len devices ≡ 2 * (shards + 1) }
    requires count_new { vec_len new_devices ≡ 2 * (new_shards + 1) }
    ensures { OnOk result ((made : List HostDevice) × CarriesDevices state_of is_honest moment_of left_since_of store shards devices.items new_shards new_devices.items made) }
{
    match carry_devices(alloc, devices, store, shards, new_devices, new_shards) {
        Ok(_) => Ok(()),
        Err(refusal) => Err(refusal),
    }
}

// Opens a closed store over its devices, and carries it over to new ones, which come back.
fn carry_devices<D: Device>(
    alloc: Global,
    devices: Vec<D>,
    store: u64,
    shards: Shards,
    new_devices: Vec<D>,
    new_shards: Shards,
) -> Result<Vec<D>, Refusal>
    requires count { vec_len devices ≡ 2 * (shards + 1) }
    requires count_new { vec_len new_devices ≡ 2 * (new_shards + 1) }
    ensures ok { IfOk result (λ made. CarriesDevices D.state D.honest D.moment D.left_since store shards devices.items new_shards new_devices.items made.items) }
    ensures err { IfErr result (CarriesDevicesNot D.state D.honest D.moment D.left_since store shards devices.items new_devices.items) }
{
    match reopen(alloc, devices, store, shards) {
        Ok(world) => carry_world(alloc, world, new_devices, new_shards),
        Err(_) => Err(Refusal::NoMemory),
    }
}

fn carry_world<D: Device>(
    alloc: Global,
    mut world: World<D>,
    new_devices: Vec<D>,
    new_shards: Shards,
) -> Result<Vec<D>, Refusal>
    requires quiet { flow_count world.flows ≡ 0 }
    requires count_new { vec_len new_devices ≡ 2 * (new_shards + 1) }
    ensures ok { IfOk result (λ made. CarriesWorld D.state D.honest D.moment D.left_since world new_shards new_devices.items made.items) }
    ensures err { IfErr result (CarriesWorldNot D.state D.honest D.moment D.left_since new_devices.items world) }
{
    match carry_over(alloc, &mut world, new_devices, new_shards) {
        Ok(made) => Ok(made),
        Err((refusal, _)) => Err(refusal),
    }
}

fn tell(rt: &HostRuntime, trouble: &Trouble) -> u8
    ensures { result ≡ 1 }
{
    // A text that can't be printed changes nothing of the status.
    let _ = eprintln!(rt; "{trouble}");
    FAILED
}

fn tell_done(rt: &HostRuntime) -> u8
    ensures { (result ≡ 0) ⊎ (result ≡ 1) }
{
    match println!(rt; "done") {
        Ok(()) => 0,
        Err(_) => {
            let _ = eprintln!(rt; "zanstore: output");
            FAILED
        }
    }
}
