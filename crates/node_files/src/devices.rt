// The devices of a store that a folder keeps: two files for each node.
ghost use Rattle.std.specs.Prelude.{◌≡◌, ◌*◌, ◌+◌, All, IfOk, OnOk, vec_len};
ghost use Rattle.node_files.specs.Devices.{IsFound};

use crate::identity::other_store;
use crate::pulses::pulses;
use crate::survey::{Findings, no_memory, survey, unopened};
use files::{Access, Cause, FileDevice, HostFile, Pulse, Unopened, open_beside, sync_folder};
use refusal::Refusal;
use std::alloc::Global;
use std::sync::Arc;
use tuples::Shards;

/// In which folders a store is opened.
#[derive(Clone, Copy, Debug, PartialEq, Eq)]
pub enum Mode {
    /// One that has a store, or no file of one: then a store is made there.
    Serve,
    /// One that has a store.
    Existing,
    /// One that has a store, of which nothing is written: what is written to its devices is discarded.
    Look,
    /// One that has no file of a store: a store is made.
    New,
}

/// The devices of a store.
#[derive(Drop)]
pub struct Opened {
    /// Two for each node.
    pub devices: Vec<FileDevice<HostFile>>,
    /// What other threads see of the writes and syncs of their files, in the same order.
    pub pulses: Vec<Arc<Pulse, Global>>,
    /// Whether the store was made.
    pub is_new: bool,
    /// That the coordinator's files are of another store, if they say so. Opening the store is then refused with `Damaged`; this only says why.
    pub other: Option<Cause>,
}

// How the files of the folder are opened.
#[derive(Clone, Copy)]
struct Files<'a> {
    folder: &'a str,
    access: Access,
    // shared by all of them
    asking: &'a Arc<Pulse, Global>,
}

// A file that is missing while others have something was there once: all are made before any has two bytes.
fn open_file(
    rt: &HostRuntime,
    files: Files<'_>,
    name: &str,
) -> Result<FileDevice<HostFile>, Unopened>
    ensures { IfOk result (λ d. IsFound d.history.events d.is_stopped d.failures) }
{
    let Files {
        folder,
        access,
        asking,
    } = files;
    match open_beside(rt, rt.alloc(), folder, name, access, asking) {
        Err(
            Unopened {
                path,
                cause: Cause::IsMissing,
                ..
            },
        ) => Err(Unopened {
            refusal: Refusal::Damaged,
            path,
            cause: Cause::IsMissing,
        }),
        opened => opened,
    }
}

// Opens the file of a bank of a node, after the others.
fn open_next(
    rt: &HostRuntime,
    files: Files<'_>,
    node: &str,
    bank: char,
    devices: &mut Vec<FileDevice<HostFile>>,
) -> Result<(), Unopened>
    ensures count { OnOk result (vec_len devices.new ≡ vec_len devices.old + 1) }
    ensures found { All (λ d. IsFound d.history.events d.is_stopped d.failures) devices.old.items → OnOk result (All (λ d. IsFound d.history.events d.is_stopped d.failures) devices.new.items) }
{
    let Ok(name) = format!(in rt.alloc(); "{node}.{bank}") else {
        return Err(no_memory(rt));
    };
    if devices.reserve(1).is_err() {
        return Err(no_memory(rt));
    }
    match open_file(rt, files, name.as_str()) {
        Ok(device) => {
            devices.push_reserved(device);
            Ok(())
        }
        Err(unopened) => Err(unopened),
    }
}

// Opens the files of both banks of a node, after the others.
fn open_two(
    rt: &HostRuntime,
    files: Files<'_>,
    node: &str,
    devices: &mut Vec<FileDevice<HostFile>>,
) -> Result<(), Unopened>
    ensures count { OnOk result (vec_len devices.new ≡ vec_len devices.old + 2) }
    ensures found { All (λ d. IsFound d.history.events d.is_stopped d.failures) devices.old.items → OnOk result (All (λ d. IsFound d.history.events d.is_stopped d.failures) devices.new.items) }
{
    open_next(rt, files, node, 'a', devices)?;
    open_next(rt, files, node, 'b', devices)
}

// Opens the files of a shard, after the others.
fn open_shard(
    rt: &HostRuntime,
    files: Files<'_>,
    shard: u8,
    devices: &mut Vec<FileDevice<HostFile>>,
) -> Result<(), Unopened>
    ensures count { OnOk result (vec_len devices.new ≡ vec_len devices.old + 2) }
    ensures found { All (λ d. IsFound d.history.events d.is_stopped d.failures) devices.old.items → OnOk result (All (λ d. IsFound d.history.events d.is_stopped d.failures) devices.new.items) }
{
    match format!(in rt.alloc(); "{shard}") {
        Ok(node) => open_two(rt, files, node.as_str(), devices),
        Err(_) => Err(no_memory(rt)),
    }
}

// Opens the files of each node, if none was opened yet.
fn fill(
    rt: &HostRuntime,
    files: Files<'_>,
    shards: Shards,
    devices: &mut Vec<FileDevice<HostFile>>,
) -> Result<(), Unopened>
    requires { vec_len devices.old ≡ 0 }
    ensures count { OnOk result (vec_len devices.new ≡ 2 * (shards + 1)) }
    ensures found { All (λ d. IsFound d.history.events d.is_stopped d.failures) devices.old.items → OnOk result (All (λ d. IsFound d.history.events d.is_stopped d.failures) devices.new.items) }
{
    open_two(rt, files, "c", devices)?;
    for shard in 0..shards.count() {
        open_shard(rt, files, shard, devices)?;
    }
    Ok(())
}

// How to open the files of the folder, by what it has.
fn access_to(rt: &HostRuntime, folder: &str, mode: Mode) -> Result<Access, Unopened> {
    match (mode, survey(rt, folder)?) {
        (Mode::Serve, Findings::Nothing | Findings::Begun) => Ok(Access::Make),
        (Mode::New, Findings::Nothing) => Ok(Access::Make),
        (Mode::New, _) => Err(unopened(rt, Refusal::Damaged, folder, Cause::HasStore)),
        (Mode::Serve | Mode::Existing, Findings::Store) => Ok(Access::Write),
        (Mode::Look, Findings::Store) => Ok(Access::Look),
        _ => Err(unopened(rt, Refusal::Down, folder, Cause::HasNoStore)),
    }
}

// Makes the files' names durable, those of existing files too, since a start that was cut off may have made them; and the folder's own, if its parent can be
// looked at.
fn sync_names(rt: &HostRuntime, files: Files<'_>) -> Result<(), Unopened> {
    let folder = files.folder;
    if files.access == Access::Look {
        return Ok(());
    }
    if let Err(error) = sync_folder(rt, folder) {
        return Err(unopened(rt, Refusal::Down, folder, Cause::System(error)));
    }
    if files.access == Access::Make {
        let Ok(parent) = format!(in rt.alloc(); "{folder}/..") else {
            return Err(no_memory(rt));
        };
        // A parent that may not be read, or is on another file system, is nobody's fault here.
        let _ = sync_folder(rt, parent.as_str());
    }
    Ok(())
}

// Opens the files of each node, and makes their names durable.
fn open_named(
    rt: &HostRuntime,
    files: Files<'_>,
    shards: Shards,
    devices: &mut Vec<FileDevice<HostFile>>,
) -> Result<(), Unopened>
    requires { vec_len devices.old ≡ 0 }
    ensures count { OnOk result (vec_len devices.new ≡ 2 * (shards + 1)) }
    ensures found { All (λ d. IsFound d.history.events d.is_stopped d.failures) devices.old.items → OnOk result (All (λ d. IsFound d.history.events d.is_stopped d.failures) devices.new.items) }
{
    fill(rt, files, shards, devices)?;
    sync_names(rt, files)
}

// A file may be missing only because another number of shards was given.
fn explained(rt: &HostRuntime, folder: &str, other: Option<Cause>, why: Unopened) -> Unopened {
    match (why.cause, other) {
        (Cause::IsMissing, Some(other)) => unopened(rt, Refusal::Damaged, folder, other),
        _ => why,
    }
}

/// Opens, or makes, the two files of each node in the folder: `c.a` and `c.b` of the coordinator, and then those of each shard by rising number, as `0.a` and
/// `0.b`. Each is locked for as long as its device lives.
///
/// `Down` if the folder has no store and none is to be made, if it or a file can't be opened or made, is a link or not a plain file, is too long, or if
/// another process has it; `Damaged` if a file of a store that is there is missing, or if a folder for a new store has a file of one; `NoMemory` for its
/// bytes. Existing files are not changed, and nothing is made if it is `Damaged`.
pub fn open_all(
    rt: &HostRuntime,
    folder: &str,
    store: u64,
    shards: Shards,
    mode: Mode,
) -> Result<Opened, Unopened>
    ensures count { IfOk result (λ opened. vec_len opened.devices ≡ 2 * (shards + 1)) }
    ensures pulses { IfOk result (λ opened. vec_len opened.pulses ≡ 2 * (shards + 1)) }
    ensures found { IfOk result (λ opened. All (λ d. IsFound d.history.events d.is_stopped d.failures) opened.devices.items) }
{
    let access = access_to(rt, folder, mode)?;
    let Ok(asking) = Arc::new(rt.alloc(), Pulse::new()) else {
        return Err(no_memory(rt));
    };
    let files = Files {
        folder,
        access,
        asking: &asking,
    };
    let mut devices = Vec::new(rt.alloc());
    let opened = open_named(rt, files, shards, &mut devices);
    let other = other_store(rt.alloc(), &devices, store, shards);
    if let Err(why) = opened {
        return Err(explained(rt, folder, other, why));
    }
    match pulses(rt.alloc(), &devices) {
        Ok(pulses) => Ok(Opened {
            devices,
            pulses,
            is_new: access == Access::Make,
            other,
        }),
        Err(_) => Err(no_memory(rt)),
    }
}
