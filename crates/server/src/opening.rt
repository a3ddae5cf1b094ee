// A store is opened over the files of a folder, and served.
ghost use Rattle.std.specs.Prelude.{◌≡◌, ◌⊎◌, ◌↔◌, ◌*◌, ◌+◌, List, [], All, vec_len};
ghost use Rattle.locked.specs.AtRest.{IsAtRest, found_coordinator};
ghost use Rattle.tuples.specs.declared.entry.Entry.{Entry as AnyEntry};

use crate::fault::{Fault, tell};
use crate::found::Found;
use crate::progress::Progress;
use crate::running::serve_store;
use crossbeam_utils::sync::Parker;
use device::Device;
use files::{FileDevice, HostFile, Pulse};
use locked::{Gate, Open, Parts, Store};
use node_files::{Mode, Trouble, open_all};
use refusal::Refusal;
use settings::ServeSettings;
use sides::Room;
use std::alloc::Global;
use std::marker::Brand;
use std::net::{Net, TcpListener, TcpStream};
use std::rt::Runtime;
use std::sync::{Arc, Wait};
use std::thread::{self, Threads};
use std::time::Instant;

/// Serves the store that the folder keeps, or a new one if its files are missing, to those who connect. The status: 0 once as many connections were
/// served as the settings ask for, and 1 after a fault, of which standard error is told:
///
/// | Line | Fault |
/// |---|---|
/// | `zanstore: 13 Down` | the folder or a file of it can't be opened, another process has it, or there is no store, and one has to be there |
/// | `zanstore: 16 Damaged` | what is in the files was not left there by this store |
/// | `zanstore: 14 NoMemory` | there is no memory for the store |
/// | `zanstore: listen` | the address can't be bound |
///
/// After a number a second line tells which file, folder or node it is about, if that is known. They are looked for in the order files, nodes (the coordinator, and then the shards by rising number), address; `ready` is printed after them.
///
/// What sessions answer is said of any list at which the files rest: no code has it, so this holds whichever it is.
pub fn serve<R>(rt: &R, files: &HostRuntime, settings: &ServeSettings) -> u8
where
    R: Runtime + Net<Listener = TcpListener, Stream = TcpStream> + Threads + Wait + Sync,
    ghost first: { List AnyEntry }
    ensures { (result ≡ 0) ⊎ (result ≡ 1) }
{
    match Parts::new(files.alloc()) {
        Ok((parker, parts)) => serve_files(rt, files, settings, parker, parts),
        Err(_) => tell(rt, &Fault::Refused(Trouble::from(Refusal::NoMemory))),
    }
}

fn serve_files<R>(
    rt: &R,
    files: &HostRuntime,
    settings: &ServeSettings,
    parker: Parker,
    parts: Parts,
) -> u8
where
    R: Runtime + Net<Listener = TcpListener, Stream = TcpStream> + Threads + Wait + Sync,
    ghost first: { List AnyEntry }
    requires own { parts.log.table ≡ parts.words }
    requires empty { (parts.log.seen ≡ []) × (parts.log.horizon ≡ 0) }
    ensures { (result ≡ 0) ⊎ (result ≡ 1) }
{
    let mode = if settings.existing {
        Mode::Existing
    } else {
        Mode::Serve
    };
    let (dir, store, shards) = (settings.dir.as_str(), settings.store, settings.shards);
    match open_all(files, dir, store, shards, mode) {
        Ok(opened) => serve_over::<FileDevice<HostFile>, Brand, Open, R>(
            rt,
            files.alloc(),
            settings,
            Found::of(&opened),
            opened.pulses,
            Open,
            parker,
            parts,
            opened.devices,
        ),
        Err(unopened) => tell(rt, &Fault::Refused(Trouble::from(unopened))),
    }
}

/// Opens the store over its devices, in which this was found, and serves it as `serve` does. The pulses, two for each
/// node, tell whether a disk hangs. If the devices rest at the room's first list, all that sessions answer is said of that
/// list and of what joins it; no other premise is taken. Of a list at which they rest the coordinator's devices have what comes after its base, which is the
/// whole of it before its first checkpoint.
pub fn serve_over<D: Device + Send + Sync, B: Room + Send + Sync, G: Gate + Sync, R>(
    rt: &R,
    alloc: Global,
    settings: &ServeSettings,
    found: Found,
    pulses: Vec<Arc<Pulse, Global>>,
    gate: G,
    parker: Parker,
    parts: Parts,
    devices: Vec<D>,
) -> u8
where
    R: Runtime + Net<Listener = TcpListener, Stream = TcpStream> + Threads + Wait + Sync,
    requires own { (parts.words ≡ B.log) × (parts.log.table ≡ B.log) × (parts.attempts ≡ B.attempts) × (parts.launches ≡ B.launches) }
    requires empty { (parts.log.seen ≡ []) × (parts.log.horizon ≡ 0) }
    requires of { (B.store ≡ settings.now.store) × (B.shards ≡ settings.now.shards) }
    requires count { vec_len devices ≡ 2 * (settings.now.shards + 1) }
    requires honest { All D.honest devices.items }
    requires low { B.low ≡ (found_coordinator D.state devices.items).horizon }
    requires rests { B.rests ↔ IsAtRest D.state D.honest B.shards B.first devices.items }
    ensures { (result ≡ 0) ⊎ (result ≡ 1) }
{
    let progress = Progress::new();
    let (progress, found) = (&progress, &found);
    thread::scope(
        thread::scope_env(),
        rt,
        move |scope| -> u8
            requires own { (parts.words ≡ B.log) × (parts.log.table ≡ B.log) × (parts.attempts ≡ B.attempts) × (parts.launches ≡ B.launches) }
            requires empty { (parts.log.seen ≡ []) × (parts.log.horizon ≡ 0) }
            requires of { (B.store ≡ settings.now.store) × (B.shards ≡ settings.now.shards) }
            requires count { vec_len devices ≡ 2 * (settings.now.shards + 1) }
            requires honest { All D.honest devices.items }
            requires low { B.low ≡ (found_coordinator D.state devices.items).horizon }
            requires rests { B.rests ↔ IsAtRest D.state D.honest B.shards B.first devices.items }
            ensures { (result ≡ 0) ⊎ (result ≡ 1) }
        {
            // If there is no thread for it, nobody is told how long the opening takes.
            let _ = scope.spawn(move || progress.tell(rt, settings.dir.as_str(), "being opened"));
            let status = open_and_serve::<D, B, G, R>(
                rt, alloc, settings, progress, found, pulses, gate, parker, parts, devices,
            );
            progress.end();
            status
        },
    )
}

// The same, while another thread tells how long the opening takes.
fn open_and_serve<D: Device + Send + Sync, B: Room + Send + Sync, G: Gate + Sync, R>(
    rt: &R,
    alloc: Global,
    settings: &ServeSettings,
    progress: &Progress,
    found: &Found,
    pulses: Vec<Arc<Pulse, Global>>,
    gate: G,
    parker: Parker,
    parts: Parts,
    devices: Vec<D>,
) -> u8
where
    R: Runtime + Net<Listener = TcpListener, Stream = TcpStream> + Threads + Wait + Sync,
    requires own { (parts.words ≡ B.log) × (parts.log.table ≡ B.log) × (parts.attempts ≡ B.attempts) × (parts.launches ≡ B.launches) }
    requires empty { (parts.log.seen ≡ []) × (parts.log.horizon ≡ 0) }
    requires of { (B.store ≡ settings.now.store) × (B.shards ≡ settings.now.shards) }
    requires count { vec_len devices ≡ 2 * (settings.now.shards + 1) }
    requires honest { All D.honest devices.items }
    requires low { B.low ≡ (found_coordinator D.state devices.items).horizon }
    requires rests { B.rests ↔ IsAtRest D.state D.honest B.shards B.first devices.items }
    ensures { (result ≡ 0) ⊎ (result ≡ 1) }
{
    let began = Instant::now(rt).ok();
    match Store::<D, B, G>::open(
        rt,
        alloc,
        gate,
        parts,
        devices,
        settings.store,
        settings.shards,
    ) {
        Ok((store, mut first)) => serve_store(
            rt, alloc, &store, &mut first, parker, settings, progress, found, pulses, began,
        ),
        Err(refusal) => {
            let dir = settings.dir.as_str();
            tell(rt, &Fault::Refused(found.trouble(alloc, dir, refusal)))
        }
    }
}
