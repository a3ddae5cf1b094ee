// A dump of a store that a folder keeps.
ghost use Rattle.std.specs.Prelude.{◌≡◌, ◌≤◌, ◌⊎◌, ◌+◌, ◌*◌, All, OnOk, vec_len};
ghost use Rattle.dumping.specs.Folders.{DumpsFiles};
ghost use Rattle.node_files.specs.Devices.{IsFound};

use crate::over_devices::{Fault, dump_over};
use files::{FileDevice, HostFile};
use node_files::{Mode, Trouble, open_all};
use reshard::blamed;
use std::io;
use tuples::Shards;

// The status of a dump that was not written, or not to its end.
const FAILED: u8 = 1;

/// Writes all tuples of the store that the folder keeps to standard output, at the place, or at the latest, and says on standard error why it did not:
/// `zanstore: 13 Down` if a file can't be opened, or another process has it, otherwise the refusal of a node or of the place, with a second line on what
/// that is about if it is known; or `zanstore: output`. The status is 0 or 1.
///
/// Nothing is written to the files, and none is made.
pub fn dump_folder(
    rt: &HostRuntime,
    folder: &str,
    store: u64,
    shards: Shards,
    at: Option<u64>,
) -> u8
    ensures status { (result ≡ 0) ⊎ (result ≡ 1) }
    ensures dumped { result ≡ 0 → DumpsFiles store shards at }
{
    match write_folder(rt, folder, store, shards, at) {
        Ok(()) => 0,
        Err(failure) => tell(rt, &failure),
    }
}

// Why a folder was not dumped, or not to the end.
#[derive(Drop)]
enum Failure {
    Refused(Trouble),
    Unwritten,
}

// No clause can say that the devices are over files of this folder.
fn write_folder(
    rt: &HostRuntime,
    folder: &str,
    store: u64,
    shards: Shards,
    at: Option<u64>,
) -> Result<(), Failure>
    ensures { OnOk result (DumpsFiles store shards at) }
{
    match open_all(rt, folder, store, shards, Mode::Look) {
        Ok(opened) => write_devices(rt, folder, store, shards, at, opened.devices),
        Err(unopened) => Err(Failure::Refused(Trouble::from(unopened))),
    }
}

// No clause can say that the writer is the standard output.
fn write_devices(
    rt: &HostRuntime,
    folder: &str,
    store: u64,
    shards: Shards,
    at: Option<u64>,
    devices: Vec<FileDevice<HostFile>>,
) -> Result<(), Failure>
    requires count { vec_len devices ≡ 2 * (shards + 1) }
    requires found { All (λ d. IsFound d.history.events d.is_stopped d.failures) devices.items }
    ensures { OnOk result (DumpsFiles store shards at) }
{
    let mut writer = io::writer(rt);
    match dump_over(rt.alloc(), store, shards, at, devices, &mut writer) {
        Ok(()) => Ok(()),
        Err(Fault::Unwritten) => Err(Failure::Unwritten),
        Err(Fault::Refused(refusal)) => {
            let trouble = blamed(rt, folder, store, shards, refusal);
            Err(Failure::Refused(trouble))
        }
    }
}

fn tell(rt: &HostRuntime, failure: &Failure) -> u8
    ensures { result ≡ 1 }
{
    // A text that can't be printed does not change the status.
    let _ = match failure {
        Failure::Refused(trouble) => eprintln!(rt; "{trouble}"),
        Failure::Unwritten => eprintln!(rt; "zanstore: output"),
    };
    FAILED
}
