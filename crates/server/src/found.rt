// What was found in the files of a store, before it is opened over them.
use files::{Cause, FileDevice, HostFile};
use names::NodeName;
use node_files::{Opened, Trouble};
use refusal::Refusal;
use std::alloc::Global;

/// What was found in the files of a store.
#[derive(Clone, Copy)]
pub struct Found {
    /// How many bytes.
    pub bytes: u64,
    /// Whether the store was made.
    pub is_new: bool,
    /// That the coordinator's files are of another store, if they tell so.
    pub other: Option<Cause>,
}

impl Found {
    /// Nothing was written to its devices yet.
    pub(crate) fn of(opened: &Opened) -> Found {
        Found {
            bytes: bytes_of(&opened.devices),
            is_new: opened.is_new,
            other: opened.other,
        }
    }

    /// Why the coordinator of the store of this folder is refused.
    pub(crate) fn trouble(&self, alloc: Global, folder: &str, refusal: Refusal) -> Trouble {
        match self.other {
            Some(cause) => Trouble::of_folder(alloc, folder, refusal, cause),
            None => Trouble::of_node(refusal, NodeName::Coordinator),
        }
    }
}

fn bytes_of(devices: &[FileDevice<HostFile>]) -> u64 {
    let mut bytes = 0u64;
    for device in devices {
        bytes = bytes.saturating_add(device.found().len() as u64);
    }
    bytes
}
