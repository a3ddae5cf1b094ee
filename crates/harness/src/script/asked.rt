// The words of the command line.
ghost use Rattle.std.specs.Prelude.{◌≤◌};
ghost use Rattle.tuples.specs.Limits.{max_shards};

use tuples::MAX_SHARDS;

/// The folder of a store, the store's id, and its number of shards.
#[derive(Clone, Copy)]
pub(crate) struct InFiles<'a> {
    pub(crate) folder: &'a str,
    pub(crate) store: u64,
    pub(crate) shards: u8,
    ghost some: { 1 ≤ shards },
    ghost few: { shards ≤ max_shards },
}

/// Which of the disks that are given fails, at which of its calls, and which byte is found then in what was written since its last sync.
#[derive(Clone, Copy)]
pub(crate) struct OneFails {
    pub(crate) disk: u64,
    pub(crate) call: u64,
    pub(crate) byte: u8,
}

/// Over which devices the script runs.
#[derive(Clone, Copy)]
pub(crate) enum Asked<'a> {
    Files(InFiles<'a>),
    Failing(OneFails),
}

impl<'a> Asked<'a> {
    /// What the words ask for: `files` with a folder, the id of a store and its number of shards, or `failing` with the number of a
    /// disk, from 0, the number of its call that fails, from 1, and the byte that is found then. None if they are other words.
    pub(crate) fn read(words: &[&'a str]) -> Option<Asked<'a>> {
        let [kind, first, second, third] = *words else {
            return None;
        };
        match kind {
            "files" => Some(Asked::Files(in_files(first, second, third)?)),
            "failing" => Some(Asked::Failing(one_fails(first, second, third)?)),
            _ => None,
        }
    }
}

fn in_files<'a>(folder: &'a str, store: &str, shards: &str) -> Option<InFiles<'a>> {
    let store = store.parse::<u32>().ok()?;
    let shards = shards.parse::<u8>().ok()?;
    if shards < 1 || shards > MAX_SHARDS {
        return None;
    }
    Some(InFiles {
        folder,
        store: u64::from(store),
        shards,
    })
}

fn one_fails(disk: &str, call: &str, byte: &str) -> Option<OneFails> {
    Some(OneFails {
        disk: disk.parse::<u64>().ok()?,
        call: call.parse::<u64>().ok()?,
        byte: byte.parse::<u8>().ok()?,
    })
}
