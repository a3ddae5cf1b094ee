// What a folder has of a store before any file of it is opened.
use crate::identity::OPEN;
use files::{Cause, Unopened};
use refusal::Refusal;
use std::fs::{self, File};
use std::io::{self, ErrorKind};
use std::os::unix::fs::FileExt;
use tuples::MAX_SHARDS;

/// What a folder has of a store.
#[derive(Clone, Copy, Debug, PartialEq, Eq)]
pub(crate) enum Findings {
    /// No file of a store.
    Nothing,
    /// Files in which nothing is kept, as a start or a resharding that was cut off leaves them: no first gate is open, whatever follows it.
    Begun,
    /// A store.
    Store,
}

impl Findings {
    // The one that says more.
    fn or(self, other: Findings) -> Findings {
        match (self, other) {
            (Findings::Store, _) | (_, Findings::Store) => Findings::Store,
            (Findings::Begun, _) | (_, Findings::Begun) => Findings::Begun,
            _ => Findings::Nothing,
        }
    }
}

pub(crate) fn no_memory(rt: &HostRuntime) -> Unopened {
    Unopened {
        refusal: Refusal::NoMemory,
        path: String::new(rt.alloc()),
        cause: Cause::NoMemory,
    }
}

/// The folder, or a file of it, is unavailable.
pub(crate) fn unopened(rt: &HostRuntime, refusal: Refusal, path: &str, cause: Cause) -> Unopened {
    match String::from_str(rt.alloc(), path) {
        Ok(path) => Unopened {
            refusal,
            path,
            cause,
        },
        Err(_) => no_memory(rt),
    }
}

// Whether a file of two bytes or more begins with an open gate.
fn is_kept_in(rt: &HostRuntime, path: &str) -> io::Result<bool> {
    let mut gate = [0];
    File::open(rt, path)?.read_exact_at(&mut gate, 0)?;
    Ok(gate == [OPEN])
}

fn survey_path(rt: &HostRuntime, path: &str) -> Result<Findings, Unopened> {
    match fs::symlink_metadata(rt, path) {
        // If a file can't be read, its opening says why.
        Ok(found) if found.is_file() && found.len() >= 2 && is_kept_in(rt, path).unwrap_or(true) =>
            { Ok(Findings::Store) }
        Ok(_) => Ok(Findings::Begun),
        Err(error) if error.kind() == ErrorKind::NotFound => Ok(Findings::Nothing),
        Err(error) => Err(unopened(rt, Refusal::Down, path, Cause::System(error))),
    }
}

fn survey_file(
    rt: &HostRuntime,
    folder: &str,
    node: &str,
    bank: char,
) -> Result<Findings, Unopened> {
    match format!(in rt.alloc(); "{folder}/{node}.{bank}") {
        Ok(path) => survey_path(rt, path.as_str()),
        Err(_) => Err(no_memory(rt)),
    }
}

fn survey_node(rt: &HostRuntime, folder: &str, node: &str) -> Result<Findings, Unopened> {
    let a = survey_file(rt, folder, node, 'a')?;
    let b = survey_file(rt, folder, node, 'b')?;
    Ok(a.or(b))
}

fn survey_shard(rt: &HostRuntime, folder: &str, shard: u8) -> Result<Findings, Unopened> {
    match format!(in rt.alloc(); "{shard}") {
        Ok(node) => survey_node(rt, folder, node.as_str()),
        Err(_) => Err(no_memory(rt)),
    }
}

/// What the folder has of a store of any number of shards. `Down` if it is not a folder, or can't be looked at.
pub(crate) fn survey(rt: &HostRuntime, folder: &str) -> Result<Findings, Unopened> {
    match fs::metadata(rt, folder) {
        Ok(found) if found.is_dir() => {}
        Ok(_) => return Err(unopened(rt, Refusal::Down, folder, Cause::IsNoFolder)),
        Err(error) => return Err(unopened(rt, Refusal::Down, folder, Cause::System(error))),
    }
    let mut found = survey_node(rt, folder, "c")?;
    for shard in 0..MAX_SHARDS {
        if found == Findings::Store {
            return Ok(found);
        }
        found = found.or(survey_shard(rt, folder, shard)?);
    }
    Ok(found)
}
