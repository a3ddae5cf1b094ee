// Why a file is unavailable, as it is printed.
use refusal::Refusal;
use std::{fmt, io, str};

/// Why a file or a folder of a store is unavailable. Its text is what is printed after the path.
#[derive(Clone, Copy, Debug)]
pub enum Cause {
    /// A call of the system failed.
    System(io::Error),
    /// Another process has it open, or another device of this one.
    InUse,
    /// It is a link.
    IsLink,
    /// It is a folder, a pipe or anything else but a plain file.
    IsNoFile,
    /// It has more bytes than a device may have.
    IsTooLong,
    /// Its name was given to another file while it was opened.
    IsReplaced,
    /// It is not there, and may not be made.
    IsMissing,
    /// Its content can't be read, or is not durable.
    IsUnread,
    /// It is not a folder.
    IsNoFolder,
    /// The folder has no store.
    HasNoStore,
    /// The folder, which was to have no store, has a file of one.
    HasStore,
    /// The folder has the store of this id, with this many shards.
    IsOfStore(u64, u8),
    /// There is no memory for its path or its bytes.
    NoMemory,
}

impl fmt::Display for Cause {
    fn fmt<W: fmt::Write>(&self, f: &mut fmt::Formatter<W>) -> fmt::Result {
        match self {
            Cause::System(error) => write_error(error, f),
            Cause::InUse => write!(f, "is in use by another process"),
            Cause::IsLink => write!(f, "is a link"),
            Cause::IsNoFile => write!(f, "is no plain file"),
            Cause::IsTooLong => write!(f, "is longer than 1 TiB"),
            Cause::IsReplaced => write!(f, "was replaced while it was opened"),
            Cause::IsMissing => write!(f, "is missing"),
            Cause::IsUnread => write!(f, "can't be read"),
            Cause::IsNoFolder => write!(f, "is no folder"),
            Cause::HasNoStore => write!(f, "has no store"),
            Cause::HasStore => write!(f, "has a file of a store already"),
            Cause::IsOfStore(store, shards) => write!(
                f,
                "is of store {store} with {shards} shards"
            ),
            Cause::NoMemory => write!(f, "out of memory"),
        }
    }
}

// The system's text of the error, without its number.
fn write_error<W: fmt::Write>(error: &io::Error, f: &mut fmt::Formatter<W>) -> fmt::Result {
    let Some(code) = error.raw_os_error() else {
        return write!(f, "{error}");
    };
    let mut text = [0; 128];
    let len = os::error_text(code, &mut text);
    match str::from_utf8(&text[..len]) {
        Ok(text) => write!(f, "{text}"),
        Err(_) => write!(f, "{error}"),
    }
}

impl From<io::Error> for Cause {
    fn from(error: io::Error) -> Cause {
        Cause::System(error)
    }
}

/// A file or a folder that is unavailable: with which refusal a command ends for it, and why. Its text is its path with the cause.
#[derive(Debug, Drop)]
pub struct Unopened {
    pub refusal: Refusal,
    /// Empty if there was no memory for it.
    pub path: String,
    pub cause: Cause,
}

impl fmt::Display for Unopened {
    fn fmt<W: fmt::Write>(&self, f: &mut fmt::Formatter<W>) -> fmt::Result {
        let (path, cause) = (self.path.as_str(), &self.cause);
        match cause {
            Cause::IsOfStore(_, _) => write!(f, "{path} {cause}"),
            _ => write!(f, "{path}: {cause}"),
        }
    }
}

impl From<Unopened> for Refusal {
    fn from(unopened: Unopened) -> Refusal {
        unopened.refusal
    }
}
