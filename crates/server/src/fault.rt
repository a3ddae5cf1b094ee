// Why a server does not start, or ends.
ghost use Rattle.std.specs.Prelude.{◌≡◌};

use node_files::Trouble;
use std::{fmt, io};

/// Why a server does not start, or ends before its last connection.
#[derive(Debug, Drop)]
pub(crate) enum Fault {
    /// A file or a node is refused, or there is no memory.
    Refused(Trouble),
    /// The address can't be bound.
    Listen(io::Error),
    /// It could not go on to accept connections.
    Ended(io::Error),
}

impl fmt::Display for Fault {
    fn fmt<W: fmt::Write>(&self, f: &mut fmt::Formatter<W>) -> fmt::Result {
        match self {
            Fault::Refused(trouble) => write!(f, "{trouble}"),
            Fault::Listen(_) => write!(f, "zanstore: listen"),
            Fault::Ended(error) => write!(f, "zanstore: {error}"),
        }
    }
}

/// The status of a server that a fault ended.
pub(crate) const FAILED: u8 = 1;

/// The fault on standard error, and the status to end with.
pub(crate) fn tell(rt: &impl Eprint, fault: &Fault) -> u8
    ensures { result ≡ 1 }
{
    // A text that can't be printed changes nothing of the status.
    let _ = eprintln!(rt; "{fault}");
    FAILED
}
