// Why a call ends before its last request.
use serde_json::Error;
use std::alloc::AllocError;
use std::io::ErrorKind;
use std::{fmt, io};

/// Why a call ends before its last request.
#[derive(Debug, Drop)]
pub enum Fault {
    /// The connection could not be made.
    Connect(io::Error),
    /// The connection was not made in the time that was given.
    Unreached,
    /// The connection failed or ended before an answer.
    Gone(io::Error),
    /// No answer came in the time that was given.
    Late,
    /// The answer is no JSON.
    Answer(Error),
    /// The answer is none to such a request, and no refusal.
    Stranger,
    /// `--follow` stands before a request that is no watch.
    Follow,
    /// `--reconnect` stands without `--follow` and a watch.
    Reconnect,
    /// `--status` stands before a request that is no check.
    Status,
    /// Standard input could not be read.
    Input(io::Error),
    /// Standard output could not be written.
    Output(io::Error),
    NoMemory,
}

impl Fault {
    /// What the error of a connection means: if a read or a write would have waited longer than it may, it is late.
    pub(crate) fn of_connection(error: io::Error) -> Fault {
        if error.kind() == ErrorKind::WouldBlock {
            Fault::Late
        } else {
            Fault::Gone(error)
        }
    }

    /// What the error of a connection that was not made means, if it was waited for so many seconds at most.
    pub(crate) fn of_connecting(error: io::Error, timeout: Option<u64>) -> Fault {
        if timeout.is_some() && error.kind() == ErrorKind::TimedOut {
            Fault::Unreached
        } else {
            Fault::Connect(error)
        }
    }

    /// Whether it is that the connection was not made.
    pub(crate) fn is_of_connecting(&self) -> bool {
        matches!(self, Fault::Connect(_) | Fault::Unreached)
    }

    /// Whether a new connection may mend it.
    pub(crate) fn is_of_a_connection(&self) -> bool {
        self.is_of_connecting() || matches!(self, Fault::Gone(_) | Fault::Late)
    }

    /// Whether it is that the command line can't be carried out.
    pub(crate) fn is_of_usage(&self) -> bool {
        matches!(self, Fault::Follow | Fault::Reconnect | Fault::Status)
    }
}

impl fmt::Display for Fault {
    fn fmt<W: fmt::Write>(&self, f: &mut fmt::Formatter<W>) -> fmt::Result {
        match self {
            Fault::Connect(error) => write!(f, "no connection: {error}"),
            Fault::Unreached => write!(f, "no connection within the --timeout"),
            Fault::Gone(error) => write!(f, "the connection ended before an answer: {error}"),
            Fault::Late => write!(f, "no answer within the --timeout"),
            Fault::Answer(error) => write!(f, "an answer can't be read: {error}"),
            Fault::Stranger => write!(f, "an answer can't be read: it is none to such a request"),
            Fault::Follow => write!(f, "--follow stands before a watch, and this is none"),
            Fault::Reconnect => { write!(f, "--reconnect stands with --follow, before a watch") }
            Fault::Status => write!(f, "--status stands before a check, and this is none"),
            Fault::Input(error) => write!(f, "the input can't be read: {error}"),
            Fault::Output(error) => write!(f, "the output can't be written: {error}"),
            Fault::NoMemory => write!(f, "no memory"),
        }
    }
}

impl From<AllocError> for Fault {
    fn from(_error: AllocError) -> Fault {
        Fault::NoMemory
    }
}

impl From<Error> for Fault {
    fn from(error: Error) -> Fault {
        if error.is_memory() {
            Fault::NoMemory
        } else {
            Fault::Answer(error)
        }
    }
}
