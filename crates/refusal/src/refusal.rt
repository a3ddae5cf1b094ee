// Why a call was refused.
ghost use Rattle.std.specs.Prelude.{◌≡◌, Some};
ghost use Rattle.refusal.specs.Refusals.{name_of, number_of, refusal_text};
ghost use Rattle.refusal.specs.declared.refusal.Refusal.TheVariants.{NoMemory};

use std::alloc::AllocError;
use std::error::Error;
use std::fmt;

/// Why a call was refused. Each call says which of these it gives, and what it leaves: after any but `Down` the node is as it
/// was before the call, though a value that was handed in may be spent. What a client does about each stands in `docs/API.md`.
#[derive(Clone, Copy, Debug, PartialEq, Eq)]
pub enum Refusal {
    /// The line or request is not in its grammar, or a write has no change.
    BadRequest,
    /// A text is no tuple, no tupleset or no name.
    BadTuple,
    /// More changes, conditions, tuplesets, namespaces or bytes than a limit allows.
    TooLarge,
    /// Two changes, or two conditions, of one write name the same tuple.
    Repeated,
    /// The text is no zookie.
    BadZookie,
    /// The zookie is that of another store.
    WrongStore,
    /// A place above the end of the log.
    Future,
    /// A place below the horizon.
    Collected,
    /// A condition of the write is not met.
    Precondition,
    /// A write in doubt holds one of the tuples.
    Busy,
    /// The coordinator or a participant was opened again since the write began.
    Aborted,
    /// The coordinator failed or was opened again after the decision: the write stands or not, whole in either case.
    Unsure,
    /// A device of the node failed, or had no room for a batch more, and the node was not opened again since. What the failed call
    /// was to write stands whole or not at all.
    Down,
    /// Memory was refused.
    NoMemory,
    /// A limit is met: open writes, flows, the bytes or records of a batch, usersets of a check, numbers.
    Full,
    /// What lies on the devices was not left there by this node of this store.
    Damaged,
}

impl Refusal {
    /// Its number, from 1 to 16.
    pub fn number(self) -> u8
        ensures { result ≡ number_of self }
    {
        match self {
            Refusal::BadRequest => 1,
            Refusal::BadTuple => 2,
            Refusal::TooLarge => 3,
            Refusal::Repeated => 4,
            Refusal::BadZookie => 5,
            Refusal::WrongStore => 6,
            Refusal::Future => 7,
            Refusal::Collected => 8,
            Refusal::Precondition => 9,
            Refusal::Busy => 10,
            Refusal::Aborted => 11,
            Refusal::Unsure => 12,
            Refusal::Down => 13,
            Refusal::NoMemory => 14,
            Refusal::Full => 15,
            Refusal::Damaged => 16,
        }
    }

    /// Its name, as it is printed.
    pub fn name(self) -> &'static str
        ensures { result.now ≡ name_of self }
    {
        match self {
            Refusal::BadRequest => "BadRequest",
            Refusal::BadTuple => "BadTuple",
            Refusal::TooLarge => "TooLarge",
            Refusal::Repeated => "Repeated",
            Refusal::BadZookie => "BadZookie",
            Refusal::WrongStore => "WrongStore",
            Refusal::Future => "Future",
            Refusal::Collected => "Collected",
            Refusal::Precondition => "Precondition",
            Refusal::Busy => "Busy",
            Refusal::Aborted => "Aborted",
            Refusal::Unsure => "Unsure",
            Refusal::Down => "Down",
            Refusal::NoMemory => "NoMemory",
            Refusal::Full => "Full",
            Refusal::Damaged => "Damaged",
        }
    }
}

/// The number and the name, as `13 Down`.
impl fmt::Display for Refusal {
    ghost output = { λ r. Some (refusal_text r) };

    fn fmt<W: fmt::Write>(&self, f: &mut fmt::Formatter<W>) -> fmt::Result {
        let number = self.number();
        let name = self.name();
        write!(f, "{number} {name}")
    }
}

impl Error for Refusal {}

impl From<AllocError> for Refusal {
    ghost from_gives = { λ _ r. r ≡ NoMemory };

    fn from(_error: AllocError) -> Refusal {
        Refusal::NoMemory
    }
}
