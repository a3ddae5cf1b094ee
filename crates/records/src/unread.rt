// Why bytes were not read.
ghost use Rattle.std.specs.Prelude.{◌≡◌};
ghost use Rattle.records.specs.declared.unread.Unread.TheVariants.{Damaged, NoMemory};

use std::alloc::{AllocError, AllocFailed};
use tuples::Refusal;

/// Why a reader gave no value.
#[derive(Clone, Copy, Debug, PartialEq, Eq)]
pub(crate) enum Unread {
    /// No such value is spelled at the front of the bytes.
    Damaged,
    /// Memory was refused, which says nothing about the bytes.
    NoMemory,
}

impl Unread {
    ghost use Rattle.records.specs.Giving.{refusal_of};

    /// What a caller of the crate gets.
    pub(crate) fn refusal(self) -> Refusal
        ensures { result ≡ refusal_of self }
    {
        match self {
            Unread::Damaged => Refusal::Damaged,
            Unread::NoMemory => Refusal::NoMemory,
        }
    }
}

impl From<AllocError> for Unread {
    ghost from_gives = { λ _ e. e ≡ NoMemory };

    fn from(_e: AllocError) -> Unread {
        Unread::NoMemory
    }
}

impl<T: Drop> From<AllocFailed<T>> for Unread {
    ghost from_gives = { λ _ e. e ≡ NoMemory };

    fn from(_e: AllocFailed<T>) -> Unread {
        Unread::NoMemory
    }
}
