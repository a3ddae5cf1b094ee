// The id of an object or of a user.
ghost use Rattle.std.specs.Prelude.{◌≡◌, ◌<◌, length, IfOk, IsErrOf};
ghost use Rattle.tuples.specs.Names.{IsId};
ghost use Rattle.tuples.specs.Parsing.{Parses, own_text};
ghost use Rattle.tuples.specs.Short.{max_short};

use crate::Refusal;
use crate::grammar::is_id;
use crate::name::Name;
use std::alloc::{AllocError, Global};
use std::marker::Model;

/// The id of an object or of a user: 1 to 128 printable ASCII bytes other than `#`, `+`, `:` and `@`.
#[derive(Clone, Drop, PartialEq, Eq, PartialOrd, Ord)]
pub struct Id {
    name: Name,
}

impl Model for Id {
    ghost use Rattle.std.specs.Prelude.{List, ℕ};
    ghost use Rattle.tuples.specs.Names.{IsId};

    ghost Value = { List ℕ };

    ghost view = { λ a. a.name };

    ghost invariant = { λ a. IsId a.name };

    ghost inverse = { λ n. record { name = n } };
}

impl Id {
    /// An id of these bytes; `BadTuple` if they are none, and never `NoMemory` if they are at most 30.
    pub fn parse(alloc: Global, bytes: &[u8]) -> Result<Self, Refusal>
        ensures value { Parses IsId own_text bytes.now result }
        ensures memory { IsErrOf result Refusal.NoMemory → max_short < length bytes.now }
    {
        if !is_id(bytes) {
            return Err(Refusal::BadTuple);
        }
        Ok(Self {
            name: Name::from_slice(alloc, bytes)?,
        })
    }

    // An id of these bytes, which are one. A short one takes no memory.
    pub(crate) fn of(alloc: Global, bytes: &[u8]) -> Result<Self, AllocError>
        requires { IsId bytes.now }
        ensures { IfOk result (λ a. a ≡ bytes.now) }
    {
        Ok(Self {
            name: Name::from_slice(alloc, bytes)?,
        })
    }

    pub fn as_bytes(&self) -> &[u8]
        ensures value { result.now ≡ self.now }
        ensures grammar { IsId self.now }
    {
        self.name.as_bytes()
    }
}
