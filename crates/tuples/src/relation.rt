// The name of a relation.
ghost use Rattle.std.specs.Prelude.{◌≡◌, ◌<◌, length, IfOk, IsErrOf};
ghost use Rattle.tuples.specs.Names.{IsName};
ghost use Rattle.tuples.specs.Parsing.{Parses, own_text};
ghost use Rattle.tuples.specs.Short.{max_short};

use crate::Refusal;
use crate::grammar::is_name;
use crate::name::Name;
use std::alloc::{AllocError, Global};
use std::marker::Model;

/// The name of a relation: 1 to 64 bytes of `a-z`, `0-9` and `_`.
#[derive(Clone, Drop, PartialEq, Eq, PartialOrd, Ord)]
pub struct Relation {
    name: Name,
}

impl Model for Relation {
    ghost use Rattle.std.specs.Prelude.{List, ℕ};
    ghost use Rattle.tuples.specs.Names.{IsName};

    ghost Value = { List ℕ };

    ghost view = { λ a. a.name };

    ghost invariant = { λ a. IsName a.name };

    ghost inverse = { λ n. record { name = n } };
}

impl Relation {
    /// A relation of these bytes; `BadTuple` if they are none, and never `NoMemory` if they are at most 30.
    pub fn parse(alloc: Global, bytes: &[u8]) -> Result<Self, Refusal>
        ensures value { Parses IsName own_text bytes.now result }
        ensures memory { IsErrOf result Refusal.NoMemory → max_short < length bytes.now }
    {
        if !is_name(bytes) {
            return Err(Refusal::BadTuple);
        }
        Ok(Self {
            name: Name::from_slice(alloc, bytes)?,
        })
    }

    // A relation of these bytes, which are one.
    pub(crate) fn of(alloc: Global, bytes: &[u8]) -> Result<Self, AllocError>
        requires { IsName bytes.now }
        ensures { IfOk result (λ a. a ≡ bytes.now) }
    {
        Ok(Self {
            name: Name::from_slice(alloc, bytes)?,
        })
    }

    pub fn as_bytes(&self) -> &[u8]
        ensures value { result.now ≡ self.now }
        ensures grammar { IsName self.now }
    {
        self.name.as_bytes()
    }
}
