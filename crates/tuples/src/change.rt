// Changes and conditions, and lists of them.
ghost use Rattle.std.specs.Prelude.{◌≡◌};

use crate::Tuple;
use std::alloc::{AllocError, Global};
use std::marker::Model;

/// What a write does to a tuple: after `Touch` it is there, after `Delete` it is not.
#[derive(Clone, Drop, PartialEq, Eq)]
pub enum Change {
    Touch(Tuple),
    Delete(Tuple),
}

/// What a condition asks of its tuple.
#[derive(Clone, Copy, Debug, PartialEq, Eq)]
pub enum Want {
    /// Not changed after this place (the lock tuple of Zanzibar, USENIX ATC 2019, section 2.4.2).
    NotAfter(u64),
    /// It is there.
    Exists,
    /// It is not there.
    Absent,
}

/// What has to hold of a tuple just before a write.
#[derive(Clone, Drop, PartialEq, Eq)]
pub struct Condition {
    pub tuple: Tuple,
    pub want: Want,
}

/// Changes in their order, which contracts see as their list.
#[derive(Drop)]
pub struct Changes {
    items: Vec<Change>,
}

impl Model for Changes {
    ghost use Rattle.std.specs.Prelude.{List};
    ghost use Rattle.tuples.specs.declared.change.Change.{Change};

    ghost Value = { List Change };

    ghost view = { λ a. a.items.items };
}

impl Clone for Changes {
    ghost is_clone = { λ old new. new ≡ old };

    fn clone(&self) -> Result<Changes, AllocError> {
        Ok(Changes {
            items: self.items.clone()?,
        })
    }
}

impl Changes {
    /// These changes, which takes no memory.
    pub fn from_vec(items: Vec<Change>) -> Self
        ensures { result ≡ items.items }
    {
        Changes { items }
    }

    /// Their vector, which takes no memory.
    pub fn into_vec(self) -> Vec<Change>
        ensures { result.items ≡ self }
    {
        self.items
    }

    pub fn as_slice(&self) -> &[Change]
        ensures { result.now ≡ self.now }
    {
        &self.items
    }
}

/// Conditions in their order, which contracts see as their list.
#[derive(Drop)]
pub struct Conditions {
    items: Vec<Condition>,
}

impl Model for Conditions {
    ghost use Rattle.std.specs.Prelude.{List};
    ghost use Rattle.tuples.specs.declared.change.Condition.{Condition};

    ghost Value = { List Condition };

    ghost view = { λ a. a.items.items };
}

impl Clone for Conditions {
    ghost is_clone = { λ old new. new ≡ old };

    fn clone(&self) -> Result<Conditions, AllocError> {
        Ok(Conditions {
            items: self.items.clone()?,
        })
    }
}

impl Conditions {
    /// These conditions, which takes no memory.
    pub fn from_vec(items: Vec<Condition>) -> Self
        ensures { result ≡ items.items }
    {
        Conditions { items }
    }

    /// Their vector, which takes no memory.
    pub fn into_vec(self) -> Vec<Condition>
        ensures { result.items ≡ self }
    {
        self.items
    }

    pub fn as_slice(&self) -> &[Condition]
        ensures { result.now ≡ self.now }
    {
        &self.items
    }
}
