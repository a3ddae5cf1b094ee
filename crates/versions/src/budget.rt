// How many bytes the tuples of an answer may take.
ghost use Rattle.std.specs.Prelude.{◌≡◌, ◌≤◌, ◌<◌, ◌+◌, ◌-◌, ◌^◌, ◌↔◌, IsTrue, IfOk, OnOk, OnErr};
ghost use Rattle.versions.specs.Budget.{named_len, user_len, weight};

use std::alloc::{AllocError, Global};
use std::marker::Model;
use tuples::{Object, Packed, Relation, Tuple, User};

// A tuple takes 200 bytes. The list in which it lies has up to twice as many for it, and as it grows the old one beside the new.
const TUPLE: u64 = 640;

// Each byte of a name may lie in a chunk of its own and in the text of the answer, and that grows as a list does.
const TIMES: u64 = 4;

/// How many bytes copies of tuples may take yet, which contracts see as a number: all that are made for one request. What a tuple counts for is no less than
/// what it takes of memory until the text of the answer is written, that text with it.
#[derive(Drop)]
pub struct Budget {
    left: u64,
}

impl Model for Budget {
    ghost use Rattle.std.specs.Prelude.{ℕ};

    ghost Value = { ℕ };

    ghost view = { λ b. b.left };
}

fn names_len(object: &Object, relation: &Relation) -> u64
    ensures value { result ≡ named_len object.now relation.now }
    ensures small { result ≤ 256 }
{
    let (namespace, id) = (object.namespace.as_bytes(), object.id.as_bytes());
    (namespace.len() + id.len() + relation.as_bytes().len()) as u64
}

fn user_names_len(user: &User) -> u64
    ensures value { result ≡ user_len user.now }
    ensures small { result ≤ 256 }
{
    match user {
        User::Id(id) => id.as_bytes().len() as u64,
        User::Set(userset) => names_len(&userset.object, &userset.relation),
    }
}

#[tactic(auto, unfolding(crate::specs::Budget::weight))]
fn weight_of(tuple: &Tuple) -> u64
    ensures { result ≡ weight tuple.now }
{
    let names = names_len(&tuple.object, &tuple.relation) + user_names_len(&tuple.user);
    TUPLE + TIMES * names
}

impl Budget {
    /// So many bytes.
    pub fn of(bytes: u64) -> Budget
        ensures { result ≡ bytes }
    {
        Budget { left: bytes }
    }

    /// More than any memory has.
    pub fn unbounded() -> Budget
        ensures { result ≡ 2 ^ 64 - 1 }
    {
        Budget { left: u64::MAX }
    }

    pub(crate) fn left(&self) -> u64
        ensures { result ≡ self.now }
    {
        self.left
    }

    /// Whether nothing is left, as once a tuple was refused that counts for more than was left.
    pub fn is_spent(&self) -> bool
        ensures { IsTrue result ↔ (self.now ≡ 0) }
    {
        self.left == 0
    }

    /// Counts the tuple. If it counts for more than is left it is refused, as by memory, and nothing is left from then on.
    pub(crate) fn take(&mut self, tuple: &Tuple) -> Result<(), AllocError>
        ensures ok { OnOk result (self.new + weight tuple.now ≡ self.old) }
        ensures err { OnErr result ((self.old < weight tuple.now) × (self.new ≡ 0)) }
    {
        let weight = weight_of(tuple);
        if self.left < weight {
            self.left = 0;
            return Err(AllocError);
        }
        self.left -= weight;
        Ok(())
    }

    /// A copy of the tuple, which is counted.
    pub(crate) fn copy(&mut self, alloc: Global, packed: &Packed) -> Result<Tuple, AllocError>
        ensures ok { IfOk result (λ copy. copy ≡ packed.now) }
        ensures counted { OnOk result (self.new + weight packed.now ≡ self.old) }
    {
        let tuple = packed.tuple(alloc)?;
        match self.take(&tuple) {
            Ok(()) => Ok(tuple),
            Err(refused) => {
                drop(tuple);
                Err(refused)
            }
        }
    }
}
