// A tuple as one text, in whose order of bytes tuples lie by namespace and user.
ghost use Rattle.std.specs.Prelude.{◌≡◌, IfOk, OnErr, ◌<◌, length};
ghost use Rattle.std.proofs.Common.{rules};
ghost use Rattle.std.specs.Cmp.{partial_order_from_own_ties};
ghost use Rattle.std.specs.Cmp.Rules.{comparing};
ghost use Rattle.std.specs.Ordering.{as_partial_cmp, eq_by_cmp};
ghost use Rattle.tuples.specs.ByUser.{by_user_cmp, by_user_total};
ghost use Rattle.tuples.specs.Named.{named_tuple};
ghost use Rattle.tuples.specs.Packing.{packing_by_user};
ghost use Rattle.tuples.specs.Short.{max_short};
ghost use Rattle.tuples.specs.Texts.{IsTuple};

use crate::name::Name;
use crate::packing::{END, MAX_PACKED, append, append_user, behind_user, cut_first, user_at};
use crate::{Tuple, TupleRef, UsersetRef};
use arrayvec::ArrayVec;
use std::alloc::{AllocError, Global};
use std::cmp::Ordering;
use std::marker::Model;

/// A tuple in four words if its text has at most 30 bytes, ordered by namespace, user, object id and relation.
#[derive(Drop)]
pub struct PackedByUser {
    text: Name,
}

impl Model for PackedByUser {
    ghost use Rattle.tuples.specs.declared.tuple.Tuple.{Tuple};
    ghost use Rattle.tuples.specs.Packing.{IsPackingByUser, unpacked_by_user};

    ghost Value = { Tuple };

    ghost view = { λ p. unpacked_by_user p.text };

    ghost invariant = { λ p. IsPackingByUser p.text };
}

impl PackedByUser {
    /// The tuple in a packing of its own. It takes no memory if the text has at most 30 bytes.
    pub fn of(alloc: Global, tuple: &Tuple) -> Result<PackedByUser, AllocError>
        ensures value { IfOk result (λ p. p ≡ tuple.now) }
        ensures memory { OnErr result (max_short < length (packing_by_user tuple.now)) }
    {
        let bytes = pack(&tuple.parts());
        let text = Name::from_slice(alloc, bytes.as_slice())?;
        Ok(PackedByUser { text })
    }

    /// The tuple, by where its names and ids lie.
    pub fn parts(&self) -> TupleRef<'_>
        ensures value { named_tuple result ≡ self.now }
        ensures grammar { IsTuple self.now }
    {
        let first = cut_first(self.text.as_bytes());
        let user = user_at(first.is_set, first.behind);
        let last = cut_first(behind_user(first.is_set, first.behind));
        let userset = UsersetRef {
            namespace: first.front,
            id: last.front,
            relation: last.behind,
        };
        TupleRef { userset, user }
    }

    /// The tuple in values of its own.
    pub fn tuple(&self, alloc: Global) -> Result<Tuple, AllocError>
        ensures { IfOk result (λ tuple. tuple ≡ self.now) }
    {
        self.parts().copy(alloc)
    }

    /// Whether it packs this tuple, which takes no memory.
    pub fn is(&self, tuple: &Tuple) -> bool
        ensures { result ≡ eq_by_cmp by_user_cmp self.now tuple.now }
    {
        self.text.as_bytes() == pack(&tuple.parts()).as_slice()
    }
}

impl PartialEq for PackedByUser {
    ghost eq = { eq_by_cmp by_user_cmp };

    ghost laws = { Prim.search (comparing, by_user_total, rules) };

    fn eq(&self, other: &PackedByUser) -> bool {
        self.cmp(other).is_eq()
    }
}

impl Eq for PackedByUser {
    ghost laws = { Prim.search (comparing, by_user_total, rules) };
}

impl Ord for PackedByUser {
    ghost cmp = { by_user_cmp };

    ghost total = { by_user_total };

    ghost matches_partial_cmp = { Prim.search (comparing, rules) };

    ghost matches_eq = { Prim.search (comparing, rules) };

    fn cmp(&self, other: &PackedByUser) -> Ordering {
        self.text.cmp(&other.text)
    }
}

impl PartialOrd for PackedByUser {
    ghost partial_cmp = { as_partial_cmp by_user_cmp };

    ghost laws = { partial_order_from_own_ties (Prim.search (comparing, by_user_total, rules)) (Prim.search (comparing, rules)) };

    fn partial_cmp(&self, other: &PackedByUser) -> Option<Ordering> {
        Some(self.cmp(other))
    }
}

fn pack(tuple: &TupleRef<'_>) -> ArrayVec<u8, MAX_PACKED>
    requires { IsTuple (named_tuple tuple.now) }
    ensures { result.items ≡ packing_by_user (named_tuple tuple.now) }
{
    let mut text = ArrayVec::new();
    append(&mut text, tuple.userset.namespace);
    append_user(&mut text, &tuple.user);
    text.push(END);
    append(&mut text, tuple.userset.id);
    text.push(END);
    append(&mut text, tuple.userset.relation);
    text
}
