// A tuple as one text, in whose order of bytes tuples lie as they do themselves.
ghost use Rattle.std.specs.Prelude.{◌≡◌, IfOk, OnErr, ◌<◌, length};
ghost use Rattle.std.proofs.Common.{rules};
ghost use Rattle.std.specs.Cmp.{partial_order_from_own_ties};
ghost use Rattle.std.specs.Cmp.Rules.{comparing};
ghost use Rattle.std.specs.Ordering.{as_partial_cmp, eq_by_cmp};
ghost use Rattle.tuples.specs.ByUser.{tuple_total};
ghost use Rattle.tuples.specs.Named.{named_tuple};
ghost use Rattle.tuples.specs.Order.{tuple_cmp, tuple_eq};
ghost use Rattle.tuples.specs.Packing.{packing};
ghost use Rattle.tuples.specs.Short.{max_short};
ghost use Rattle.tuples.specs.Texts.{IsTuple};

use crate::name::Name;
use crate::packing::{MAX_PACKED, append_user, append_userset, cut_first, user_at};
use crate::{PackedByUser, Tuple, TupleRef, UsersetRef};
use arrayvec::ArrayVec;
use std::alloc::{AllocError, Global};
use std::cmp::Ordering;
use std::marker::Model;

/// A tuple in four words if its text has at most 30 bytes, ordered as tuples are.
#[derive(Drop)]
pub struct Packed {
    text: Name,
}

impl Model for Packed {
    ghost use Rattle.tuples.specs.declared.tuple.Tuple.{Tuple};
    ghost use Rattle.tuples.specs.Packing.{IsPacking, unpacked};

    ghost Value = { Tuple };

    ghost view = { λ p. unpacked p.text };

    ghost invariant = { λ p. IsPacking p.text };
}

impl Packed {
    /// The tuple in a packing of its own. It takes no memory if the text has at most 30 bytes.
    pub fn of(alloc: Global, tuple: &Tuple) -> Result<Packed, AllocError>
        ensures value { IfOk result (λ p. p ≡ tuple.now) }
        ensures memory { OnErr result (max_short < length (packing tuple.now)) }
    {
        let bytes = pack(&tuple.parts());
        let text = Name::from_slice(alloc, bytes.as_slice())?;
        Ok(Packed { text })
    }

    /// The tuple, by where its names and ids lie.
    pub fn parts(&self) -> TupleRef<'_>
        ensures value { named_tuple result ≡ self.now }
        ensures grammar { IsTuple self.now }
    {
        let first = cut_first(self.text.as_bytes());
        let second = cut_first(first.behind);
        let third = cut_first(second.behind);
        let userset = UsersetRef {
            namespace: first.front,
            id: second.front,
            relation: third.front,
        };
        let user = user_at(third.is_set, third.behind);
        TupleRef { userset, user }
    }

    /// The tuple in values of its own.
    pub fn tuple(&self, alloc: Global) -> Result<Tuple, AllocError>
        ensures { IfOk result (λ tuple. tuple ≡ self.now) }
    {
        self.parts().copy(alloc)
    }

    /// Whether it packs this tuple, which takes no memory.
    pub fn is(&self, tuple: &Tuple) -> bool
        ensures { result ≡ tuple_eq self.now tuple.now }
    {
        self.has_text_of(&tuple.parts())
    }

    /// Whether both pack one tuple, which takes no memory.
    pub fn is_same(&self, other: &PackedByUser) -> bool
        ensures { result ≡ tuple_eq self.now other.now }
    {
        self.has_text_of(&other.parts())
    }

    #[tactic(auto, unfolding(crate::specs::Order::tuple_eq))]
    fn has_text_of(&self, tuple: &TupleRef<'_>) -> bool
        requires { IsTuple (named_tuple tuple.now) }
        ensures { result ≡ tuple_eq self.now (named_tuple tuple.now) }
    {
        self.text.as_bytes() == pack(tuple).as_slice()
    }

    /// Each part of the tuple is in its grammar, since its type keeps that. It does nothing.
    pub fn keeps_grammar(&self)
        ensures { IsTuple self.now }
    {
        let _parts = self.parts();
    }
}

impl PartialEq for Packed {
    ghost eq = { eq_by_cmp tuple_cmp };

    ghost laws = { Prim.search (comparing, tuple_total, rules) };

    fn eq(&self, other: &Packed) -> bool {
        self.cmp(other).is_eq()
    }
}

impl Eq for Packed {
    ghost laws = { Prim.search (comparing, tuple_total, rules) };
}

impl Ord for Packed {
    ghost cmp = { tuple_cmp };

    ghost total = { tuple_total };

    ghost matches_partial_cmp = { Prim.search (comparing, rules) };

    ghost matches_eq = { Prim.search (comparing, rules) };

    fn cmp(&self, other: &Packed) -> Ordering {
        self.text.cmp(&other.text)
    }
}

impl PartialOrd for Packed {
    ghost partial_cmp = { as_partial_cmp tuple_cmp };

    ghost laws = { partial_order_from_own_ties (Prim.search (comparing, tuple_total, rules)) (Prim.search (comparing, rules)) };

    fn partial_cmp(&self, other: &Packed) -> Option<Ordering> {
        Some(self.cmp(other))
    }
}

fn pack(tuple: &TupleRef<'_>) -> ArrayVec<u8, MAX_PACKED>
    requires { IsTuple (named_tuple tuple.now) }
    ensures { result.items ≡ packing (named_tuple tuple.now) }
{
    let mut text = ArrayVec::new();
    append_userset(&mut text, &tuple.userset);
    append_user(&mut text, &tuple.user);
    text
}
