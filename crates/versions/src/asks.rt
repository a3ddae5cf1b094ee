// What is asked of a table: whether a tuple is one of those.
ghost use Rattle.std.specs.Prelude.{◌≡◌};
ghost use Rattle.tuples.specs.Named.{named_tuple};
ghost use Rattle.tuples.specs.Reads.{has_relation};
ghost use Rattle.versions.specs.Rows.{is_one_of, is_own_or_set};

use tuples::{Packed, Relation, Tuple, TupleRef, Tupleset, User, Userset};

/// A question that each tuple answers.
pub(crate) trait Asks {
    ghost use Rattle.std.specs.Prelude.{Bool};
    ghost use Rattle.tuples.specs.declared.tuple.Tuple.{Tuple};

    /// Whether a tuple is one of those that are asked for.
    ghost asks: { Self → Tuple → Bool };

    fn asks_for(&self, tuple: &Packed) -> bool
        ensures { result ≡ asks self.now tuple.now };
}

/// The tuples that meet the tupleset.
impl Asks for Tupleset {
    ghost use Rattle.tuples.specs.Reads.{meets};

    ghost asks = { meets };

    fn asks_for(&self, tuple: &Packed) -> bool {
        match self {
            Tupleset::Key(key) => tuple.is(key),
            Tupleset::OfObject(object, relation) => {
                let parts = tuple.parts();
                parts.is_of(object) && has_this(relation, &parts)
            }
            Tupleset::OfUser(namespace, user, relation) => {
                let parts = tuple.parts();
                parts.is_in(namespace) && parts.has_user(user) && has_this(relation, &parts)
            }
        }
    }
}

/// The tuples by which the userset holds other usersets.
impl Asks for Userset {
    ghost use Rattle.versions.specs.Rows.{is_set_of};

    ghost asks = { is_set_of };

    fn asks_for(&self, tuple: &Packed) -> bool {
        let parts = tuple.parts();
        parts.is_of(&self.object) && parts.has_relation(&self.relation) && parts.names_set()
    }
}

fn has_this(relation: &Option<Relation>, tuple: &TupleRef<'_>) -> bool
    ensures { result ≡ has_relation relation.now (named_tuple tuple.now) }
{
    match relation {
        Some(relation) => tuple.has_relation(relation),
        None => true,
    }
}

/// Whether the tuple has the relation, if one is given
#[tactic(auto, using(crate::proofs::Equal::same_relation))]
pub(crate) fn has_given(relation: &Option<Relation>, tuple: &Tuple) -> bool
    ensures { result ≡ has_relation relation.now tuple.now }
{
    match relation {
        Some(relation) => tuple.relation == *relation,
        None => true,
    }
}

/// Whether the tuple is one of the userset.
pub(crate) fn is_of(userset: &Userset, tuple: &TupleRef<'_>) -> bool
    ensures { result ≡ is_one_of userset.now (named_tuple tuple.now) }
{
    tuple.is_of(&userset.object) && tuple.has_relation(&userset.relation)
}

/// Whether a check of the user asks for the tuple, if it is one of the userset.
pub(crate) fn is_asked(user: &User, tuple: &TupleRef<'_>) -> bool
    ensures { result ≡ is_own_or_set user.now (named_tuple tuple.now) }
{
    tuple.has_user(user) || tuple.names_set()
}
