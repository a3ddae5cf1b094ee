// Where a walk over the tuples of an object, or over those of a user, begins.
ghost use Rattle.std.specs.Prelude.{◌≡◌, ◌∷◌, [], IfOk};
ghost use Rattle.tuples.specs.declared.tupleset.Tupleset.TheVariants.{OfObject as of_object};
ghost use Rattle.tuples.specs.Reads.{meets};
ghost use Rattle.versions.specs.Index.{IsFirstOf};
ghost use Rattle.versions.specs.Rows.{IsFirst, first_relation, is_set_of, lowest_userset};

use std::alloc::{AllocError, Global};
use tuples::{Id, Namespace, Object, Relation, Tuple, User, Userset};

/// A tuple before which no tuple of the object stands, with this relation if one is given.
pub(crate) fn first_of(
    alloc: Global,
    object: &Object,
    relation: &Option<Relation>,
) -> Result<Tuple, AllocError>
    ensures { IfOk result (λ first. IsFirst (meets (of_object object.now relation.now)) first) }
{
    let object = object.clone()?;
    let relation = relation_or_first(alloc, relation)?;
    let id = first_id(alloc)?;
    Ok(Tuple {
        object,
        relation,
        user: User::Id(id),
    })
}

/// A tuple before which no tuple of the userset stands that names a userset.
pub(crate) fn first_set_of(alloc: Global, userset: &Userset) -> Result<Tuple, AllocError>
    ensures { IfOk result (λ first. IsFirst (is_set_of userset.now) first) }
{
    let object = userset.object.clone()?;
    let relation = userset.relation.clone()?;
    let lowest = lowest_set(alloc)?;
    Ok(Tuple {
        object,
        relation,
        user: User::Set(lowest),
    })
}

/// A tuple before which none of the namespace stands that names the user, in the order of the index.
pub(crate) fn first_of_user(
    alloc: Global,
    namespace: &Namespace,
    user: &User,
) -> Result<Tuple, AllocError>
    ensures { IfOk result (λ first. IsFirstOf namespace.now user.now first) }
{
    let namespace = namespace.clone()?;
    let id = first_id(alloc)?;
    let relation = relation_or_first(alloc, &None)?;
    let user = user.clone()?;
    Ok(Tuple {
        object: Object { namespace, id },
        relation,
        user,
    })
}

// `0:!#0`, before which no userset stands
fn lowest_set(alloc: Global) -> Result<Userset, AllocError>
    ensures { IfOk result (λ y. y ≡ lowest_userset) }
{
    let namespace = first_namespace(alloc)?;
    let id = first_id(alloc)?;
    let relation = relation_or_first(alloc, &None)?;
    Ok(Userset {
        object: Object { namespace, id },
        relation,
    })
}

fn first_namespace(alloc: Global) -> Result<Namespace, AllocError>
    ensures { IfOk result (λ n. n ≡ 48 ∷ []) }
{
    match Namespace::parse(alloc, b"0") {
        Ok(namespace) => Ok(namespace),
        Err(_) => Err(AllocError),
    }
}

fn relation_or_first(alloc: Global, relation: &Option<Relation>) -> Result<Relation, AllocError>
    ensures { IfOk result (λ r. r ≡ first_relation relation.now) }
{
    match relation {
        Some(relation) => relation.clone(),
        None => match Relation::parse(alloc, b"0") {
            Ok(relation) => Ok(relation),
            Err(_) => Err(AllocError),
        },
    }
}

// A plain user stands before a userset, and `!` before each other byte of an id.
fn first_id(alloc: Global) -> Result<Id, AllocError>
    ensures { IfOk result (λ id. id ≡ 33 ∷ []) }
{
    match Id::parse(alloc, b"!") {
        Ok(id) => Ok(id),
        Err(_) => Err(AllocError),
    }
}
