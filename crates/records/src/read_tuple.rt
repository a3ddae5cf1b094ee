// Tuples at the front of bytes, each with the bytes after it.
ghost use Rattle.records.specs.Giving.{Gives};
ghost use Rattle.records.specs.Reading.{object_at, tuple_at, user_at, user_of_kind_at, userset_at};

use crate::format::{USER_ID, USER_SET};
use crate::read_text::{byte_of, id_of, namespace_of, relation_of};
use crate::unread::Unread;
use std::alloc::Global;
use tuples::{Object, Tuple, User, Userset};

#[tactic(auto, unfolding(crate::specs::Reading::object_at))]
fn object_of(alloc: Global, bytes: &[u8]) -> Result<(Object, &[u8]), Unread>
    ensures { Gives (λ x. (x.0, x.1.now)) result (object_at bytes.now) }
{
    let (namespace, rest) = namespace_of(alloc, bytes)?;
    let (id, rest) = id_of(alloc, rest)?;
    Ok((Object { namespace, id }, rest))
}

#[tactic(auto, unfolding(crate::specs::Reading::userset_at))]
fn userset_of(alloc: Global, bytes: &[u8]) -> Result<(Userset, &[u8]), Unread>
    ensures { Gives (λ x. (x.0, x.1.now)) result (userset_at bytes.now) }
{
    let (object, rest) = object_of(alloc, bytes)?;
    let (relation, rest) = relation_of(alloc, rest)?;
    Ok((Userset { object, relation }, rest))
}

#[tactic(auto, unfolding(crate::specs::Reading::user_of_kind_at))]
fn user_of_kind(alloc: Global, kind: u8, bytes: &[u8]) -> Result<(User, &[u8]), Unread>
    ensures { Gives (λ x. (x.0, x.1.now)) result (user_of_kind_at kind bytes.now) }
{
    match kind {
        USER_ID => {
            let (id, rest) = id_of(alloc, bytes)?;
            Ok((User::Id(id), rest))
        }
        USER_SET => {
            let (set, rest) = userset_of(alloc, bytes)?;
            Ok((User::Set(set), rest))
        }
        _ => Err(Unread::Damaged),
    }
}

#[tactic(auto, unfolding(crate::specs::Reading::user_at))]
fn user_of(alloc: Global, bytes: &[u8]) -> Result<(User, &[u8]), Unread>
    ensures { Gives (λ x. (x.0, x.1.now)) result (user_at bytes.now) }
{
    let (kind, rest) = byte_of(bytes)?;
    user_of_kind(alloc, kind, rest)
}

#[tactic(auto, unfolding(crate::specs::Reading::tuple_at))]
pub(crate) fn tuple_of(alloc: Global, bytes: &[u8]) -> Result<(Tuple, &[u8]), Unread>
    ensures { Gives (λ x. (x.0, x.1.now)) result (tuple_at bytes.now) }
{
    let (object, rest) = object_of(alloc, bytes)?;
    let (relation, rest) = relation_of(alloc, rest)?;
    let (user, rest) = user_of(alloc, rest)?;
    Ok((
        Tuple {
            object,
            relation,
            user,
        },
        rest,
    ))
}
