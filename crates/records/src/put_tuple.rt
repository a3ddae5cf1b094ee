// Tuples at the end of a vector.
ghost use Rattle.std.specs.Prelude.{◌++◌};
ghost use Rattle.tuples.specs.Named.{named_tuple, named_user, named_userset};
ghost use Rattle.tuples.specs.Texts.{IsTuple, IsUser, IsUserset};
ghost use Rattle.records.specs.Format.{object_bytes, text_bytes, tuple_bytes, user_bytes};
ghost use Rattle.records.specs.Putting.{Puts};

use crate::format::{USER_ID, USER_SET};
use crate::put::{put_byte, put_text};
use std::alloc::AllocError;
use tuples::{TupleRef, UserRef, UsersetRef};

fn put_userset(out: &mut Vec<u8>, userset: &UsersetRef<'_>) -> Result<(), AllocError>
    requires { IsUserset (named_userset userset.now) }
    ensures { Puts out.old out.new (object_bytes (named_userset userset.now).object ++ text_bytes (named_userset userset.now).relation) result }
{
    put_text(out, userset.namespace)?;
    put_text(out, userset.id)?;
    put_text(out, userset.relation)
}

fn put_user(out: &mut Vec<u8>, user: &UserRef<'_>) -> Result<(), AllocError>
    requires { IsUser (named_user user.now) }
    ensures { Puts out.old out.new (user_bytes (named_user user.now)) result }
{
    match user {
        UserRef::Id(id) => {
            put_byte(out, USER_ID)?;
            put_text(out, id)
        }
        UserRef::Set(userset) => {
            put_byte(out, USER_SET)?;
            put_userset(out, userset)
        }
    }
}

pub(crate) fn put_tuple(out: &mut Vec<u8>, tuple: &TupleRef<'_>) -> Result<(), AllocError>
    requires { IsTuple (named_tuple tuple.now) }
    ensures { Puts out.old out.new (tuple_bytes (named_tuple tuple.now)) result }
{
    put_userset(out, &tuple.userset)?;
    put_user(out, &tuple.user)
}
