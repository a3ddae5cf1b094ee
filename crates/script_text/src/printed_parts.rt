// The parts of a line.
ghost use Rattle.tuples.specs.Texts.{object_text, tuple_text, user_text};
ghost use Rattle.json_lines.specs.Grown.{Grown};
ghost use Rattle.script_text.specs.PrintedTexts.{change_text, id_text, told_line};

use json_lines::Text;
use tuples::{Change, Object, Tuple, User, WriteId};
use zookie::Zookie;

fn push_object(out: &mut Text<'_>, object: &Object)
    ensures { Grown out.old out.new (object_text object.now) }
{
    out.push(object.namespace.as_bytes());
    out.push(b":");
    out.push(object.id.as_bytes());
}

fn push_user(out: &mut Text<'_>, user: &User)
    ensures { Grown out.old out.new (user_text user.now) }
{
    match user {
        User::Id(id) => out.push(id.as_bytes()),
        User::Set(userset) => {
            push_object(out, &userset.object);
            out.push(b"#");
            out.push(userset.relation.as_bytes());
        }
    }
}

pub(crate) fn push_tuple(out: &mut Text<'_>, tuple: &Tuple)
    ensures { Grown out.old out.new (tuple_text tuple.now) }
{
    push_object(out, &tuple.object);
    out.push(b"#");
    out.push(tuple.relation.as_bytes());
    out.push(b"@");
    push_user(out, &tuple.user);
}

/// The tuple after the mark of what is done to it.
pub(crate) fn push_change(out: &mut Text<'_>, change: &Change)
    ensures { Grown out.old out.new (change_text change.now) }
{
    match change {
        Change::Touch(tuple) => {
            out.push(b"+");
            push_tuple(out, tuple);
        }
        Change::Delete(tuple) => {
            out.push(b"-");
            push_tuple(out, tuple);
        }
    }
}

/// The id of a write, its epoch first.
pub(crate) fn push_id(out: &mut Text<'_>, id: WriteId)
    ensures { Grown out.old out.new (id_text id) }
{
    out.push_number(id.epoch);
    out.push(b".");
    out.push_number(id.number);
}

/// A line of a word and the token of a place.
pub(crate) fn push_told(out: &mut Text<'_>, word: &[u8], store: u64, place: u64)
    ensures { Grown out.old out.new (told_line word.now store place) }
{
    let zookie = Zookie { store, place };
    out.push(word);
    out.push(b" ");
    out.push(&zookie.encode());
    out.push(b"\n");
}
