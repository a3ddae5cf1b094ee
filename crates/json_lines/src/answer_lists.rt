// Lists of tuples and of events.
ghost use Rattle.serde_json.specs.Written.{comma_if, compact_text};
ghost use Rattle.json_lines.specs.Grown.{Grown};
ghost use Rattle.json.specs.Print.{quoted};
ghost use Rattle.std.specs.Prelude.{◌≡◌};
ghost use Rattle.tuples.specs.Changes.{tuple_of};
ghost use Rattle.json_lines.specs.Texts.{change_name, event_json, events_json, sets_json, tuples_json};

use crate::strings::push_tuple;
use crate::text::Text;
use tuples::{Change, Tuple, Version};

// What stands before an element of a list.
fn push_comma(out: &mut Text<'_>, is_later: bool)
    ensures { Grown out.old out.new (comma_if is_later) }
{
    if is_later {
        out.push(b",");
    }
}

fn push_set(out: &mut Text<'_>, tuples: &[Tuple])
    ensures { Grown out.old out.new (compact_text (tuples_json tuples.now)) }
{
    out.push(b"[");
    let mut is_later = false;
    for tuple in tuples {
        push_comma(out, is_later);
        push_tuple(out, tuple);
        is_later = true;
    }
    out.push(b"]");
}

/// The tuples of each tupleset.
pub(crate) fn push_sets(out: &mut Text<'_>, sets: &[Vec<Tuple>])
    ensures { Grown out.old out.new (compact_text (sets_json sets.now)) }
{
    out.push(b"[");
    let mut is_later = false;
    for tuples in sets {
        push_comma(out, is_later);
        push_set(out, tuples);
        is_later = true;
    }
    out.push(b"]");
}

// What the change does to its tuple.
fn push_change(out: &mut Text<'_>, change: &Change)
    ensures { Grown out.old out.new (quoted (change_name change.now)) }
{
    match change {
        Change::Touch(_) => out.push(b"\"touch\""),
        Change::Delete(_) => out.push(b"\"delete\""),
    }
}

fn changed(change: &Change) -> &Tuple
    ensures { result.now ≡ tuple_of change.now }
{
    match change {
        Change::Touch(tuple) => tuple,
        Change::Delete(tuple) => tuple,
    }
}

fn push_event(out: &mut Text<'_>, event: &Version)
    ensures { Grown out.old out.new (compact_text (event_json event.now)) }
{
    out.push(b"{\"change\":");
    push_change(out, &event.change);
    out.push(b",\"place\":");
    out.push_number(event.place);
    out.push(b",\"tuple\":");
    push_tuple(out, changed(&event.change));
    out.push(b"}");
}

pub(crate) fn push_events(out: &mut Text<'_>, events: &[Version])
    ensures { Grown out.old out.new (compact_text (events_json events.now)) }
{
    out.push(b"[");
    let mut is_later = false;
    for event in events {
        push_comma(out, is_later);
        push_event(out, event);
        is_later = true;
    }
    out.push(b"]");
}
