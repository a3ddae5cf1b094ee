// Answers and refusals, and their texts.
ghost use Rattle.std.specs.Prelude.{◌≡◌, ◌<◌, ◌≤◌, ◌+◌, ◌++◌, ◌∷◌, [], false, OnOk, OnErr, length, vec_capacity, vec_len};
ghost use Rattle.serde_json.specs.Written.{compact_text};
ghost use Rattle.json_lines.specs.Grown.{Grown};
ghost use Rattle.json_lines.specs.Texts.{answer_line as line_of, refusal_line, rows_json, watched_json, zookie_json};

use crate::answer_lists::{push_events, push_sets};
use crate::strings::{push_quoted, push_zookie};
use crate::text::Text;
use std::alloc::AllocError;
use tuples::{Refusal, Tuple, Version};

/// The place that a write got.
#[derive(Clone, Copy, Debug, PartialEq, Eq)]
pub struct Written {
    pub place: u64,
}

/// The tuples of each tupleset of a read, and their place.
#[derive(Drop)]
pub struct Rows {
    pub sets: Vec<Vec<Tuple>>,
    pub place: u64,
}

/// Whether the user of a check is in the userset, and at which place.
#[derive(Clone, Copy, Debug, PartialEq, Eq)]
pub struct Membership {
    pub is_member: bool,
    pub place: u64,
}

/// The changes of a watch, and the place up to which they are complete.
#[derive(Drop)]
pub struct Events {
    pub events: Vec<Version>,
    pub heartbeat: u64,
}

/// What a store answers to a request.
#[derive(Drop)]
pub enum Answer {
    /// `{"zookie":Z}`
    Written(Written),
    /// `{"sets":[[T,..],..],"zookie":Z}`
    Rows(Rows),
    /// `{"member":true,"zookie":Z}`
    Membership(Membership),
    /// `{"events":[{"change":"touch","place":N,"tuple":T},..],"heartbeat":Z}`
    Events(Events),
}

impl Answer {
    /// Appends the text, whose tokens are those of the store with this id. Refused only if the vector has no room for all of
    /// it; then nothing is written.
    pub fn write_to(&self, store: u64, out: &mut Vec<u8>) -> Result<(), AllocError>
        ensures ok { OnOk result (out.new.items ≡ out.old.items ++ line_of store self.now) }
        ensures err { OnErr result (out.new.items ≡ out.old.items) }
        ensures memory { OnErr result (vec_capacity out.old < vec_len out.old + length (line_of store self.now)) }
        ensures capacity { vec_capacity out.old ≤ vec_capacity out.new }
    {
        let mut text = Text::behind(out);
        push_answer(&mut text, self, store);
        text.end()
    }
}

/// Appends the text of the refusal. Refused only if the vector has no room for all of it; then nothing is written.
pub fn write_refusal(refusal: Refusal, out: &mut Vec<u8>) -> Result<(), AllocError>
    ensures ok { OnOk result (out.new.items ≡ out.old.items ++ refusal_line refusal) }
    ensures err { OnErr result (out.new.items ≡ out.old.items) }
    ensures memory { OnErr result (vec_capacity out.old < vec_len out.old + length (refusal_line refusal)) }
    ensures capacity { vec_capacity out.old ≤ vec_capacity out.new }
{
    let mut text = Text::behind(out);
    push_refusal(&mut text, refusal);
    text.end()
}

fn push_refusal(out: &mut Text<'_>, refusal: Refusal)
    ensures { Grown out.old out.new (refusal_line refusal) }
{
    out.push(b"{\"error\":");
    out.push_number(u64::from(refusal.number()));
    out.push(b",\"name\":");
    push_quoted(out, refusal.name().as_bytes());
    out.push(b"}");
}

fn push_answer(out: &mut Text<'_>, answer: &Answer, store: u64)
    ensures { Grown out.old out.new (line_of store answer.now) }
{
    match answer {
        Answer::Written(written) => {
            out.push(b"{\"zookie\":");
            push_end(out, store, written.place);
        }
        Answer::Rows(rows) => push_rows(out, rows, store),
        Answer::Membership(membership) => {
            out.push(b"{\"member\":");
            out.push_bool(membership.is_member);
            out.push(b",\"zookie\":");
            push_end(out, store, membership.place);
        }
        Answer::Events(events) => push_watched(out, events, store),
    }
}

fn push_rows(out: &mut Text<'_>, rows: &Rows, store: u64)
    ensures { Grown out.old out.new (compact_text (rows_json store rows.now)) }
{
    out.push(b"{\"sets\":");
    push_sets(out, &rows.sets);
    out.push(b",\"zookie\":");
    push_end(out, store, rows.place);
}

fn push_watched(out: &mut Text<'_>, watched: &Events, store: u64)
    ensures { Grown out.old out.new (compact_text (watched_json store watched.now)) }
{
    out.push(b"{\"events\":");
    push_events(out, &watched.events);
    out.push(b",\"heartbeat\":");
    push_end(out, store, watched.heartbeat);
}

// The token of the last member, and the end of the object.
fn push_end(out: &mut Text<'_>, store: u64, place: u64)
    ensures { Grown out.old out.new (compact_text (zookie_json store place) ++ 125 ∷ []) }
{
    push_zookie(out, store, place);
    out.push(b"}");
}
