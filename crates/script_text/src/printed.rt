// What a line of a script prints.
ghost use Rattle.std.specs.Prelude.{◌≡◌, ◌<◌, ◌≤◌, ◌+◌, ◌++◌, false, OnOk, OnErr, length, vec_capacity, vec_len};
ghost use Rattle.json_lines.specs.Grown.{Grown};
ghost use Rattle.script_text.specs.PrintedTexts.{answer_text, membership_word, named_line, printed_text, refusal_line, resolved_line};

use crate::printed_lists::{push_sets, push_versions};
use crate::printed_parts::{push_id, push_told};
use json_lines::{Answer, Text};
use std::alloc::AllocError;
use tuples::{Refusal, Version, WriteId};

/// What one line of a script prints. Most are one line; an answer, and a list of versions, has a line for each of its parts.
#[derive(Clone, Copy)]
pub enum Printed<'a> {
    /// `ok Z`; `at Z`, and `1 doc:a#viewer@ann` with the number of its tupleset for each tuple; `yes Z` or `no Z`; or
    /// `3 +doc:a#viewer@ann` for each event, and `heartbeat Z`
    Answer(&'a Answer),
    /// `started w`
    Started(&'a [u8]),
    /// `next decide`
    Next(&'a [u8]),
    /// `cancelled w`
    Cancelled(&'a [u8]),
    /// `done`
    Done,
    /// `commit 1.7 3`: a write that was in doubt is decided at this place.
    Committed(WriteId, u64),
    /// `abort 1.7`
    Aborted(WriteId),
    /// `undecided 1.7`
    Undecided(WriteId),
    /// `3 +doc:a#viewer@ann` or `3 -doc:a#viewer@ann` for each version
    Versions(&'a [Version]),
    /// `up`: a node was opened again.
    Up,
    /// `set`: a failure was set on a device.
    Set,
    /// `refused 13 Down`
    Refused(Refusal),
}

impl Printed<'_> {
    /// Appends the text, whose tokens are those of the store with this id. Refused only if the vector has no room for all of
    /// it; then nothing is written.
    pub fn write_to(&self, store: u64, out: &mut Vec<u8>) -> Result<(), AllocError>
        ensures ok { OnOk result (out.new.items ≡ out.old.items ++ printed_text store self.now) }
        ensures err { OnErr result (out.new.items ≡ out.old.items) }
        ensures memory { OnErr result (vec_capacity out.old < vec_len out.old + length (printed_text store self.now)) }
        ensures capacity { vec_capacity out.old ≤ vec_capacity out.new }
    {
        let mut text = Text::behind(out);
        push_printed(&mut text, self, store);
        text.end()
    }
}

fn push_printed(out: &mut Text<'_>, printed: &Printed<'_>, store: u64)
    ensures { Grown out.old out.new (printed_text store printed.now) }
{
    match printed {
        Printed::Answer(answer) => push_answer(out, answer, store),
        Printed::Started(name) => push_named(out, b"started ", name),
        Printed::Next(call) => push_named(out, b"next ", call),
        Printed::Cancelled(name) => push_named(out, b"cancelled ", name),
        Printed::Done => out.push(b"done\n"),
        Printed::Committed(id, place) => {
            out.push(b"commit ");
            push_id(out, *id);
            out.push(b" ");
            out.push_number(*place);
            out.push(b"\n");
        }
        Printed::Aborted(id) => push_resolved(out, b"abort ", *id),
        Printed::Undecided(id) => push_resolved(out, b"undecided ", *id),
        Printed::Versions(versions) => push_versions(out, versions),
        Printed::Up => out.push(b"up\n"),
        Printed::Set => out.push(b"set\n"),
        Printed::Refused(refusal) => push_refusal(out, *refusal),
    }
}

// A line of a word, with the space after it, and a name.
fn push_named(out: &mut Text<'_>, word: &[u8], name: &[u8])
    ensures { Grown out.old out.new (named_line word.now name.now) }
{
    out.push(word);
    out.push(name);
    out.push(b"\n");
}

// A line of a word, with the space after it, and the id of a write.
fn push_resolved(out: &mut Text<'_>, word: &[u8], id: WriteId)
    ensures { Grown out.old out.new (resolved_line word.now id) }
{
    out.push(word);
    push_id(out, id);
    out.push(b"\n");
}

fn push_answer(out: &mut Text<'_>, answer: &Answer, store: u64)
    ensures { Grown out.old out.new (answer_text store answer.now) }
{
    match answer {
        Answer::Written(written) => push_told(out, b"ok", store, written.place),
        Answer::Rows(rows) => {
            push_told(out, b"at", store, rows.place);
            push_sets(out, &rows.sets);
        }
        Answer::Membership(membership) => {
            let word = membership_word(membership.is_member);
            push_told(out, word, store, membership.place);
        }
        Answer::Events(events) => {
            push_versions(out, &events.events);
            push_told(out, b"heartbeat", store, events.heartbeat);
        }
    }
}

fn membership_word(is_member: bool) -> &'static [u8]
    ensures { result.now ≡ membership_word is_member }
{
    if is_member { b"yes" } else { b"no" }
}

fn push_refusal(out: &mut Text<'_>, refusal: Refusal)
    ensures { Grown out.old out.new (refusal_line refusal) }
{
    out.push(b"refused ");
    out.push_number(u64::from(refusal.number()));
    out.push(b" ");
    out.push(refusal.name().as_bytes());
    out.push(b"\n");
}
