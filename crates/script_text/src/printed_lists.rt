// Lists of tuples and of versions, a line each.
ghost use Rattle.std.specs.Prelude.{map};
ghost use Rattle.std.specs.List.{flat_map};
ghost use Rattle.json_lines.specs.Grown.{Grown};
ghost use Rattle.script_text.specs.PrintedTexts.{row_line, row_lines, version_line};

use crate::printed_parts::{push_change, push_tuple};
use json_lines::Text;
use tuples::{Tuple, Version};

fn push_version(out: &mut Text<'_>, version: &Version)
    ensures { Grown out.old out.new (version_line version.now) }
{
    out.push_number(version.place);
    out.push(b" ");
    push_change(out, &version.change);
    out.push(b"\n");
}

/// The place of each version, and what it makes of its tuple.
pub(crate) fn push_versions(out: &mut Text<'_>, versions: &[Version])
    ensures { Grown out.old out.new (flat_map version_line versions.now) }
{
    for version in versions {
        push_version(out, version);
    }
}

fn push_row(out: &mut Text<'_>, number: u64, tuple: &Tuple)
    ensures { Grown out.old out.new (row_line number tuple.now) }
{
    out.push_number(number);
    out.push(b" ");
    push_tuple(out, tuple);
    out.push(b"\n");
}

// The tuples of one tupleset, each with that tupleset's number.
fn push_set(out: &mut Text<'_>, number: u64, tuples: &[Tuple])
    ensures { Grown out.old out.new (flat_map (row_line number) tuples.now) }
{
    for tuple in tuples {
        push_row(out, number, tuple);
    }
}

/// The tuples of each tupleset, which are numbered from 1.
pub(crate) fn push_sets(out: &mut Text<'_>, sets: &[Vec<Tuple>])
    ensures { Grown out.old out.new (row_lines 1 (map (λ set. set.items) sets.now)) }
{
    let mut number = 1;
    for tuples in sets {
        push_set(out, number, tuples);
        number += 1;
    }
}
