// What is printed of what a store tells.
ghost use Rattle.std.specs.Prelude.{◌≡◌, ◌≤◌, ◌<◌, ◌+◌, ◌++◌, List, ℕ, OnOk, OnErr, length, vec_capacity, vec_len};
ghost use Rattle.std.specs.List.{flat_map};
ghost use Rattle.scripts.specs.Scripts.{resharded_text};
ghost use Rattle.scripts.specs.Telling.{done_line, end_text, resolved_text, told_text};

use care_flow::Resolved;
use cluster::What;
use json_lines::{Answer, Events, Membership, Rows, Written};
use script_text::Printed;
use std::alloc::AllocError;
use tuples::Refusal;

fn print_resolved(id: u64, resolved: Resolved, out: &mut Vec<u8>) -> Result<(), AllocError>
    ensures ok { OnOk result (out.new.items ≡ out.old.items ++ resolved_text resolved) }
    ensures err { OnErr result (out.new.items ≡ out.old.items) }
    ensures memory { OnErr result (vec_capacity out.old < vec_len out.old + length (resolved_text resolved)) }
    ensures capacity { vec_capacity out.old ≤ vec_capacity out.new }
{
    let printed = match resolved {
        Resolved::Committed(write, place) => Printed::Committed(write, place),
        Resolved::Aborted(write) => Printed::Aborted(write),
        Resolved::Undecided(write) => Printed::Undecided(write),
    };
    printed.write_to(id, out)
}

// Each of them; a part of them if there is no room for all.
fn print_each(id: u64, found: &[Resolved], out: &mut Vec<u8>) -> Result<(), AllocError>
    ensures ok { OnOk result (out.new.items ≡ out.old.items ++ flat_map resolved_text found.now) }
    ensures err { OnErr result ((part : List ℕ) × (out.new.items ≡ out.old.items ++ part)) }
    ensures memory { OnErr result (vec_capacity out.old < vec_len out.old + length (flat_map resolved_text found.now)) }
    ensures capacity { vec_capacity out.old ≤ vec_capacity out.new }
{
    for resolved in found {
        print_resolved(id, *resolved, out)?;
    }
    Ok(())
}

fn print_found(id: u64, found: &[Resolved], out: &mut Vec<u8>) -> Result<(), AllocError>
    ensures ok { OnOk result (out.new.items ≡ out.old.items ++ flat_map resolved_text found.now ++ done_line) }
    ensures err { OnErr result ((part : List ℕ) × (out.new.items ≡ out.old.items ++ part)) }
    ensures memory { OnErr result (vec_capacity out.old < vec_len out.old + length (flat_map resolved_text found.now ++ done_line)) }
    ensures capacity { vec_capacity out.old ≤ vec_capacity out.new }
{
    print_each(id, found, out)?;
    Printed::Done.write_to(id, out)
}

fn print_all(id: u64, found: &[Resolved], out: &mut Vec<u8>) -> Result<(), AllocError>
    ensures ok { OnOk result (out.new.items ≡ out.old.items ++ flat_map resolved_text found.now ++ done_line) }
    ensures err { OnErr result (out.new.items ≡ out.old.items) }
    ensures memory { OnErr result (vec_capacity out.old < vec_len out.old + length (flat_map resolved_text found.now ++ done_line)) }
    ensures capacity { vec_capacity out.old ≤ vec_capacity out.new }
{
    let start = out.len();
    match print_found(id, found, out) {
        Ok(()) => Ok(()),
        Err(error) => {
            out.truncate(start);
            Err(error)
        }
    }
}

fn print_end(id: u64, end: cluster::Answer, out: &mut Vec<u8>) -> Result<(), AllocError>
    ensures ok { OnOk result (out.new.items ≡ out.old.items ++ end_text id end) }
    ensures err { OnErr result (out.new.items ≡ out.old.items) }
    ensures memory { OnErr result (vec_capacity out.old < vec_len out.old + length (end_text id end)) }
    ensures capacity { vec_capacity out.old ≤ vec_capacity out.new }
{
    let answer = match end {
        cluster::Answer::Wrote(place) => Answer::Written(Written { place }),
        cluster::Answer::Selected(place, sets) => Answer::Rows(Rows { sets, place }),
        cluster::Answer::Checked(place, is_member) => {
            Answer::Membership(Membership { is_member, place })
        }
        cluster::Answer::Listed(heartbeat, events) => Answer::Events(Events { events, heartbeat }),
        cluster::Answer::Resolved(found) => return print_all(id, &found, out),
        cluster::Answer::Done => return Printed::Done.write_to(id, out),
    };
    Printed::Answer(&answer).write_to(id, out)
}

/// Prints what a step told, at the store with this id. Refused only if there is no room for all of it.
pub(crate) fn print_told(id: u64, told: Option<What>, out: &mut Vec<u8>) -> Result<(), AllocError>
    ensures ok { OnOk result (out.new.items ≡ out.old.items ++ told_text id told) }
    ensures err { OnErr result (out.new.items ≡ out.old.items) }
    ensures memory { OnErr result (vec_capacity out.old < vec_len out.old + length (told_text id told)) }
    ensures capacity { vec_capacity out.old ≤ vec_capacity out.new }
{
    match told {
        None | Some(What::Began(_)) => Ok(()),
        Some(What::Next(call)) => Printed::Next(call.name().as_bytes()).write_to(id, out),
        Some(What::Ended(end)) => print_end(id, end, out),
        Some(What::Up) => Printed::Up.write_to(id, out),
        Some(What::Refused(refusal)) => Printed::Refused(refusal).write_to(id, out),
    }
}

/// Prints that a store was carried over, or why it was not. Refused only if there is no room for all of it.
pub(crate) fn print_resharded(
    id: u64,
    told: Result<(), Refusal>,
    out: &mut Vec<u8>,
) -> Result<(), AllocError>
    ensures ok { OnOk result (out.new.items ≡ out.old.items ++ resharded_text told) }
    ensures err { OnErr result (out.new.items ≡ out.old.items) }
    ensures memory { OnErr result (vec_capacity out.old < vec_len out.old + length (resharded_text told)) }
    ensures capacity { vec_capacity out.old ≤ vec_capacity out.new }
{
    match told {
        Ok(()) => Printed::Done.write_to(id, out),
        Err(refusal) => Printed::Refused(refusal).write_to(id, out),
    }
}
