// writes and what is learned of them at the end of a vector.
ghost use Rattle.std.specs.Prelude.{◌<◌, ◌≤◌, ◌∷◌, ◌++◌, false, length};
ghost use Rattle.std.specs.List.{flat_map};
ghost use Rattle.std.specs.Int.{w16, to_be_bytes};
ghost use Rattle.records.specs.Format.{change_bytes, condition_bytes, entry_bytes, id_bytes, max_placed_ids, placed_id_bytes, want_bytes};
ghost use Rattle.tuples.specs.Limits.{max_changes, max_conditions};
ghost use Rattle.records.specs.Putting.{Puts};

use crate::PlacedId;
use crate::format::{ABSENT, DELETE, EXISTS, NOT_AFTER, TOUCH};
use crate::put::{put_byte, put_u16, put_u64};
use crate::put_tuple::put_tuple;
use std::alloc::AllocError;
use tuples::{Change, Condition, Entry, Want, WriteId};

pub(crate) fn put_write_id(out: &mut Vec<u8>, id: &WriteId) -> Result<(), AllocError>
    ensures { Puts out.old out.new (id_bytes id.now) result }
{
    put_u64(out, id.epoch)?;
    put_u64(out, id.number)
}

pub(crate) fn put_change(out: &mut Vec<u8>, change: &Change) -> Result<(), AllocError>
    ensures { Puts out.old out.new (change_bytes change.now) result }
{
    match change {
        Change::Touch(tuple) => {
            put_byte(out, TOUCH)?;
            put_tuple(out, &tuple.parts())
        }
        Change::Delete(tuple) => {
            put_byte(out, DELETE)?;
            put_tuple(out, &tuple.parts())
        }
    }
}

fn put_want(out: &mut Vec<u8>, want: &Want) -> Result<(), AllocError>
    ensures { Puts out.old out.new (want_bytes false want.now) result }
{
    match want {
        Want::NotAfter(place) => {
            put_byte(out, NOT_AFTER)?;
            put_u64(out, *place)
        }
        Want::Exists => put_byte(out, EXISTS),
        Want::Absent => put_byte(out, ABSENT),
    }
}

fn put_condition(out: &mut Vec<u8>, condition: &Condition) -> Result<(), AllocError>
    ensures { Puts out.old out.new (condition_bytes false condition.now) result }
{
    put_tuple(out, &condition.tuple.parts())?;
    put_want(out, &condition.want)
}

fn put_each_change(out: &mut Vec<u8>, changes: &[Change]) -> Result<(), AllocError>
    ensures { Puts out.old out.new (flat_map change_bytes changes.now) result }
{
    for change in changes {
        put_change(out, change)?;
    }
    Ok(())
}

fn put_each_condition(out: &mut Vec<u8>, conditions: &[Condition]) -> Result<(), AllocError>
    ensures { Puts out.old out.new (flat_map (condition_bytes false) conditions.now) result }
{
    for condition in conditions {
        put_condition(out, condition)?;
    }
    Ok(())
}

fn put_changes(out: &mut Vec<u8>, changes: &[Change]) -> Result<(), AllocError>
    requires { length changes.now ≤ max_changes }
    ensures { Puts out.old out.new (length changes.now ∷ flat_map change_bytes changes.now) result }
{
    put_byte(out, changes.len() as u8)?;
    put_each_change(out, changes)
}

fn put_conditions(out: &mut Vec<u8>, conditions: &[Condition]) -> Result<(), AllocError>
    requires { length conditions.now ≤ max_conditions }
    ensures { Puts out.old out.new (length conditions.now ∷ flat_map (condition_bytes false) conditions.now) result }
{
    put_byte(out, conditions.len() as u8)?;
    put_each_condition(out, conditions)
}

pub(crate) fn put_entry(out: &mut Vec<u8>, entry: &Entry) -> Result<(), AllocError>
    requires few_changes { length entry.now.changes ≤ max_changes }
    requires few_conditions { length entry.now.conditions ≤ max_conditions }
    ensures { Puts out.old out.new (entry_bytes false entry.now) result }
{
    put_write_id(out, &entry.id)?;
    put_changes(out, entry.changes.as_slice())?;
    put_conditions(out, entry.conditions.as_slice())
}

fn put_placed_id(out: &mut Vec<u8>, placed_id: &PlacedId) -> Result<(), AllocError>
    ensures { Puts out.old out.new (placed_id_bytes placed_id.now) result }
{
    put_write_id(out, &placed_id.id)?;
    put_u64(out, placed_id.place)
}

fn put_each_placed_id(out: &mut Vec<u8>, placed_ids: &[PlacedId]) -> Result<(), AllocError>
    ensures { Puts out.old out.new (flat_map placed_id_bytes placed_ids.now) result }
{
    for placed_id in placed_ids {
        put_placed_id(out, placed_id)?;
    }
    Ok(())
}

pub(crate) fn put_placed_ids(out: &mut Vec<u8>, placed_ids: &[PlacedId]) -> Result<(), AllocError>
    requires { length placed_ids.now ≤ max_placed_ids }
    ensures { Puts out.old out.new (to_be_bytes w16 (length placed_ids.now) ++ flat_map placed_id_bytes placed_ids.now) result }
{
    put_u16(out, placed_ids.len() as u16)?;
    put_each_placed_id(out, placed_ids)
}
