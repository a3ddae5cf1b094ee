// Changes that are added to a table all together, or not at all.
ghost use Rattle.std.specs.Prelude.{◌≡◌, ◌≤◌, ◌++◌, List, ℕ, take, length, OnOk, OnErr, IfErr};
ghost use Rattle.tuples.specs.Versions.{placed};
ghost use Rattle.tuples.specs.declared.version.Version.{Version as AnyVersion};
ghost use Rattle.versions.specs.Alike.{AreAlike};
ghost use Rattle.versions.specs.Placed.{all_placed};
ghost use Rattle.versions.specs.Index.{IsIndex};
ghost use Rattle.versions.specs.Rows.{IsTable, listed};

use crate::PlacedChanges;
use crate::history::Row;
use crate::rows::Rows;
use crate::table::{add, take_back};
use std::alloc::{AllocError, Global};
use std::collections::{BTreeMap, BTreeSet};
use tuples::{Change, Packed, PackedByUser};

/// Adds the changes of a write at its place. If memory is refused, nothing has changed.
pub(crate) fn apply(
    table: &mut BTreeMap<Packed, Rows>,
    users: &mut BTreeSet<PackedByUser>,
    alloc: Global,
    place: u64,
    changes: &[Change],
) -> Result<(), AllocError>
    requires table { IsTable table.old.entries }
    requires index { IsIndex users.old.keys table.old.entries }
    ensures table { IsTable table.new.entries }
    ensures index { IsIndex users.new.keys table.new.entries }
    ensures ok { OnOk result (AreAlike (listed table.new.entries) (listed table.old.entries ++ placed place changes.now)) }
    ensures err { OnErr result (listed table.new.entries ≡ listed table.old.entries) }
{
    if let Err(added) = add_changes(table, users, alloc, place, changes) {
        take_back_changes(table, users, alloc, &changes[..added]);
        return Err(AllocError);
    }
    Ok(())
}

// If memory is refused, so many of the first changes were added.
fn add_changes(
    table: &mut BTreeMap<Packed, Rows>,
    users: &mut BTreeSet<PackedByUser>,
    alloc: Global,
    place: u64,
    changes: &[Change],
) -> Result<(), usize>
    requires table { IsTable table.old.entries }
    requires index { IsIndex users.old.keys table.old.entries }
    ensures table { IsTable table.new.entries }
    ensures index { IsIndex users.new.keys table.new.entries }
    ensures ok { OnOk result (AreAlike (listed table.new.entries) (listed table.old.entries ++ placed place changes.now)) }
    ensures few { IfErr result (λ n. n ≤ length changes.now) }
    ensures err { IfErr result (λ n. AreAlike (listed table.new.entries) (listed table.old.entries ++ placed place (take n changes.now))) }
{
    let mut added = 0;
    for change in changes {
        let row = Row::new(place, change);
        if add(table, users, alloc, change.tuple(), row).is_err() {
            return Err(added);
        }
        added += 1;
    }
    Ok(())
}

fn take_back_changes(
    table: &mut BTreeMap<Packed, Rows>,
    users: &mut BTreeSet<PackedByUser>,
    alloc: Global,
    changes: &[Change],
)
    requires table { IsTable table.old.entries }
    requires index { IsIndex users.old.keys table.old.entries }
    ensures table { IsTable table.new.entries }
    ensures index { IsIndex users.new.keys table.new.entries }
    ensures versions { (before : List AnyVersion) (place : ℕ) → AreAlike (listed table.old.entries) (before ++ placed place changes.now) → AreAlike (listed table.new.entries) before }
{
    let mut left = changes.len();
    while left > 0 {
        left -= 1;
        take_back(table, users, alloc, changes[left].tuple());
    }
}

/// Adds the changes of these writes, each at its place. If memory is refused, nothing has changed.
pub(crate) fn apply_all(
    table: &mut BTreeMap<Packed, Rows>,
    users: &mut BTreeSet<PackedByUser>,
    alloc: Global,
    writes: &[PlacedChanges],
) -> Result<(), AllocError>
    requires table { IsTable table.old.entries }
    requires index { IsIndex users.old.keys table.old.entries }
    ensures table { IsTable table.new.entries }
    ensures index { IsIndex users.new.keys table.new.entries }
    ensures ok { OnOk result (AreAlike (listed table.new.entries) (listed table.old.entries ++ all_placed writes.now)) }
    ensures err { OnErr result (listed table.new.entries ≡ listed table.old.entries) }
{
    if let Err(applied) = apply_each(table, users, alloc, writes) {
        take_back_each(table, users, alloc, &writes[..applied]);
        return Err(AllocError);
    }
    Ok(())
}

// If memory is refused, so many of the first writes were applied.
fn apply_each(
    table: &mut BTreeMap<Packed, Rows>,
    users: &mut BTreeSet<PackedByUser>,
    alloc: Global,
    writes: &[PlacedChanges],
) -> Result<(), usize>
    requires table { IsTable table.old.entries }
    requires index { IsIndex users.old.keys table.old.entries }
    ensures table { IsTable table.new.entries }
    ensures index { IsIndex users.new.keys table.new.entries }
    ensures ok { OnOk result (AreAlike (listed table.new.entries) (listed table.old.entries ++ all_placed writes.now)) }
    ensures few { IfErr result (λ n. n ≤ length writes.now) }
    ensures err { IfErr result (λ n. AreAlike (listed table.new.entries) (listed table.old.entries ++ all_placed (take n writes.now))) }
{
    let mut applied = 0;
    for write in writes {
        if apply(table, users, alloc, write.place, write.changes).is_err() {
            return Err(applied);
        }
        applied += 1;
    }
    Ok(())
}

fn take_back_each(
    table: &mut BTreeMap<Packed, Rows>,
    users: &mut BTreeSet<PackedByUser>,
    alloc: Global,
    writes: &[PlacedChanges],
)
    requires table { IsTable table.old.entries }
    requires index { IsIndex users.old.keys table.old.entries }
    ensures table { IsTable table.new.entries }
    ensures index { IsIndex users.new.keys table.new.entries }
    ensures versions { (before : List AnyVersion) → AreAlike (listed table.old.entries) (before ++ all_placed writes.now) → AreAlike (listed table.new.entries) before }
{
    let mut left = writes.len();
    while left > 0 {
        left -= 1;
        take_back_changes(table, users, alloc, writes[left].changes);
    }
}
