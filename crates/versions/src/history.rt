// The versions of one tuple, in the order in which they were applied.
ghost use Rattle.std.specs.Prelude.{◌≡◌, ◌+◌, IfOk, length};
ghost use Rattle.tuples.specs.Changes.{tuple_of};
ghost use Rattle.tuples.specs.Versions.{last_version, there_at};
ghost use Rattle.tuples.specs.declared.tuple.Tuple.{Tuple as AnyTuple};
ghost use Rattle.versions.specs.Kept.{lent_rows};
ghost use Rattle.versions.specs.Rows.{newest_under, rows_left, version_of, versions_of};

use crate::Steps;
use crate::rows::RowsRef;
use std::alloc::{AllocError, Global};
use std::sync::ledger::Ledger;
use tuples::{Change, Packed, Version};

/// A version of a tuple: the place of the change, and whether it touches the tuple or deletes it.
#[derive(Clone, Copy, Drop)]
pub struct Row {
    pub place: u64,
    pub is_touch: bool,
}

impl Row {
    /// The row of a change at a place.
    pub fn new(place: u64, change: &Change) -> Row
        ensures { version_of (tuple_of change.now) result ≡ record { place = place; change = change.now } }
    {
        Row {
            place,
            is_touch: matches!(change, Change::Touch(_)),
        }
    }

    /// The version of the tuple that the row stands for, with a copy of the tuple.
    pub fn version(&self, alloc: Global, packed: &Packed) -> Result<Version, AllocError>
        ensures { IfOk result (λ v. v ≡ version_of packed.now self.now) }
    {
        let tuple = packed.tuple(alloc)?;
        let change = if self.is_touch {
            Change::Touch(tuple)
        } else {
            Change::Delete(tuple)
        };
        Ok(Version {
            place: self.place,
            change,
        })
    }
}

/// The greatest place, or 0.
pub(crate) fn last_place(rows: &[Row]) -> u64
    ensures { (t : AnyTuple) → result ≡ last_version (versions_of t rows.now) t }
{
    let mut last = 0;
    for row in rows {
        last = last.max(row.place);
    }
    last
}

/// Whether the tuple is there at a place; each row that is looked at is counted.
pub(crate) fn is_there_at<L: Ledger>(rows: &RowsRef<'_>, place: u64, steps: &mut Steps<L>) -> bool
    ensures there { (t : AnyTuple) → result ≡ there_at (versions_of t (lent_rows rows.now)) place t }
    ensures steps { steps.new ≡ steps.old + length (lent_rows rows.now) }
{
    is_touched_at(rows.as_slice(), place, steps)
}

fn is_touched_at<L: Ledger>(rows: &[Row], place: u64, steps: &mut Steps<L>) -> bool
    ensures there { (t : AnyTuple) → result ≡ there_at (versions_of t rows.now) place t }
    ensures steps { steps.new ≡ steps.old + length rows.now }
{
    let mut there = false;
    for row in rows {
        steps.tick();
        if row.place <= place {
            there = row.is_touch;
        }
    }
    there
}

/// Forgets what lies under the horizon.
pub(crate) fn collect(rows: &mut Vec<Row>, horizon: u64)
    ensures { rows.new.items ≡ rows_left horizon rows.old.items }
{
    let newest = newest_place_under(rows, horizon);
    rows.retain(|row| horizon < row.place || (row.is_touch && newest <= row.place));
}

// the greatest place at or below the horizon, or 0
fn newest_place_under(rows: &[Row], horizon: u64) -> u64
    ensures { result ≡ newest_under horizon rows.now }
{
    let mut newest = 0;
    for row in rows {
        if row.place <= horizon {
            newest = newest.max(row.place);
        }
    }
    newest
}
