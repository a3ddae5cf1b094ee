// The rows of one tuple, mostly a single one.
ghost use Rattle.std.specs.Prelude.{◌≡◌, ◌==◌, ◌-◌, ◌++◌, ◌∷◌, ◌||◌, [], true, false, nat_lt, length, take, OnOk, OnErr, IfOk};
ghost use Rattle.versions.specs.Kept.{kept_rows, lent_rows};
ghost use Rattle.versions.specs.Rows.{rows_left};
ghost use Rattle.versions.specs.Walks.{with_one};

use crate::history::{Row, collect};
use std::alloc::{AllocError, Global};
use std::marker::Model;

// A single row lies in its value, and two or more in a list elsewhere.
#[derive(Drop)]
enum Kept {
    Empty,
    Touch(u64),
    Delete(u64),
    More(Box<Vec<Row>>),
}

/// The versions of one tuple, in the order in which they were applied. It has the room of two words.
#[derive(Drop)]
pub(crate) struct Rows {
    kept: Kept,
}

impl Model for Rows {
    ghost use Rattle.std.specs.Prelude.{List};
    ghost use Rattle.versions.specs.Kept.{kept_rows};
    ghost use Rattle.versions.specs.declared.history.Row.{Row as AnyRow};

    ghost Value = { List AnyRow };

    ghost view = { λ r. kept_rows r.kept };
}

/// Those versions, to be looked at.
#[derive(Clone, Copy)]
pub(crate) enum RowsRef<'a> {
    One([Row; 1]),
    List(&'a [Row]),
}

impl RowsRef<'_> {
    pub fn as_slice(&self) -> &[Row]
        ensures { result.now ≡ lent_rows self.now }
    {
        match self {
            RowsRef::One(rows) => rows,
            RowsRef::List(rows) => rows,
        }
    }
}

fn single(row: Row) -> Kept
    ensures { kept_rows result ≡ row ∷ [] }
{
    if row.is_touch {
        Kept::Touch(row.place)
    } else {
        Kept::Delete(row.place)
    }
}

fn both(alloc: Global, first: Row, second: Row) -> Result<Kept, AllocError>
    ensures { IfOk result (λ kept. kept_rows kept ≡ first ∷ second ∷ []) }
{
    let rows = Vec::from_slice(alloc, &[first, second])?;
    Ok(Kept::More(Box::new(alloc, rows)?))
}

fn touch(place: u64) -> Row
    ensures { result ≡ record { place = place; is_touch = true } }
{
    Row {
        place,
        is_touch: true,
    }
}

fn delete(place: u64) -> Row
    ensures { result ≡ record { place = place; is_touch = false } }
{
    Row {
        place,
        is_touch: false,
    }
}

fn stays(row: Row, horizon: u64) -> bool
    ensures { result ≡ (row.is_touch || nat_lt horizon row.place) }
{
    row.is_touch || horizon < row.place
}

// What is left of a single row under the horizon.
fn left_of(row: Row, horizon: u64) -> Kept
    ensures { kept_rows result ≡ rows_left horizon (row ∷ []) }
{
    if stays(row, horizon) {
        single(row)
    } else {
        Kept::Empty
    }
}

impl Rows {
    pub fn of(row: Row) -> Rows
        ensures { result ≡ row ∷ [] }
    {
        Rows { kept: single(row) }
    }

    pub fn lent(&self) -> RowsRef<'_>
        ensures { lent_rows result ≡ self.now }
    {
        match &self.kept {
            Kept::Empty => RowsRef::List(&[]),
            Kept::Touch(place) => RowsRef::One([touch(*place)]),
            Kept::Delete(place) => RowsRef::One([delete(*place)]),
            Kept::More(rows) => RowsRef::List(rows),
        }
    }

    /// The row that lies here, and those that lie elsewhere.
    pub fn parts(&self) -> (Option<Row>, &[Row])
        ensures { with_one result.0 result.1.now ≡ self.now }
    {
        match &self.kept {
            Kept::Empty => (None, &[]),
            Kept::Touch(place) => (Some(touch(*place)), &[]),
            Kept::Delete(place) => (Some(delete(*place)), &[]),
            Kept::More(rows) => (None, rows),
        }
    }

    pub fn is_empty(&self) -> bool
        ensures { result ≡ (length self.now == 0) }
    {
        self.lent().as_slice().is_empty()
    }

    /// Adds a version. If memory is refused, nothing has changed.
    pub fn push(&mut self, alloc: Global, row: Row) -> Result<(), AllocError>
        ensures ok { OnOk result (self.new ≡ self.old ++ row ∷ []) }
        ensures err { OnErr result (self.new ≡ self.old) }
    {
        match &mut self.kept {
            Kept::Empty => self.kept = single(row),
            Kept::Touch(place) => self.kept = both(alloc, touch(*place), row)?,
            Kept::Delete(place) => self.kept = both(alloc, delete(*place), row)?,
            Kept::More(rows) => rows.push(row)?,
        }
        Ok(())
    }

    /// Takes back the version that was added last.
    pub fn pop(&mut self)
        ensures { self.new ≡ take (length self.old - 1) self.old }
    {
        match &mut self.kept {
            Kept::Empty => {}
            Kept::Touch(_) | Kept::Delete(_) => self.kept = Kept::Empty,
            Kept::More(rows) => {
                let left = rows.len().saturating_sub(1);
                rows.truncate(left);
            }
        }
    }

    /// Forgets what lies under the horizon.
    #[tactic(auto, using(crate::proofs::Histories::none_left))]
    pub fn collect(&mut self, horizon: u64)
        ensures { self.new ≡ rows_left horizon self.old }
    {
        match &mut self.kept {
            Kept::Empty => {}
            Kept::Touch(place) => self.kept = left_of(touch(*place), horizon),
            Kept::Delete(place) => self.kept = left_of(delete(*place), horizon),
            Kept::More(rows) => {
                collect(rows, horizon);
                self.lie_in();
            }
        }
    }

    // A single row that is left of a list lies in the value again, and the list's memory is given back.
    fn lie_in(&mut self)
        ensures { self.new ≡ self.old }
    {
        if let Kept::More(rows) = &self.kept {
            if rows.len() == 1 {
                self.kept = single(rows[0]);
            }
        }
    }
}
