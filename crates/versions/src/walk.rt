// A walk over all versions.
ghost use Rattle.std.specs.Prelude.{◌≡◌, ◌∷◌, [], MatchOption};
ghost use Rattle.versions.specs.Rows.{listed, version_of, versions_of};
ghost use Rattle.versions.specs.Walks.{own_left, told_rows};

use crate::history::Row;
use crate::rows::Rows;
use std::collections::btree_map::Iter;
use std::marker::Model;
use tuples::Packed;

/// A tuple, and the rows of it that were not told yet.
#[derive(Clone, Copy)]
pub(crate) struct Own<'a> {
    pub tuple: &'a Packed,
    pub one: Option<Row>,
    pub rest: &'a [Row],
}

/// Versions that are told one after another, which contracts see as those that are left. None is copied.
#[derive(Drop)]
pub struct Walk<'a> {
    // of the tuple that is being told
    own: Option<Own<'a>>,
    entries: Iter<'a, Packed, Rows>,
}

impl<'a> Model for Walk<'a> {
    ghost use Rattle.std.specs.Prelude.{List, ◌++◌};
    ghost use Rattle.tuples.specs.declared.version.Version.{Version};
    ghost use Rattle.versions.specs.Rows.{listed};
    ghost use Rattle.versions.specs.Walks.{own_left};

    ghost Value = { List Version };

    ghost view = { λ w. own_left w.own ++ listed w.entries };
}

fn next_row<'a>(own: &mut Option<Own<'a>>) -> Option<(&'a Packed, Row)>
    ensures { MatchOption result ((own_left own.old ≡ []) × (own_left own.new ≡ [])) (λ x. own_left own.old ≡ version_of x.0.now x.1 ∷ own_left own.new) }
{
    let Some(Own { tuple, one, rest }) = *own else {
        return None;
    };
    if let Some(row) = one {
        *own = Some(Own {
            tuple,
            one: None,
            rest,
        });
        return Some((tuple, row));
    }
    let Some((row, rest)) = rest.split_first() else {
        return None;
    };
    *own = Some(Own {
        tuple,
        one: None,
        rest,
    });
    Some((tuple, *row))
}

// All rows of a tuple.
fn own_rows<'a>(tuple: &'a Packed, rows: &'a Rows) -> Own<'a>
    ensures { told_rows result ≡ versions_of tuple.now rows.now }
{
    let (one, rest) = rows.parts();
    Own { tuple, one, rest }
}

impl<'a> Walk<'a> {
    pub(crate) fn new(entries: Iter<'a, Packed, Rows>) -> Walk<'a>
        ensures { result ≡ listed entries.entry }
    {
        Walk { own: None, entries }
    }

    /// The next version, told by its tuple and its row.
    pub fn next(&mut self) -> Option<(&'a Packed, Row)>
        ensures { MatchOption result ((self.old ≡ []) × (self.new ≡ [])) (λ x. self.old ≡ version_of x.0.now x.1 ∷ self.new) }
    {
        loop {
            if let Some(told) = next_row(&mut self.own) {
                return Some(told);
            }
            let Some((tuple, rows)) = self.entries.next() else {
                return None;
            };
            self.own = Some(own_rows(tuple, rows));
        }
    }
}
