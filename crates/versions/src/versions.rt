// The versions of tuples, as a table of tuples.
ghost use Rattle.std.specs.Prelude.{◌≡◌, ◌≤◌, ◌+◌, ◌++◌, [], OnOk, OnErr, IfOk};
ghost use Rattle.tuples.specs.Versions.{collected, last_version, placed, there_at};
ghost use Rattle.tuples.specs.Reads.{IsSelection};
ghost use Rattle.tuples.specs.Walking.{IsCheckSelection};
ghost use Rattle.versions.specs.Alike.{AlikeReadsAlike, AreAlike};
ghost use Rattle.versions.specs.Budget.{weights};
ghost use Rattle.versions.specs.Index.{count_met};
ghost use Rattle.versions.specs.Last.{NewestIsLast};
ghost use Rattle.versions.specs.Placed.{all_placed};
ghost use Rattle.versions.specs.Rows.{AreRows, listed};
ghost use Rattle.versions.specs.Walks.{IsInOrder};

use crate::history::last_place;
use crate::kept::kept_at;
use crate::listing::list;
use crate::rows::Rows;
use crate::{Budget, PlacedChanges, Steps, Walk, applying, table, uncounted};
use std::alloc::{AllocError, Global};
use std::collections::{BTreeMap, BTreeSet};
use std::marker::{Brand, Model};
use std::sync::ledger::{Blank, Ledger};
use tuples::{Change, Packed, PackedByUser, Tuple, Tupleset, User, Userset, Version};

/// The versions of tuples, which contracts see as a list. Of it only the order within one tuple is promised.
///
/// A tuple, an object, an object with a relation, and the tuples of a namespace that name a user are found in logarithmic time.
#[derive(Drop)]
pub struct Versions {
    alloc: Global,
    rows: BTreeMap<Packed, Rows>,
    // the same tuples, in the order of namespaces and users
    users: BTreeSet<PackedByUser>,
}

impl Model for Versions {
    ghost use Rattle.std.specs.Prelude.{List};
    ghost use Rattle.tuples.specs.declared.version.Version.{Version};
    ghost use Rattle.versions.specs.Index.{IsIndex};
    ghost use Rattle.versions.specs.Rows.{IsTable, listed};

    ghost Value = { List Version };

    ghost view = { λ v. listed v.rows.entries };

    ghost invariant = { λ v. IsTable v.rows.entries × IsIndex v.users.keys v.rows.entries };
}

impl Versions {
    /// No versions, which takes no memory.
    pub fn new(alloc: Global) -> Self
        ensures { result ≡ [] }
    {
        Versions {
            alloc,
            rows: BTreeMap::new(alloc),
            users: BTreeSet::new(alloc),
        }
    }

    /// Adds the changes of a write at its place. If memory is refused, nothing has changed.
    pub fn apply(&mut self, place: u64, changes: &[Change]) -> Result<(), AllocError>
        ensures ok { OnOk result (AreAlike self.new (self.old ++ placed place changes.now)) }
        ensures err { OnErr result (self.new ≡ self.old) }
    {
        applying::apply(&mut self.rows, &mut self.users, self.alloc, place, changes)
    }

    /// The place of the newest version of the tuple, or 0.
    pub fn last(&self, tuple: &Tuple) -> u64
        ensures { result ≡ last_version self.now tuple.now }
    {
        last_place(table::rows_of(&self.rows, self.alloc, tuple).as_slice())
    }

    /// Adds the changes of these writes, each at its place. If memory is refused, nothing has changed.
    pub fn apply_all(&mut self, writes: &[PlacedChanges]) -> Result<(), AllocError>
        ensures ok { OnOk result (AreAlike self.new (self.old ++ all_placed writes.now)) }
        ensures err { OnErr result (self.new ≡ self.old) }
    {
        applying::apply_all(&mut self.rows, &mut self.users, self.alloc, writes)
    }

    /// Forgets what lies under the horizon: versions at or below it that another such version of their tuple follows, and deletions.
    pub fn collect(&mut self, horizon: u64)
        ensures { AreAlike self.new (collected horizon self.old) }
    {
        table::collect(&mut self.rows, &mut self.users, self.alloc, horizon);
    }

    /// Whether the tuple is there at a place.
    pub fn is_there(&self, place: u64, tuple: &Tuple) -> bool
        ensures { result ≡ there_at self.now place tuple.now }
    {
        uncounted::is_there::<Brand>(&self.rows, self.alloc, place, tuple, Blank::new(1))
    }

    /// The tuples that are there at a place and meet the tupleset, ascending. Each is counted: what the budget has no bytes for is refused.
    pub fn at(
        &self,
        alloc: Global,
        place: u64,
        set: &Tupleset,
        budget: &mut Budget,
    ) -> Result<Vec<Tuple>, AllocError>
        ensures rows { IfOk result (λ tuples. IsSelection (there_at self.now place) set.now tuples.items) }
        ensures counted { IfOk result (λ tuples. budget.new + weights tuples.items ≡ budget.old) }
    {
        uncounted::kept::<Brand>(
            &self.rows,
            &self.users,
            alloc,
            place,
            set,
            budget,
            Blank::new(1),
        )
    }

    /// What `at` gives, with one step counted for each row that is looked at: those of the tuples that meet the tupleset, and no others.
    pub fn at_counted<L: Ledger>(
        &self,
        alloc: Global,
        place: u64,
        set: &Tupleset,
        budget: &mut Budget,
        steps: &mut Steps<L>,
    ) -> Result<Vec<Tuple>, AllocError>
        ensures rows { IfOk result (λ tuples. IsSelection (there_at self.now place) set.now tuples.items) }
        ensures counted { IfOk result (λ tuples. budget.new + weights tuples.items ≡ budget.old) }
        ensures steps { steps.new ≤ steps.old + count_met set.now self.now }
    {
        kept_at(&self.rows, &self.users, alloc, place, set, budget, steps)
    }

    /// The tuples that are there at a place and that a check asks of a userset, ascending: that of the user, and those of usersets. Each is counted.
    pub fn asked_at(
        &self,
        alloc: Global,
        place: u64,
        userset: &Userset,
        user: &User,
        budget: &mut Budget,
    ) -> Result<Vec<Tuple>, AllocError>
        ensures rows { IfOk result (λ tuples. IsCheckSelection (there_at self.now place) userset.now user.now tuples.items) }
        ensures counted { IfOk result (λ tuples. budget.new + weights tuples.items ≡ budget.old) }
    {
        uncounted::asked::<Brand>(
            &self.rows,
            alloc,
            place,
            userset,
            user,
            budget,
            Blank::new(1),
        )
    }

    /// All versions, by tuple, each tuple's in the order in which they were applied. Nothing is copied.
    pub fn walk(&self) -> Walk<'_>
        ensures all { result ≡ self.now }
        ensures in_order { IsInOrder self.now }
    {
        Walk::new(self.rows.iter())
    }

    /// Copies of all versions, by tuple and then by place.
    pub fn rows(&self, alloc: Global) -> Result<Vec<Version>, AllocError>
        ensures { IfOk result (λ v. AreRows self.now v.items) }
    {
        list(&self.rows, alloc)
    }
}

/// Versions of different tuples may stand in any order: what is read of them is the same.
pub fn read_alike()
    ensures { AlikeReadsAlike }
{}

/// Above the horizon the newest version of a tuple lies at its last place in the log: `last` is that place, or it is no greater than the horizon
/// if the log has not changed the tuple since.
pub fn newest_is_last()
    ensures { NewestIsLast }
{}
