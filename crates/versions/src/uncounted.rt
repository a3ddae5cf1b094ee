// Reads whose rows nobody counts: each has a ledger of its own, which is let go.
ghost use Rattle.std.specs.Prelude.{◌≡◌, ◌+◌, ◌<◌, IfOk};
ghost use Rattle.tuples.specs.Reads.{IsSelection};
ghost use Rattle.tuples.specs.Versions.{there_at};
ghost use Rattle.tuples.specs.Walking.{IsCheckSelection};
ghost use Rattle.versions.specs.Budget.{weights};
ghost use Rattle.versions.specs.Index.{IsIndex};
ghost use Rattle.versions.specs.Rows.{IsTable, listed};

use crate::checking::asked_at;
use crate::history::is_there_at;
use crate::kept::kept_at;
use crate::rows::Rows;
use crate::table::rows_of;
use crate::{Budget, Steps};
use std::alloc::{AllocError, Global};
use std::collections::{BTreeMap, BTreeSet};
use std::sync::ledger::{Blank, Ledger};
use tuples::{Packed, PackedByUser, Tuple, Tupleset, User, Userset};

/// Whether the tuple is there at a place.
pub(crate) fn is_there<L: Ledger>(
    table: &BTreeMap<Packed, Rows>,
    alloc: Global,
    place: u64,
    tuple: &Tuple,
    blank: Blank,
) -> bool
    requires table { IsTable table.now.entries }
    requires name { blank.name ≡ L.name }
    requires parts { blank.parts ≡ L.parts }
    requires some { 0 < blank.parts }
    ensures { result ≡ there_at (listed table.now.entries) place tuple.now }
{
    let mut steps = Steps::<L>::new(blank);
    is_there_at(&rows_of(table, alloc, tuple), place, &mut steps)
}

/// Copies of the tuples that are there at a place and meet the tupleset, ascending.
pub(crate) fn kept<L: Ledger>(
    table: &BTreeMap<Packed, Rows>,
    users: &BTreeSet<PackedByUser>,
    alloc: Global,
    place: u64,
    set: &Tupleset,
    budget: &mut Budget,
    blank: Blank,
) -> Result<Vec<Tuple>, AllocError>
    requires table { IsTable table.now.entries }
    requires index { IsIndex users.now.keys table.now.entries }
    requires name { blank.name ≡ L.name }
    requires parts { blank.parts ≡ L.parts }
    requires some { 0 < blank.parts }
    ensures rows { IfOk result (λ tuples. IsSelection (there_at (listed table.now.entries) place) set.now tuples.items) }
    ensures counted { IfOk result (λ tuples. budget.new + weights tuples.items ≡ budget.old) }
{
    let mut steps = Steps::<L>::new(blank);
    kept_at(table, users, alloc, place, set, budget, &mut steps)
}

/// Copies of the tuples that are there at a place and by which the userset holds the user or a userset, ascending.
pub(crate) fn asked<L: Ledger>(
    table: &BTreeMap<Packed, Rows>,
    alloc: Global,
    place: u64,
    userset: &Userset,
    user: &User,
    budget: &mut Budget,
    blank: Blank,
) -> Result<Vec<Tuple>, AllocError>
    requires table { IsTable table.now.entries }
    requires name { blank.name ≡ L.name }
    requires parts { blank.parts ≡ L.parts }
    requires some { 0 < blank.parts }
    ensures rows { IfOk result (λ tuples. IsCheckSelection (there_at (listed table.now.entries) place) userset.now user.now tuples.items) }
    ensures counted { IfOk result (λ tuples. budget.new + weights tuples.items ≡ budget.old) }
{
    let mut steps = Steps::<L>::new(blank);
    asked_at(table, alloc, place, userset, user, budget, &mut steps)
}
