// The tuples of a table that are there at a place, in the order of tuples.
ghost use Rattle.std.specs.Prelude.{◌≡◌, ◌≤◌, ◌+◌, IfOk};
ghost use Rattle.tuples.specs.Reads.{IsSelection};
ghost use Rattle.tuples.specs.Versions.{there_at};
ghost use Rattle.versions.specs.Budget.{weights};
ghost use Rattle.versions.specs.Index.{IsIndex, count_met, count_of};
ghost use Rattle.versions.specs.Rows.{IsFirst, IsPicked, IsTable, listed};

use crate::asks::Asks;
use crate::first::first_of;
use crate::history::is_there_at;
use crate::of_user::{OfUser, kept_of_user};
use crate::rows::Rows;
use crate::table::pack;
use crate::{Budget, Steps};
use std::alloc::{AllocError, Global};
use std::collections::{BTreeMap, BTreeSet};
use std::sync::ledger::Ledger;
use tuples::{Packed, PackedByUser, Tuple, Tupleset};

/// Copies of the tuples that are there at a place and meet the tupleset, ascending. Each row that is looked at is counted.
pub(crate) fn kept_at<L: Ledger>(
    table: &BTreeMap<Packed, Rows>,
    users: &BTreeSet<PackedByUser>,
    alloc: Global,
    place: u64,
    set: &Tupleset,
    budget: &mut Budget,
    steps: &mut Steps<L>,
) -> Result<Vec<Tuple>, AllocError>
    requires table { IsTable table.now.entries }
    requires index { IsIndex users.now.keys table.now.entries }
    ensures rows { IfOk result (λ tuples. IsSelection (there_at (listed table.now.entries) place) set.now tuples.items) }
    ensures counted { IfOk result (λ tuples. budget.new + weights tuples.items ≡ budget.old) }
    ensures steps { steps.new ≤ steps.old + count_met set.now (listed table.now.entries) }
{
    match set {
        Tupleset::Key(key) => {
            let first = Packed::of(alloc, key)?;
            kept_from(table, alloc, place, set, first, budget, steps)
        }
        Tupleset::OfObject(object, relation) => {
            let first = pack(alloc, first_of(alloc, object, relation)?)?;
            kept_from(table, alloc, place, set, first, budget, steps)
        }
        Tupleset::OfUser(namespace, user, relation) => {
            let asked = OfUser {
                namespace,
                user,
                relation,
            };
            kept_of_user(table, users, alloc, place, asked, budget, steps)
        }
    }
}

/// Copies of the tuples that are there at a place and asked for, ascending. Those that are asked for stand side by side, from the first on.
pub(crate) fn kept_from<Q: Asks, L: Ledger>(
    table: &BTreeMap<Packed, Rows>,
    alloc: Global,
    place: u64,
    asked: &Q,
    first: Packed,
    budget: &mut Budget,
    steps: &mut Steps<L>,
) -> Result<Vec<Tuple>, AllocError>
    requires table { IsTable table.now.entries }
    requires first { IsFirst (Q.asks asked.now) first }
    ensures rows { IfOk result (λ tuples. IsPicked (there_at (listed table.now.entries) place) (Q.asks asked.now) tuples.items) }
    ensures counted { IfOk result (λ tuples. budget.new + weights tuples.items ≡ budget.old) }
    ensures steps { steps.new ≤ steps.old + count_of (Q.asks asked.now) (listed table.now.entries) }
{
    let mut tuples = Vec::new(alloc);
    for (tuple, rows) in table.range(first..) {
        if !asked.asks_for(tuple) {
            return Ok(tuples);
        }
        if is_there_at(&rows.lent(), place, steps) {
            tuples.push(budget.copy(alloc, tuple)?)?;
        }
    }
    Ok(tuples)
}
