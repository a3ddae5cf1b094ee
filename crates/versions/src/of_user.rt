// The tuples of a namespace that name a user, by the index.
ghost use Rattle.std.specs.Prelude.{◌≡◌, ◌≤◌, ◌+◌, ◌++◌, ◌∷◌, [], IfOk, OnOk};
ghost use Rattle.tuples.specs.Reads.{IsSelection};
ghost use Rattle.tuples.specs.Versions.{there_at};
ghost use Rattle.tuples.specs.declared.tupleset.Tupleset.TheVariants.{OfUser as of_user};
ghost use Rattle.versions.specs.Budget.{weight, weights};
ghost use Rattle.versions.specs.Index.{IsFirstOf, IsIndex, count_met, is_of_user};
ghost use Rattle.versions.specs.Rows.{IsTable, listed};

use crate::asks::has_given;
use crate::first::first_of_user;
use crate::history::is_there_at;
use crate::rows::Rows;
use crate::table::rows_of;
use crate::{Budget, Steps};
use std::alloc::{AllocError, Global};
use std::collections::{BTreeMap, BTreeSet};
use std::sync::ledger::Ledger;
use tuples::{Namespace, Packed, PackedByUser, Relation, Tuple, User};

/// Which tuples are asked for: those in a namespace that name a user, with a relation if one is given.
#[derive(Clone, Copy)]
pub(crate) struct OfUser<'a> {
    pub namespace: &'a Namespace,
    pub user: &'a User,
    pub relation: &'a Option<Relation>,
}

/// Copies of those that are there at a place, ascending. Each row that is looked at is counted.
pub(crate) fn kept_of_user<L: Ledger>(
    table: &BTreeMap<Packed, Rows>,
    users: &BTreeSet<PackedByUser>,
    alloc: Global,
    place: u64,
    asked: OfUser,
    budget: &mut Budget,
    steps: &mut Steps<L>,
) -> Result<Vec<Tuple>, AllocError>
    requires table { IsTable table.now.entries }
    requires index { IsIndex users.now.keys table.now.entries }
    ensures rows { IfOk result (λ tuples. IsSelection (there_at (listed table.now.entries) place) (of_user asked.entry.namespace.now asked.entry.user.now asked.entry.relation.now) tuples.items) }
    ensures counted { IfOk result (λ tuples. budget.new + weights tuples.items ≡ budget.old) }
    ensures steps { steps.new ≤ steps.old + count_met (of_user asked.entry.namespace.now asked.entry.user.now asked.entry.relation.now) (listed table.now.entries) }
{
    let start = start_of(alloc, asked)?;
    let mut tuples = Vec::new(alloc);
    for named in users.range(start..) {
        let tuple = named.tuple(alloc)?;
        if !is_of(asked.namespace, asked.user, &tuple) {
            drop(tuple);
            return Ok(tuples);
        }
        if has_given(asked.relation, &tuple)
            && is_there_at(&rows_of(table, alloc, &tuple), place, steps)
        {
            push_counted(&mut tuples, budget, tuple)?;
        } else {
            drop(tuple);
        }
    }
    Ok(tuples)
}

// Where the tuples begin in the index.
fn start_of(alloc: Global, asked: OfUser) -> Result<PackedByUser, AllocError>
    ensures { IfOk result (λ start. IsFirstOf asked.entry.namespace.now asked.entry.user.now start) }
{
    let first = first_of_user(alloc, asked.namespace, asked.user)?;
    let start = PackedByUser::of(alloc, &first);
    drop(first);
    start
}

// Adds a tuple, which is counted.
fn push_counted(
    tuples: &mut Vec<Tuple>,
    budget: &mut Budget,
    tuple: Tuple,
) -> Result<(), AllocError>
    ensures { OnOk result ((tuples.new.items ≡ tuples.old.items ++ tuple ∷ []) × (budget.new + weight tuple ≡ budget.old)) }
{
    match budget.take(&tuple) {
        Ok(()) => Ok(tuples.push(tuple)?),
        Err(refused) => {
            drop(tuple);
            Err(refused)
        }
    }
}

// Whether the tuple is of the namespace and names the user.
#[tactic(auto, using(crate::proofs::Equal::same_namespace, crate::proofs::Equal::same_user))]
fn is_of(namespace: &Namespace, user: &User, tuple: &Tuple) -> bool
    ensures { result ≡ is_of_user namespace.now user.now tuple.now }
{
    tuple.object.namespace == *namespace && tuple.user == *user
}
