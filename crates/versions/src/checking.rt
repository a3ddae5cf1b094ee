// What a check asks of a userset: whether it holds the user, and which usersets it holds.
ghost use Rattle.std.specs.Prelude.{◌≡◌, ◌+◌, ◌∷◌, false, IfOk, IfSome, if◌then◌else◌};
ghost use Rattle.tuples.specs.Checking.{holding as holding_of};
ghost use Rattle.tuples.specs.Versions.{there_at};
ghost use Rattle.tuples.specs.Walking.{IsCheckSelection, is_set as is_userset};
ghost use Rattle.versions.specs.Budget.{weights};
ghost use Rattle.versions.specs.Rows.{IsTable, listed};

use crate::asks::{is_asked, is_of};
use crate::first::first_set_of;
use crate::history::is_there_at;
use crate::kept::kept_from;
use crate::rows::Rows;
use crate::table::{pack, rows_of};
use crate::{Budget, Steps};
use std::alloc::{AllocError, Global};
use std::collections::BTreeMap;
use std::sync::ledger::Ledger;
use tuples::{Packed, Tuple, User, Userset};

// How many other plain users are passed from the user on before the first userset is searched for.
const MOST_PASSED: u8 = 16;

/// Copies of the tuples that are there at a place and by which the userset holds the user or a userset, ascending.
pub(crate) fn asked_at<L: Ledger>(
    table: &BTreeMap<Packed, Rows>,
    alloc: Global,
    place: u64,
    userset: &Userset,
    user: &User,
    budget: &mut Budget,
    steps: &mut Steps<L>,
) -> Result<Vec<Tuple>, AllocError>
    requires { IsTable table.now.entries }
    ensures rows { IfOk result (λ tuples. IsCheckSelection (there_at (listed table.now.entries) place) userset.now user.now tuples.items) }
    ensures counted { IfOk result (λ tuples. budget.new + weights tuples.items ≡ budget.old) }
{
    if let User::Id(_) = user {
        let before = budget.left();
        // Mostly few users stand between, and to pass these takes less than to search once more.
        if let Some(tuples) = nearby(table, alloc, place, userset, user, budget, steps)? {
            return Ok(tuples);
        }
        // What it copied was let go.
        *budget = Budget::of(before);
    }
    searched(table, alloc, place, userset, user, budget, steps)
}

// By one search for a plain user, and from there on; none if many other plain users stand between the user and the usersets.
fn nearby<L: Ledger>(
    table: &BTreeMap<Packed, Rows>,
    alloc: Global,
    place: u64,
    userset: &Userset,
    user: &User,
    budget: &mut Budget,
    steps: &mut Steps<L>,
) -> Result<Option<Vec<Tuple>>, AllocError>
    requires table { IsTable table.now.entries }
    requires plain { is_userset user.now ≡ false }
    ensures rows { IfOk result (λ found. IfSome found (λ tuples. IsCheckSelection (there_at (listed table.now.entries) place) userset.now user.now tuples.items)) }
    ensures counted { IfOk result (λ found. IfSome found (λ tuples. budget.new + weights tuples.items ≡ budget.old)) }
{
    let first = pack(alloc, holding(userset, user)?)?;
    let mut tuples = Vec::new(alloc);
    let mut passed = 0u8;
    for (tuple, rows) in table.range(first..) {
        let parts = tuple.parts();
        if !is_of(userset, &parts) {
            return Ok(Some(tuples));
        }
        if is_asked(user, &parts) {
            if is_there_at(&rows.lent(), place, steps) {
                tuples.push(budget.copy(alloc, tuple)?)?;
            }
        } else {
            if passed == MOST_PASSED {
                return Ok(None);
            }
            passed = passed.saturating_add(1);
        }
    }
    Ok(Some(tuples))
}

// By a search for the usersets, and one for a plain user.
fn searched<L: Ledger>(
    table: &BTreeMap<Packed, Rows>,
    alloc: Global,
    place: u64,
    userset: &Userset,
    user: &User,
    budget: &mut Budget,
    steps: &mut Steps<L>,
) -> Result<Vec<Tuple>, AllocError>
    requires { IsTable table.now.entries }
    ensures rows { IfOk result (λ tuples. IsCheckSelection (there_at (listed table.now.entries) place) userset.now user.now tuples.items) }
    ensures counted { IfOk result (λ tuples. budget.new + weights tuples.items ≡ budget.old) }
{
    // A plain user stands before all usersets, so other plain users are not met.
    let first = pack(alloc, first_set_of(alloc, userset)?)?;
    let sets = kept_from(table, alloc, place, userset, first, budget, steps)?;
    match user {
        User::Id(_) => {
            with_user(
                table,
                alloc,
                place,
                holding(userset, user)?,
                sets,
                budget,
                steps,
            )
        },
        User::Set(_) => Ok(sets),
    }
}

// The tuple if it is there, and then these.
fn with_user<L: Ledger>(
    table: &BTreeMap<Packed, Rows>,
    alloc: Global,
    place: u64,
    tuple: Tuple,
    mut sets: Vec<Tuple>,
    budget: &mut Budget,
    steps: &mut Steps<L>,
) -> Result<Vec<Tuple>, AllocError>
    requires { IsTable table.now.entries }
    ensures rows { IfOk result (λ tuples. tuples.items ≡ (if there_at (listed table.now.entries) place tuple then tuple ∷ sets.items else sets.items)) }
    ensures counted { IfOk result (λ tuples. budget.new + weights tuples.items ≡ budget.old + weights sets.items) }
{
    if !is_there_at(&rows_of(table, alloc, &tuple), place, steps) {
        return Ok(sets);
    }
    budget.take(&tuple)?;
    sets.insert(0, tuple)?;
    Ok(sets)
}

// The tuple by which the userset holds the user.
fn holding(userset: &Userset, user: &User) -> Result<Tuple, AllocError>
    ensures { IfOk result (λ tuple. tuple ≡ holding_of userset.now user.now) }
{
    Ok(Tuple {
        object: userset.object.clone()?,
        relation: userset.relation.clone()?,
        user: user.clone()?,
    })
}
