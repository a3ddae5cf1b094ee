// The usersets that a check meets: those that it has walked, and those that wait.
ghost use Rattle.std.specs.Prelude.{◌≡◌, ◌≢◌, ◌↔◌, ◌∷◌, ◌++◌, [], List, length, Some, IfOk, OnOk, IsTrue, Contains, slice_get, option_copied};
ghost use Rattle.tuples.specs.declared.object.Userset.{Userset as AnyUserset};
ghost use Rattle.tuples.specs.declared.user.User.TheVariants.{Set};
ghost use Rattle.tuples.specs.Checking.{holding};
ghost use Rattle.answer_flow.specs.Walking.{IsWalk, IsWalked, LetsWait, Meets};

use std::alloc::{AllocError, Global};
use std::collections::{BTreeSet, VecDeque};
use std::marker::Model;
use tuples::{Tuple, User, Userset};

// What a check has met.
#[derive(Drop)]
struct Usersets {
    walked: Vec<Userset>,
    waiting: VecDeque<Userset>,
    // all of them, which makes it cheap to tell whether one was met
    met: BTreeSet<Userset>,
}

/// Each userset was met once. They lie in memory of their own, since a check hands them from phase to phase.
#[derive(Drop)]
pub(crate) struct Walk {
    usersets: Box<Usersets>,
}

impl Model for Walk {
    ghost use Rattle.std.specs.Prelude.{◌++◌};
    ghost use Rattle.answer_flow.specs.Walking.{IsWalk, WalkValue};

    ghost Value = { WalkValue };

    ghost view = { λ w. record { walked = w.usersets.value.walked.items; waiting = w.usersets.value.waiting.items } };

    ghost invariant = { λ w. IsWalk w.usersets.value.met.keys (w.usersets.value.walked.items ++ w.usersets.value.waiting.items) };
}

fn copied(userset: &Userset) -> Result<Userset, AllocError>
    ensures { IfOk result (λ copy. copy ≡ userset.now) }
{
    userset.clone()
}

// Lets it wait, unless it was met before.
fn meet(
    met: &mut BTreeSet<Userset>,
    waiting: &mut VecDeque<Userset>,
    userset: &Userset,
) -> Result<(), AllocError>
    ensures { OnOk result (Meets met.old.keys waiting.old.items userset.now met.new.keys waiting.new.items) }
{
    if met.contains(userset) {
        return Ok(());
    }
    let copy = copied(userset)?;
    waiting.push_back(copied(userset)?)?;
    met.insert(copy)?;
    Ok(())
}

// Whether the row is of the userset.
fn is_of(userset: &Userset, row: &Tuple) -> bool
    ensures { IsTrue result ↔ (row.now ≡ holding userset.now row.now.user) }
{
    if !row.object.cmp(&userset.object).is_eq() {
        return false;
    }
    row.relation.cmp(&userset.relation).is_eq()
}

// Whether the row is of the userset and the user. Most rows are of another user.
fn is_holding(userset: &Userset, user: &User, row: &Tuple) -> bool
    ensures { IsTrue result ↔ (row.now ≡ holding userset.now user.now) }
{
    if !row.user.cmp(user).is_eq() {
        return false;
    }
    is_of(userset, row)
}

/// Whether one of the rows is of the userset and the user.
pub(crate) fn has_user(rows: &[Tuple], userset: &Userset, user: &User) -> bool
    ensures { IsTrue result ↔ Contains rows.now (holding userset.now user.now) }
{
    for row in rows {
        if is_holding(userset, user, row) {
            return true;
        }
    }
    false
}

// Lets the usersets wait that the rows of this one name.
fn meet_rows(
    met: &mut BTreeSet<Userset>,
    waiting: &mut VecDeque<Userset>,
    userset: &Userset,
    rows: &[Tuple],
) -> Result<(), AllocError>
    ensures { OnOk result ((known : List AnyUserset) → IsWalk met.old.keys known → LetsWait userset.now rows.now known met.new.keys waiting.new.items waiting.old.items) }
{
    for row in rows {
        if let User::Set(held) = &row.user {
            if is_of(userset, row) {
                meet(met, waiting, held)?;
            }
        }
    }
    Ok(())
}

impl Walk {
    /// Of a check that begins at this userset.
    pub(crate) fn new(alloc: Global, userset: &Userset) -> Result<Walk, AllocError>
        ensures { IfOk result (λ w. w ≡ record { walked = []; waiting = userset.now ∷ [] }) }
    {
        let mut waiting = VecDeque::new(alloc);
        let mut met = BTreeSet::new(alloc);
        meet(&mut met, &mut waiting, userset)?;
        let usersets = Usersets {
            walked: Vec::new(alloc),
            waiting,
            met,
        };
        Ok(Walk {
            usersets: Box::new(alloc, usersets)?,
        })
    }

    /// The first that waits.
    pub(crate) fn first(&self) -> Option<&Userset>
        ensures { option_copied result ≡ slice_get self.now.waiting 0 }
    {
        self.usersets.waiting.front()
    }

    /// Whether one waits.
    pub(crate) fn waits(&self) -> bool
        ensures { IsTrue result ↔ (self.now.waiting ≢ []) }
    {
        !self.usersets.waiting.is_empty()
    }

    /// How many were walked.
    pub(crate) fn walked(&self) -> usize
        ensures { result ≡ length self.now.walked }
    {
        self.usersets.walked.len()
    }

    /// Walks the first that waits, whose rows these are.
    pub(crate) fn walk_first(self, rows: &[Tuple]) -> Result<Walk, AllocError>
        ensures { IfOk result (λ w. (y : AnyUserset) (rest : List AnyUserset) → self.waiting ≡ y ∷ rest → IsWalked y rest rows.now self w) }
    {
        let Walk { mut usersets } = self;
        let Usersets {
            walked,
            waiting,
            met,
        } = &mut *usersets;
        if let Some(first) = waiting.pop_front() {
            meet_rows(met, waiting, &first, rows)?;
            walked.push(first)?;
        }
        Ok(Walk { usersets })
    }
}
