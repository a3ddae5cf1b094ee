// Whole writes.
ghost use Rattle.std.specs.Prelude.{◌≡◌, ◌≢◌, ◌<◌, ◌⊎◌, ◌↔◌, [], All, length, IfOk, IfErr, IsErrOf, IsTrue, ◌∷◌};
ghost use Rattle.refusal.specs.Refusals.{IsOneOf};
ghost use Rattle.tuples.specs.Changes.{AreDistinct, IsWrite, are_ascending, changed, conditioned, has_tuple};
ghost use Rattle.tuples.specs.Limits.{max_changes, max_conditions};
ghost use Rattle.tuples.specs.Texts.{IsTuple};

use crate::{Change, Changes, Condition, Conditions, MAX_CHANGES, MAX_CONDITIONS, Refusal, Tuple};
use std::alloc::AllocError;
use std::marker::Model;

/// A write: 1 to 64 changes and up to 16 conditions, no tuple twice among the changes or among the conditions.
#[derive(Drop)]
pub struct Write {
    changes: Changes,
    conditions: Conditions,
}

impl Model for Write {
    ghost use Rattle.tuples.specs.Writes.{WriteValue};
    ghost use Rattle.tuples.specs.Changes.{IsWrite};

    ghost Value = { WriteValue };

    ghost view = { λ w. record { changes = w.changes; conditions = w.conditions } };

    ghost invariant = { λ w. IsWrite w.changes w.conditions };
}

impl Clone for Write {
    ghost is_clone = { λ old new. new ≡ old };

    fn clone(&self) -> Result<Write, AllocError> {
        Ok(Write {
            changes: self.changes.clone()?,
            conditions: self.conditions.clone()?,
        })
    }
}

impl Write {
    /// A write of these, which takes no memory. It is refused with `BadRequest` if there is no change, with `TooLarge`
    /// past a limit, and with `Repeated` if two changes or two conditions name one tuple, in this order.
    pub fn new(changes: Vec<Change>, conditions: Vec<Condition>) -> Result<Write, Refusal>
        ensures ok { IfOk result (λ w. (w.changes ≡ changes.items) × (w.conditions ≡ conditions.items)) }
        ensures none { IsErrOf result Refusal.BadRequest ↔ (changes.items ≡ []) }
        ensures large { IsErrOf result Refusal.TooLarge ↔ ((changes.items ≢ []) × ((max_changes < length changes.items) ⊎ (max_conditions < length conditions.items))) }
        ensures repeated { IsErrOf result Refusal.Repeated → (AreDistinct (changed changes.items) × AreDistinct (conditioned conditions.items)) → ⊥ }
        ensures err { IfErr result (λ e. IsOneOf e (Refusal.BadRequest ∷ Refusal.TooLarge ∷ Refusal.Repeated ∷ [])) }
    {
        if changes.is_empty() {
            return Err(Refusal::BadRequest);
        }
        if changes.len() > MAX_CHANGES || conditions.len() > MAX_CONDITIONS {
            return Err(Refusal::TooLarge);
        }
        if !are_changes_distinct(&changes) || !are_conditions_distinct(&conditions) {
            return Err(Refusal::Repeated);
        }
        keep_changes_grammar(&changes);
        keep_conditions_grammar(&conditions);
        Ok(Write {
            changes: Changes::from_vec(changes),
            conditions: Conditions::from_vec(conditions),
        })
    }

    pub fn changes(&self) -> &[Change]
        ensures value { result.now ≡ self.now.changes }
        ensures whole { IsWrite self.now.changes self.now.conditions }
    {
        self.changes.as_slice()
    }

    pub fn conditions(&self) -> &[Condition]
        ensures { result.now ≡ self.now.conditions }
    {
        self.conditions.as_slice()
    }

    /// Its changes and conditions, which takes no memory.
    pub fn into_parts(self) -> (Changes, Conditions)
        ensures changes { result.0 ≡ self.changes }
        ensures conditions { result.1 ≡ self.conditions }
        ensures whole { IsWrite self.changes self.conditions }
    {
        let Write {
            changes,
            conditions,
        } = self;
        (changes, conditions)
    }
}

impl Change {
    ghost use Rattle.tuples.specs.Changes.{tuple_of};

    /// The tuple that it changes.
    pub fn tuple(&self) -> &Tuple
        ensures { result.now ≡ tuple_of self.now }
    {
        match self {
            Change::Touch(tuple) => tuple,
            Change::Delete(tuple) => tuple,
        }
    }
}

// Each tuple is in its grammar, since its type keeps that. It does nothing.
fn keep_changes_grammar(changes: &[Change])
    ensures { All IsTuple (changed changes.now) }
{
    for change in changes {
        change.tuple().keeps_grammar();
    }
}

fn keep_conditions_grammar(conditions: &[Condition])
    ensures { All IsTuple (conditioned conditions.now) }
{
    for condition in conditions {
        condition.tuple.keeps_grammar();
    }
}

fn names_change(tuple: &Tuple, changes: &[Change]) -> bool
    ensures { result ≡ has_tuple tuple.now (changed changes.now) }
{
    for change in changes {
        if tuple.is(change.tuple()) {
            return true;
        }
    }
    false
}

fn names_condition(tuple: &Tuple, conditions: &[Condition]) -> bool
    ensures { result ≡ has_tuple tuple.now (conditioned conditions.now) }
{
    for condition in conditions {
        if tuple.is(&condition.tuple) {
            return true;
        }
    }
    false
}

// Whether each change's tuple stands before that of the next one. Then none stands twice, which one look at each change shows.
fn are_changes_ascending(changes: &[Change]) -> bool
    ensures { result ≡ are_ascending (changed changes.now) }
{
    for (i, change) in changes.iter().enumerate() {
        let Some(next) = changes.get(i + 1) else {
            return true;
        };
        if !change.tuple().is_before(next.tuple()) {
            return false;
        }
    }
    true
}

/// Whether no two changes name one tuple.
#[tactic(auto, using(crate::proofs::Ascending::ascending_distinct))]
pub fn are_changes_distinct(changes: &[Change]) -> bool
    ensures { IsTrue result ↔ AreDistinct (changed changes.now) }
{
    are_changes_ascending(changes) || are_changes_apart(changes)
}

// The same, by a look at each two of them.
fn are_changes_apart(changes: &[Change]) -> bool
    ensures { IsTrue result ↔ AreDistinct (changed changes.now) }
{
    for (i, change) in changes.iter().enumerate() {
        if names_change(change.tuple(), &changes[i + 1..]) {
            return false;
        }
    }
    true
}

/// Whether no two conditions name one tuple.
pub fn are_conditions_distinct(conditions: &[Condition]) -> bool
    ensures { IsTrue result ↔ AreDistinct (conditioned conditions.now) }
{
    for (i, condition) in conditions.iter().enumerate() {
        if names_condition(&condition.tuple, &conditions[i + 1..]) {
            return false;
        }
    }
    true
}
