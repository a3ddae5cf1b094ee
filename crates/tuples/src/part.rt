// A shard's part of a write, borrowed from the write.
ghost use Rattle.std.specs.Prelude.{◌≡◌, ◌↔◌, ◌∷◌, [], IfOk, IsTrue, MatchOption};
ghost use Rattle.std.specs.Iterator.{YieldsFirstRef, item_count};
ghost use Rattle.tuples.specs.Parts.{is_of, own_changes, own_conditions, part};

use crate::{Change, Changes, Condition, Conditions, Entry, Shards, Tuple, WriteId, shard_of};
use std::alloc::{AllocError, Global};
use std::marker::Model;

/// A shard's part of a write: the changes and conditions whose objects have the shard, in the write's order. It is read
/// from the write, so that making it takes no memory. Contracts see it as an entry with these changes and conditions.
#[derive(Drop)]
pub struct ShardPart<'a> {
    write: &'a Entry,
    shards: Shards,
    shard: u8,
}

impl<'a> Model for ShardPart<'a> {
    ghost use Rattle.tuples.specs.declared.entry.Entry.{Entry};
    ghost use Rattle.tuples.specs.Parts.{part};

    ghost Value = { Entry };

    ghost view = { λ p. part p.shards p.shard p.write.now };
}

impl Entry {
    /// The part of a shard, in a store of so many shards.
    pub fn part_at(&self, shards: Shards, shard: u8) -> ShardPart<'_>
        ensures { result ≡ part shards shard self.now }
    {
        ShardPart {
            write: self,
            shards,
            shard,
        }
    }
}

impl<'a> ShardPart<'a> {
    #[tactic(auto, unfolding(crate::specs::Parts::part))]
    pub fn id(&self) -> WriteId
        ensures { result ≡ self.now.id }
    {
        self.write.id
    }

    #[tactic(auto, unfolding(crate::specs::Parts::part))]
    /// Its changes, in the write's order.
    pub fn changes(&self) -> PartChanges<'a>
        ensures { result ≡ self.now.changes }
    {
        PartChanges {
            rest: self.write.changes.as_slice(),
            shards: self.shards,
            shard: self.shard,
        }
    }

    #[tactic(auto, unfolding(crate::specs::Parts::part))]
    /// Its conditions, in the write's order.
    pub fn conditions(&self) -> PartConditions<'a>
        ensures { result ≡ self.now.conditions }
    {
        PartConditions {
            rest: self.write.conditions.as_slice(),
            shards: self.shards,
            shard: self.shard,
        }
    }

    /// Whether the shard takes no part in the write.
    pub fn is_empty(&self) -> bool
        ensures { IsTrue result ↔ ((self.now.changes ≡ []) × (self.now.conditions ≡ [])) }
    {
        self.changes().next().is_none() && self.conditions().next().is_none()
    }
}

impl<'a> ShardPart<'a> {
    /// Whether the entry is this part, with its id.
    pub fn is(&self, entry: &Entry) -> bool
        ensures { IsTrue result ↔ (entry.now ≡ self.now) }
    {
        entry.id == self.id()
            && are_changes(self.changes(), entry.changes.as_slice())
            && are_conditions(self.conditions(), entry.conditions.as_slice())
    }

    /// The part in values of its own.
    pub fn to_entry(&self, alloc: Global) -> Result<Entry, AllocError>
        ensures { IfOk result (λ entry. entry ≡ self.now) }
    {
        let changes = copied_changes(alloc, self.changes())?;
        let conditions = copied_conditions(alloc, self.conditions())?;
        Ok(Entry {
            id: self.id(),
            changes: Changes::from_vec(changes),
            conditions: Conditions::from_vec(conditions),
        })
    }
}

// Whether the changes are those of the part.
fn are_changes(part: PartChanges, changes: &[Change]) -> bool
    ensures { IsTrue result ↔ (changes.now ≡ part.entry) }
{
    let mut rest = changes;
    for own in part {
        let Some((first, others)) = rest.split_first() else {
            return false;
        };
        if *first != *own {
            return false;
        }
        rest = others;
    }
    rest.is_empty()
}

fn is_same(first: &Condition, other: &Condition) -> bool
    ensures { IsTrue result ↔ (first.now ≡ other.now) }
{
    first.tuple == other.tuple && first.want == other.want
}

// Whether the conditions are those of the part.
fn are_conditions(part: PartConditions, conditions: &[Condition]) -> bool
    ensures { IsTrue result ↔ (conditions.now ≡ part.entry) }
{
    let mut rest = conditions;
    for own in part {
        let Some((first, others)) = rest.split_first() else {
            return false;
        };
        if !is_same(first, own) {
            return false;
        }
        rest = others;
    }
    rest.is_empty()
}

fn copied_change(change: &Change) -> Result<Change, AllocError>
    ensures { IfOk result (λ copy. copy ≡ change.now) }
{
    match change {
        Change::Touch(tuple) => Ok(Change::Touch(tuple.clone()?)),
        Change::Delete(tuple) => Ok(Change::Delete(tuple.clone()?)),
    }
}

fn copied_condition(condition: &Condition) -> Result<Condition, AllocError>
    ensures { IfOk result (λ copy. copy ≡ condition.now) }
{
    Ok(Condition {
        tuple: condition.tuple.clone()?,
        want: condition.want,
    })
}

fn copied_changes(alloc: Global, part: PartChanges) -> Result<Vec<Change>, AllocError>
    ensures { IfOk result (λ copies. copies.items ≡ part.entry) }
{
    let mut copies = Vec::new(alloc);
    for change in part {
        copies.push(copied_change(change)?)?;
    }
    Ok(copies)
}

fn copied_conditions(alloc: Global, part: PartConditions) -> Result<Vec<Condition>, AllocError>
    ensures { IfOk result (λ copies. copies.items ≡ part.entry) }
{
    let mut copies = Vec::new(alloc);
    for condition in part {
        copies.push(copied_condition(condition)?)?;
    }
    Ok(copies)
}

/// The changes of a part that are left to come.
#[derive(Drop)]
pub struct PartChanges<'a> {
    rest: &'a [Change],
    shards: Shards,
    shard: u8,
}

impl<'a> Model for PartChanges<'a> {
    ghost use Rattle.std.specs.Prelude.{List};
    ghost use Rattle.tuples.specs.declared.change.Change.{Change};
    ghost use Rattle.tuples.specs.Parts.{own_changes};

    ghost Value = { List Change };

    ghost view = { λ p. own_changes p.shards p.shard p.rest.now };
}

impl<'a> Iterator for PartChanges<'a> {
    type Item = &'a Change;

    ghost next_gives = { YieldsFirstRef (λ changes. changes) };

    ghost remaining = { item_count (λ changes. changes) };

    fn next(&mut self) -> Option<&'a Change> {
        let (first, others) = first_change(self.rest, self.shards, self.shard)?;
        self.rest = others;
        Some(first)
    }
}

/// The conditions of a part that are left to come.
#[derive(Drop)]
pub struct PartConditions<'a> {
    rest: &'a [Condition],
    shards: Shards,
    shard: u8,
}

impl<'a> Model for PartConditions<'a> {
    ghost use Rattle.std.specs.Prelude.{List};
    ghost use Rattle.tuples.specs.declared.change.Condition.{Condition};
    ghost use Rattle.tuples.specs.Parts.{own_conditions};

    ghost Value = { List Condition };

    ghost view = { λ p. own_conditions p.shards p.shard p.rest.now };
}

impl<'a> Iterator for PartConditions<'a> {
    type Item = &'a Condition;

    ghost next_gives = { YieldsFirstRef (λ conditions. conditions) };

    ghost remaining = { item_count (λ conditions. conditions) };

    fn next(&mut self) -> Option<&'a Condition> {
        let (first, others) = first_condition(self.rest, self.shards, self.shard)?;
        self.rest = others;
        Some(first)
    }
}

fn is_own(tuple: &Tuple, shards: Shards, shard: u8) -> bool
    ensures { result ≡ is_of shards shard tuple.now }
{
    shard_of(&tuple.object, shards) == shard
}

// The first change that is the shard's, and what stands after it.
fn first_change(changes: &[Change], shards: Shards, shard: u8) -> Option<(&Change, &[Change])>
    ensures { MatchOption result (own_changes shards shard changes.now ≡ []) (λ found. own_changes shards shard changes.now ≡ found.0.now ∷ own_changes shards shard found.1.now) }
{
    for (i, change) in changes.iter().enumerate() {
        if is_own(change.tuple(), shards, shard) {
            return Some((change, &changes[i + 1..]));
        }
    }
    None
}

// The first condition that is the shard's, and what stands after it.
fn first_condition(
    conditions: &[Condition],
    shards: Shards,
    shard: u8,
) -> Option<(&Condition, &[Condition])>
    ensures { MatchOption result (own_conditions shards shard conditions.now ≡ []) (λ found. own_conditions shards shard conditions.now ≡ found.0.now ∷ own_conditions shards shard found.1.now) }
{
    for (i, condition) in conditions.iter().enumerate() {
        if is_own(&condition.tuple, shards, shard) {
            return Some((condition, &conditions[i + 1..]));
        }
    }
    None
}
