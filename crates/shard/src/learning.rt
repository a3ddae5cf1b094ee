// Learning decisions: each part is compared with its prepare, and applied at its place.
ghost use Rattle.std.specs.Prelude.{◌≡◌, ◌⊎◌, ◌↔◌, ◌≤◌, ◌<◌, ◌+◌, ◌-◌, ◌++◌, ◌∷◌, [], true, false, length, drop, Some, OnOk, IfOk, IfErr, IsErr, IsErrOf, IsTrue};
ghost use Rattle.refusal.specs.Refusals.{IsOneOf};
ghost use Rattle.std.specs.List.{list_any};
ghost use Rattle.journal.specs.Records.{HasNoRoom};
ghost use Rattle.records.specs.Format.{IsLearned, max_placed_ids};
ghost use Rattle.records.specs.Replays.{MayLearn, find_in_doubt, greatest_number, shard_step};
ghost use Rattle.records.specs.declared.record.Record.TheVariants.{Learned as learned_record};
ghost use Rattle.tuples.specs.Log.{same_id};
ghost use Rattle.tuples.specs.Parts.{part as part_of, takes_part as takes_part_of};
ghost use Rattle.replay.specs.Alike.{IsAlike};
ghost use Rattle.shard.specs.Shards.{AreLearnable, AreNewIds, ArePreparedHere, IsUp, Stages, learning, memory as memory_of, placed_ids_from, unlearned};

use crate::Shard;
use crate::own::own_part;
use crate::preparing::stage_fitting;
use crate::write_ids::WriteIds;
use decisions::{Batch, Intent};
use device::Device;
use journal::Journal;
use records::{Identity, PlacedId, PlacedIds, Record};
use replay::Memory;
use std::alloc::{AllocError, Global};
use tuples::{Entry, Refusal, WriteId};

fn takes_part(write: &Entry, me: Identity) -> bool
    ensures { result ≡ takes_part_of me.shards me.node write.now }
{
    !own_part(write, me).is_empty()
}

// Whether the write is in doubt with exactly the shard's part.
fn is_prepared(memory: &Memory, write: &Entry, me: Identity) -> bool
    ensures { IsTrue result ↔ (find_in_doubt write.now.id memory.now.in_doubt ≡ Some (part_of me.shards me.node write.now)) }
{
    match memory.find(write.id) {
        Some(kept) => own_part(write, me).is(kept),
        None => false,
    }
}

fn names_id(writes: &[Entry], id: WriteId) -> bool
    ensures { result ≡ list_any (λ w. same_id w.id id) writes.now }
{
    writes.iter().any(|write| write.id == id)
}

// Whether no two of the writes have one id. If memory for the set of their ids is refused, each is compared with those before it.
fn are_new_ids(alloc: Global, writes: &[Entry]) -> bool
    ensures { IsTrue result ↔ AreNewIds writes.now }
{
    match are_new_by_set(alloc, writes) {
        Ok(are_new) => are_new,
        Err(_) => are_new_by_pairs(writes),
    }
}

fn are_new_by_set(alloc: Global, writes: &[Entry]) -> Result<bool, AllocError>
    ensures { IfOk result (λ b. IsTrue b ↔ AreNewIds writes.now) }
{
    let mut seen = WriteIds::new(alloc);
    for (i, write) in writes.iter().enumerate() {
        if seen.has(write.id) {
            return Ok(false);
        }
        seen.put(write.id)?;
    }
    Ok(true)
}

fn are_new_by_pairs(writes: &[Entry]) -> bool
    ensures { IsTrue result ↔ AreNewIds writes.now }
{
    for (i, write) in writes.iter().enumerate() {
        if names_id(&writes[..i], write.id) {
            return false;
        }
    }
    true
}

// Whether each of the writes is in doubt with exactly the shard's part, if it has one.
fn are_prepared(memory: &Memory, writes: &[Entry], me: Identity) -> bool
    ensures { IsTrue result ↔ ArePreparedHere me memory.now writes.now }
{
    for write in writes {
        if takes_part(write, me) && !is_prepared(memory, write, me) {
            return false;
        }
    }
    true
}

// The writes of a batch after a place of it.
fn behind(batch: &Batch, place: u64) -> &[Entry]
    requires from { batch.now.from ≤ place }
    requires to { place ≤ batch.now.from + length batch.now.writes }
    ensures writes { result.now ≡ drop (place - batch.now.from) batch.now.writes }
    ensures few { length batch.now.writes ≤ max_placed_ids }
{
    let known = (place - batch.from()) as usize;
    &batch.writes()[known..]
}

fn are_learnable(alloc: Global, memory: &Memory, writes: &[Entry], me: Identity) -> bool
    ensures { IsTrue result ↔ AreLearnable me memory.now writes.now }
{
    are_new_ids(alloc, writes) && are_prepared(memory, writes, me)
}

// The ids of the writes in which the shard takes part, with their places behind this one.
fn placed_ids_of(
    alloc: Global,
    writes: &[Entry],
    learned: u64,
    me: Identity,
) -> Result<Vec<PlacedId>, AllocError>
    requires places { learned + length writes.now ≤ greatest_number }
    ensures { IfOk result (λ v. v.items ≡ placed_ids_from me.shards me.node (learned + 1) writes.now) }
{
    let mut placed_ids = Vec::new(alloc);
    for (i, write) in writes.iter().enumerate() {
        if takes_part(write, me) {
            placed_ids.push(PlacedId {
                id: write.id,
                place: learned + 1 + i as u64,
            })?;
        }
    }
    Ok(placed_ids)
}

// Stages that decisions up to a place are learned, and applies them: all of it or nothing.
fn apply<D: Device>(
    journal: &mut Journal<D>,
    memory: &mut Memory,
    alloc: Global,
    to: u64,
    placed_ids: Vec<PlacedId>,
) -> Result<(), Refusal>
    requires spelled { IsLearned to placed_ids.items }
    requires may { MayLearn memory.old to placed_ids.items }
    ensures staged { OnOk result (journal.new ≡ record journal.old { staged = journal.old.staged ++ learned_record to placed_ids.items ∷ [] }) }
    ensures applied { OnOk result (IsAlike memory.new (shard_step memory.old (learned_record to placed_ids.items))) }
    ensures full { IsErrOf result Refusal.Full → HasNoRoom journal.old.staged (learned_record to placed_ids.items) }
    ensures err { IfErr result (λ e. ((e ≡ Refusal.Full) ⊎ (e ≡ Refusal.NoMemory)) × (journal.new ≡ journal.old) × (memory.new ≡ memory.old)) }
{
    let copies = Vec::from_slice(alloc, &placed_ids)?;
    let next = Record::Learned {
        to,
        placed_ids: PlacedIds::from_vec(copies),
    };
    let applied = apply_record(journal, memory, alloc, to, &placed_ids, &next);
    drop(next);
    applied
}

// The same, of a record that has them.
fn apply_record<D: Device>(
    journal: &mut Journal<D>,
    memory: &mut Memory,
    alloc: Global,
    to: u64,
    placed_ids: &[PlacedId],
    next: &Record,
) -> Result<(), Refusal>
    requires spelled { IsLearned to placed_ids.now }
    requires may { MayLearn memory.old to placed_ids.now }
    requires names { next.now ≡ learned_record to placed_ids.now }
    ensures staged { OnOk result (journal.new ≡ record journal.old { staged = journal.old.staged ++ learned_record to placed_ids.now ∷ [] }) }
    ensures applied { OnOk result (IsAlike memory.new (shard_step memory.old (learned_record to placed_ids.now))) }
    ensures full { IsErrOf result Refusal.Full → HasNoRoom journal.old.staged (learned_record to placed_ids.now) }
    ensures err { IfErr result (λ e. ((e ≡ Refusal.Full) ⊎ (e ≡ Refusal.NoMemory)) × (journal.new ≡ journal.old) × (memory.new ≡ memory.old)) }
{
    if !journal.has_room(next) {
        return Err(Refusal::Full);
    }
    memory.learn(alloc, to, placed_ids)?;
    stage_fitting(journal, next);
    Ok(())
}

impl<D: Device> Shard<D> {
    /// Whether the shard takes part in a write: a change or a condition of it names one of the shard's objects.
    pub fn takes_part(&self, intent: &Intent) -> bool
        ensures { result ≡ takes_part_of self.now.me.shards self.now.me.node intent.now.write }
    {
        takes_part(intent.entry(), self.me)
    }

    /// Applies the decisions of a batch above the place that it has learned. `true`, and nothing changed, if it has learned them all;
    /// `false`, and nothing changed, if the batch begins above that place.
    ///
    /// Nothing has changed after a refusal. `Down`; `Damaged` if a decision is not in doubt with exactly the shard's part, or two have one
    /// id: the log that was told and this shard's records are not of one store. Only after that `NoMemory` and `Full`.
    pub fn learn(&mut self, alloc: Global, batch: &Batch) -> Result<bool, Refusal>
        ensures known { IsUp D.state D.honest self.old → batch.now.from + length batch.now.writes ≤ (memory_of self.old).learned → IfOk result (λ b. (b ≡ true) × (self.new ≡ self.old)) × (IsErr result → ⊥) }
        ensures ahead { IsUp D.state D.honest self.old → (memory_of self.old).learned < batch.now.from → IfOk result (λ b. (b ≡ false) × (self.new ≡ self.old)) × (IsErr result → ⊥) }
        ensures ok { IsUp D.state D.honest self.old → batch.now.from ≤ (memory_of self.old).learned → (memory_of self.old).learned < batch.now.from + length batch.now.writes
            → IfOk result (λ b. (b ≡ true) × Stages self.old (learning self.old.me (memory_of self.old) batch.now.from batch.now.writes) self.new × IsUp D.state D.honest self.new) }
        ensures learnable { IsUp D.state D.honest self.old → batch.now.from ≤ (memory_of self.old).learned → (memory_of self.old).learned < batch.now.from + length batch.now.writes
            → OnOk result (AreLearnable self.old.me (memory_of self.old) (unlearned (memory_of self.old) batch.now.from batch.now.writes)) }

        // Damaged exactly if the decisions are not the writes that were prepared.
        ensures damaged { IsUp D.state D.honest self.old → batch.now.from ≤ (memory_of self.old).learned → (memory_of self.old).learned < batch.now.from + length batch.now.writes
            → IsErrOf result Refusal.Damaged ↔ (AreLearnable self.old.me (memory_of self.old) (unlearned (memory_of self.old) batch.now.from batch.now.writes) → ⊥) }
        ensures full { IsUp D.state D.honest self.old → IsErrOf result Refusal.Full → HasNoRoom self.old.staged (learning self.old.me (memory_of self.old) batch.now.from batch.now.writes) }
        ensures down { IsErrOf result Refusal.Down ↔ (self.old.is_down ≡ true) }
        ensures kept { self.new ≡ record self.old { staged = self.new.staged } }
        ensures err { IfErr result (λ e. (self.new ≡ self.old) × IsOneOf e (Refusal.Down ∷ Refusal.NoMemory ∷ Refusal.Full ∷ Refusal.Damaged ∷ [])) }
    {
        if self.journal.is_down() {
            return Err(Refusal::Down);
        }
        let learned = self.memory.learned();
        if batch.to() <= learned {
            return Ok(true);
        }
        if learned < batch.from() {
            return Ok(false);
        }
        let writes = behind(batch, learned);
        if !are_learnable(alloc, &self.memory, writes, self.me) {
            return Err(Refusal::Damaged);
        }
        let placed_ids = placed_ids_of(alloc, writes, learned, self.me)?;
        apply(
            &mut self.journal,
            &mut self.memory,
            alloc,
            batch.to(),
            placed_ids,
        )?;
        Ok(true)
    }
}
