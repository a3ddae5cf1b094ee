// Preparing a write: its part is tested, staged and held in doubt.
ghost use Rattle.std.specs.Prelude.{◌≡◌, ◌↔◌, ◌++◌, ◌∷◌, [], true, false, OnOk, IfOk, IfErr, IsErrOf};
ghost use Rattle.refusal.specs.Refusals.{IsOneOf};
ghost use Rattle.decisions.specs.Values.{IsIntent};
ghost use Rattle.holds.specs.Holds.{IsFree};
ghost use Rattle.journal.specs.Records.{HasNoRoom};
ghost use Rattle.journal.specs.Rest.{IsPlain};
ghost use Rattle.records.specs.Format.{IsPrepared, IsRecord};
ghost use Rattle.records.specs.Replays.{shard_step};
ghost use Rattle.records.specs.declared.record.Record.TheVariants.{Prepare as prepare_record};
ghost use Rattle.tuples.specs.Parts.{part, takes_part};
ghost use Rattle.shard.specs.Shards.{AreFree, AskBelow, HoldHere, IsBroken, IsBusy, IsPreparable, IsUp, Stages, memory as memory_of, own_part as own_part_of};

use crate::Shard;
use crate::own::{holds, is_collected, is_free, own_part};
use crate::staged_ids::StagedIds;
use decisions::{Intent, Ticket};
use device::Device;
use journal::Journal;
use records::{Identity, Record, prepare_len};
use replay::Memory;
use std::alloc::Global;
use tuples::{Entry, Refusal};

// Stages a record that has room.
pub(crate) fn stage_fitting<D: Device>(journal: &mut Journal<D>, next: &Record)
    requires spelled { IsRecord next.now }
    requires plain { IsPlain next.now }
    requires room { HasNoRoom journal.old.staged next.now → ⊥ }
    ensures { journal.new ≡ record journal.old { staged = journal.old.staged ++ next.now ∷ [] } }
{
    match journal.stage(next) {
        Ok(()) => {}
        Err(_) => unreachable!(),
    }
}

// Stages the prepare of a part that has room, which is not copied for it.
fn stage_fitting_prepare<D: Device>(journal: &mut Journal<D>, part: &Entry)
    requires spelled { IsPrepared part.now }
    requires room { HasNoRoom journal.old.staged (prepare_record part.now) → ⊥ }
    ensures { journal.new ≡ record journal.old { staged = journal.old.staged ++ prepare_record part.now ∷ [] } }
{
    match journal.stage_prepare(part) {
        Ok(()) => {}
        Err(_) => unreachable!(),
    }
}

// Stages the prepare of a part that has room, and holds it in doubt: all of it or nothing.
fn hold<D: Device>(
    journal: &mut Journal<D>,
    memory: &mut Memory,
    unflushed: &mut StagedIds,
    part: Entry,
) -> Result<(), Refusal>
    requires spelled { IsPrepared part }
    requires free { IsFree memory.old.in_doubt part }
    requires room { HasNoRoom journal.old.staged (prepare_record part) → ⊥ }
    ensures staged { OnOk result (journal.new ≡ record journal.old { staged = journal.old.staged ++ prepare_record part ∷ [] }) }
    ensures held { OnOk result (memory.new ≡ shard_step memory.old (prepare_record part)) }
    ensures waits { OnOk result (unflushed.new ≡ unflushed.old ++ part.id ∷ []) }
    ensures err { IfErr result (λ e. (e ≡ Refusal.NoMemory) × (journal.new ≡ journal.old) × (memory.new ≡ memory.old) × (unflushed.new ≡ unflushed.old)) }
{
    let id = part.id;
    memory.prepare(part)?;
    if unflushed.push(id).is_err() {
        memory.drop_write(id);
        return Err(Refusal::NoMemory);
    }
    let Some(kept) = memory.find(id) else {
        unreachable!();
    };
    stage_fitting_prepare(journal, kept);
    Ok(())
}

// Stages the prepare of the shard's part of a write that it takes part in, and holds it in doubt: all of it or nothing. Each cause is tested
// for the whole part before the next, and memory is asked for last.
fn prepare<D: Device>(
    journal: &mut Journal<D>,
    memory: &mut Memory,
    unflushed: &mut StagedIds,
    alloc: Global,
    write: &Entry,
    me: Identity,
) -> Result<(), Refusal>
    requires whole { IsIntent write.now }
    requires part { takes_part me.shards me.node write.now ≡ true }
    ensures staged { OnOk result (journal.new ≡ record journal.old { staged = journal.old.staged ++ prepare_record (part me.shards me.node write.now) ∷ [] }) }
    ensures held { OnOk result (memory.new ≡ shard_step memory.old (prepare_record (part me.shards me.node write.now))) }
    ensures waits { OnOk result (unflushed.new ≡ unflushed.old ++ write.now.id ∷ []) }
    ensures up { OnOk result (journal.old.is_down ≡ false) }
    ensures ok { OnOk result (IsPreparable memory.old (part me.shards me.node write.now)) }
    ensures down { IsErrOf result Refusal.Down ↔ (journal.old.is_down ≡ true) }
    ensures collected { journal.old.is_down ≡ false → IsErrOf result Refusal.Collected ↔ AskBelow memory.old.horizon (part me.shards me.node write.now).conditions }
    ensures busy { journal.old.is_down ≡ false → IsErrOf result Refusal.Busy ↔ IsBusy memory.old (part me.shards me.node write.now) }
    ensures broken { journal.old.is_down ≡ false → IsErrOf result Refusal.Precondition ↔ IsBroken memory.old (part me.shards me.node write.now) }
    ensures full { journal.old.is_down ≡ false → IsErrOf result Refusal.Full ↔ (IsPreparable memory.old (part me.shards me.node write.now) × HasNoRoom journal.old.staged (prepare_record (part me.shards me.node write.now))) }
    ensures memory { IsErrOf result Refusal.NoMemory → IsPreparable memory.old (part me.shards me.node write.now) × (HasNoRoom journal.old.staged (prepare_record (part me.shards me.node write.now)) → ⊥) }
    ensures err { IfErr result (λ e. IsOneOf e (Refusal.Down ∷ Refusal.Collected ∷ Refusal.Busy ∷ Refusal.Precondition ∷ Refusal.Full ∷ Refusal.NoMemory ∷ []) × (journal.new ≡ journal.old) × (memory.new ≡ memory.old) × (unflushed.new ≡ unflushed.old)) }
{
    if journal.is_down() {
        return Err(Refusal::Down);
    }
    let part = own_part(write, me);
    if is_collected(memory, &part) {
        return Err(Refusal::Collected);
    }
    if !is_free(memory, &part) {
        return Err(Refusal::Busy);
    }
    if !holds(memory, &part) {
        return Err(Refusal::Precondition);
    }
    if !journal.has_room_for(prepare_len(write, me)) {
        return Err(Refusal::Full);
    }
    let kept = part.to_entry(alloc)?;
    hold(journal, memory, unflushed, kept)?;
    Ok(())
}

impl<D: Device> Shard<D> {
    /// Stages the prepare of this shard's part of a write. Nothing has changed after a refusal; each is tested for the whole part before
    /// the next: `Down`, `Collected` if a condition names a place below the horizon, `Busy` if a write in doubt has the id or holds
    /// a tuple of the part, `Precondition` if a condition is broken, `Full`, `NoMemory`.
    pub fn stage_prepare(&mut self, alloc: Global, intent: &Intent) -> Result<Ticket, Refusal>
        requires part { takes_part self.old.me.shards self.old.me.node intent.now.write ≡ true }
        ensures ok { IsUp D.state D.honest self.old → IfOk result (λ t. Stages self.old (prepare_record (own_part_of self.old intent.now.write)) self.new
            × IsUp D.state D.honest self.new × (t.epoch ≡ (memory_of self.old).epoch)) }
        ensures id { IfOk result (λ t. t.id ≡ intent.now.write.id) }
        ensures above { IsUp D.state D.honest self.old → OnOk result (AskBelow (memory_of self.old).horizon (own_part_of self.old intent.now.write).conditions → ⊥) }
        ensures free { IsUp D.state D.honest self.old → OnOk result (AreFree (memory_of self.old) (own_part_of self.old intent.now.write)) }
        ensures conditions { IsUp D.state D.honest self.old → OnOk result (HoldHere (memory_of self.old) (own_part_of self.old intent.now.write).conditions) }

        // Each refusal exactly if its cause is the first.
        ensures down { IsErrOf result Refusal.Down ↔ (self.old.is_down ≡ true) }
        ensures collected { IsUp D.state D.honest self.old → IsErrOf result Refusal.Collected ↔ AskBelow (memory_of self.old).horizon (own_part_of self.old intent.now.write).conditions }
        ensures busy { IsUp D.state D.honest self.old → IsErrOf result Refusal.Busy ↔ IsBusy (memory_of self.old) (own_part_of self.old intent.now.write) }
        ensures broken { IsUp D.state D.honest self.old → IsErrOf result Refusal.Precondition ↔ IsBroken (memory_of self.old) (own_part_of self.old intent.now.write) }
        ensures full { IsUp D.state D.honest self.old → IsErrOf result Refusal.Full
            ↔ (IsPreparable (memory_of self.old) (own_part_of self.old intent.now.write) × HasNoRoom self.old.staged (prepare_record (own_part_of self.old intent.now.write))) }
        ensures memory { IsUp D.state D.honest self.old → IsErrOf result Refusal.NoMemory
            → IsPreparable (memory_of self.old) (own_part_of self.old intent.now.write) × (HasNoRoom self.old.staged (prepare_record (own_part_of self.old intent.now.write)) → ⊥) }
        ensures kept { self.new ≡ record self.old { staged = self.new.staged } }
        ensures err { IfErr result (λ e. (self.new ≡ self.old) × IsOneOf e (Refusal.Down ∷ Refusal.Collected ∷ Refusal.Busy ∷ Refusal.Precondition ∷ Refusal.Full ∷ Refusal.NoMemory ∷ [])) }
    {
        let write = intent.entry();
        prepare(
            &mut self.journal,
            &mut self.memory,
            &mut self.unflushed,
            alloc,
            write,
            self.me,
        )?;
        Ok(Ticket::new(&self.journal, write.id, self.memory.epoch()))
    }
}
