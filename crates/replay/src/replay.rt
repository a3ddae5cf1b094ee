// The records of a shard, as they are read from the first on.
ghost use Rattle.std.specs.Prelude.{◌≡◌, ◌⊎◌, OnOk, IfOk, IfErr, IsErrOf, None, Some};
ghost use Rattle.records.specs.declared.mark.Mark.TheVariants.{Begins as begins_mark, Ends as ends_mark, Row as row_mark};
ghost use Rattle.records.specs.Format.{IsPrepared, IsRecord};
ghost use Rattle.records.specs.Inside.{IsFirst, MayBegin};
ghost use Rattle.records.specs.declared.record.Record.TheVariants.{Checkpoint as checkpoint_record, Epoch as epoch_record, Horizon as horizon_record, Learned as learned_record, Prepare as prepare_record};
ghost use Rattle.records.specs.Replays.{MayComeInside, MayEnd, MayFollow, MayMark, MayTakeEpoch, MayTakeHorizon, MayTakeLearned, MayTakePrepare, MayTakeRow};
ghost use Rattle.replay.specs.Reading.{TakesRecord, nothing_read};

use crate::Memory;
use crate::inside_rules::{may_end, may_take_learned, may_take_prepare, may_take_row};
use records::{Identity, Inside, Mark, PlacedId, Record, Stage, may_begin};
use std::alloc::Global;
use std::marker::Model;
use tuples::{Change, Entry, Refusal};

/// What the records of a shard that were read so far stand for, and the checkpoint among them that has not ended.
#[derive(Drop)]
pub struct Replay {
    inside: Option<Inside>,
    memory: Memory,
}

impl Model for Replay {
    ghost use Rattle.replay.specs.Reading.{ReadSoFar};

    ghost Value = { ReadSoFar };

    ghost view = { λ r. record { inside = r.inside; state = r.memory } };
}

impl Replay {
    /// Before the first record; allocates nothing.
    pub fn new(alloc: Global) -> Replay
        ensures { result ≡ nothing_read }
    {
        Replay {
            inside: None,
            memory: Memory::new(alloc),
        }
    }

    /// Takes the record that was found next, of the shard with this identity. `Damaged` if it may not follow, `NoMemory`; after a refusal
    /// the replay is useless.
    pub fn take(&mut self, alloc: Global, me: Identity, found: Record) -> Result<(), Refusal>
        requires { IsRecord found }
        ensures ok { OnOk result (MayFollow me self.old.inside self.old.state found × TakesRecord self.old found self.new) }
        ensures damaged { IsErrOf result Refusal.Damaged → MayFollow me self.old.inside self.old.state found → ⊥ }
        ensures err { IfErr result (λ e. (e ≡ Refusal.Damaged) ⊎ (e ≡ Refusal.NoMemory)) }
    {
        match self.inside {
            Some(inside) => self.take_inside(alloc, me, inside, found),
            None => self.take_outside(alloc, me, found),
        }
    }

    /// The memory of the shard, if no checkpoint is under way; else `Damaged`.
    pub fn into_memory(self) -> Result<Memory, Refusal>
        ensures ok { IfOk result (λ m. (m ≡ self.state) × (self.inside ≡ None)) }
        ensures damaged { IfErr result (λ e. (e ≡ Refusal.Damaged) × (self.inside ≡ None → ⊥)) }
    {
        let Replay { inside, memory } = self;
        match inside {
            Some(_) => Err(Refusal::Damaged),
            None => Ok(memory),
        }
    }

    // If no checkpoint is under way.
    #[tactic(auto, unfolding(records::specs::Replays::shard_step))]
    fn take_outside(&mut self, alloc: Global, me: Identity, found: Record) -> Result<(), Refusal>
        requires outside { self.old.inside ≡ None }
        requires spelled { IsRecord found }
        ensures ok { OnOk result (MayFollow me None self.old.state found × TakesRecord self.old found self.new) }
        ensures damaged { IsErrOf result Refusal.Damaged → MayFollow me None self.old.state found → ⊥ }
        ensures err { IfErr result (λ e. (e ≡ Refusal.Damaged) ⊎ (e ≡ Refusal.NoMemory)) }
    {
        match found {
            Record::Prepare(entry) => self.memory.replay_prepare(me, entry),
            Record::Learned { to, placed_ids } => {
                let learned = self.memory.replay_learned(alloc, to, placed_ids.as_slice());
                drop(placed_ids);
                learned
            }
            Record::Dropped(id) => self.memory.replay_dropped(id),
            Record::Epoch {
                epoch,
                store,
                shards,
                node,
            } => self.memory.replay_epoch(me, epoch, store, shards, node),
            Record::Horizon(place) => self.memory.replay_horizon(place),
            Record::Checkpoint(mark) => self.begin(mark),
            // A shard decides nothing.
            Record::Decision { place: _, entry } => {
                drop(entry);
                Err(Refusal::Damaged)
            }
        }
    }

    fn begin(&mut self, mark: Mark) -> Result<(), Refusal>
        requires { self.old.inside ≡ None }
        ensures ok { OnOk result (MayBegin self.old.state.epoch (checkpoint_record mark) × TakesRecord self.old (checkpoint_record mark) self.new) }
        ensures damaged { IsErrOf result Refusal.Damaged → MayBegin self.old.state.epoch (checkpoint_record mark) → ⊥ }
        ensures err { IfErr result (λ e. e ≡ Refusal.Damaged) }
    {
        let begun = match &mark {
            Mark::Begins(generation) => Some(*generation),
            // No part of a checkpoint comes before its begin.
            Mark::Row { .. } | Mark::Ends(_) => None,
        };
        drop(mark);
        match begun {
            Some(generation) => self.begin_of(generation),
            None => Err(Refusal::Damaged),
        }
    }

    #[tactic(auto, unfolding(records::specs::Replays::shard_step))]
    fn begin_of(&mut self, generation: u64) -> Result<(), Refusal>
        requires { self.old.inside ≡ None }
        ensures ok { OnOk result (IsFirst self.old.state.epoch generation × TakesRecord self.old (checkpoint_record (begins_mark generation)) self.new) }
        ensures damaged { IsErrOf result Refusal.Damaged → IsFirst self.old.state.epoch generation → ⊥ }
        ensures err { IfErr result (λ e. e ≡ Refusal.Damaged) }
    {
        if !may_begin(self.memory.epoch(), generation) {
            return Err(Refusal::Damaged);
        }
        self.inside = Some(Inside::begun(generation));
        Ok(())
    }

    // Within a checkpoint.
    fn take_inside(
        &mut self,
        alloc: Global,
        me: Identity,
        inside: Inside,
        found: Record,
    ) -> Result<(), Refusal>
        requires inside { self.old.inside ≡ Some inside }
        requires spelled { IsRecord found }
        ensures ok { OnOk result (MayComeInside me inside self.old.state found × TakesRecord self.old found self.new) }
        ensures damaged { IsErrOf result Refusal.Damaged → MayComeInside me inside self.old.state found → ⊥ }
        ensures err { IfErr result (λ e. (e ≡ Refusal.Damaged) ⊎ (e ≡ Refusal.NoMemory)) }
    {
        match found {
            Record::Prepare(entry) => self.take_prepare(me, inside, entry),
            Record::Learned { to, placed_ids } => {
                let taken = self.take_learned(alloc, inside, to, placed_ids.as_slice());
                drop(placed_ids);
                taken
            }
            Record::Epoch {
                epoch,
                store,
                shards,
                node,
            } => self.take_epoch(me, inside, epoch, store, shards, node),
            Record::Horizon(place) => self.take_horizon(inside, place),
            Record::Checkpoint(mark) => self.take_mark(me, inside, mark),
            // A shard decides nothing, and what it dropped is not in doubt.
            other => {
                drop(other);
                Err(Refusal::Damaged)
            }
        }
    }

    fn take_prepare(&mut self, me: Identity, inside: Inside, entry: Entry) -> Result<(), Refusal>
        requires inside { self.old.inside ≡ Some inside }
        requires prepared { IsPrepared entry }
        ensures ok { OnOk result (MayTakePrepare me inside self.old.state entry × TakesRecord self.old (prepare_record entry) self.new) }
        ensures damaged { IsErrOf result Refusal.Damaged → MayTakePrepare me inside self.old.state entry → ⊥ }
        ensures err { IfErr result (λ e. (e ≡ Refusal.Damaged) ⊎ (e ≡ Refusal.NoMemory)) }
    {
        if !may_take_prepare(me, inside, &self.memory, &entry) {
            return Err(Refusal::Damaged);
        }
        self.memory.prepare(entry)?;
        self.inside = Some(inside.behind(Stage::Doubted));
        Ok(())
    }

    fn take_learned(
        &mut self,
        alloc: Global,
        inside: Inside,
        to: u64,
        placed_ids: &[PlacedId],
    ) -> Result<(), Refusal>
        requires { self.old.inside ≡ Some inside }
        ensures ok { OnOk result (MayTakeLearned inside self.old.state to placed_ids.now × TakesRecord self.old (learned_record to placed_ids.now) self.new) }
        ensures damaged { IsErrOf result Refusal.Damaged → MayTakeLearned inside self.old.state to placed_ids.now → ⊥ }
        ensures err { IfErr result (λ e. (e ≡ Refusal.Damaged) ⊎ (e ≡ Refusal.NoMemory)) }
    {
        if !may_take_learned(inside, &self.memory, to, placed_ids) {
            return Err(Refusal::Damaged);
        }
        self.memory.learn(alloc, to, placed_ids)?;
        self.inside = Some(inside.behind(Stage::Listed));
        Ok(())
    }

    #[tactic(auto, unfolding(records::specs::Replays::shard_step))]
    fn take_epoch(
        &mut self,
        me: Identity,
        inside: Inside,
        epoch: u64,
        store: u64,
        shards: u8,
        node: u8,
    ) -> Result<(), Refusal>
        requires { self.old.inside ≡ Some inside }
        ensures ok { OnOk result (MayTakeEpoch me inside epoch store shards node × TakesRecord self.old (epoch_record epoch store shards node) self.new) }
        ensures damaged { IsErrOf result Refusal.Damaged → MayTakeEpoch me inside epoch store shards node → ⊥ }
        ensures err { IfErr result (λ e. e ≡ Refusal.Damaged) }
    {
        if !inside.may_take_epoch(me, epoch, store, shards, node) {
            return Err(Refusal::Damaged);
        }
        self.memory.open_epoch(epoch);
        self.inside = Some(inside.behind(Stage::Opened));
        Ok(())
    }

    fn take_horizon(&mut self, inside: Inside, place: u64) -> Result<(), Refusal>
        requires { self.old.inside ≡ Some inside }
        ensures ok { OnOk result (MayTakeHorizon inside self.old.state.horizon place × TakesRecord self.old (horizon_record place) self.new) }
        ensures damaged { IsErrOf result Refusal.Damaged → MayTakeHorizon inside self.old.state.horizon place → ⊥ }
        ensures err { IfErr result (λ e. e ≡ Refusal.Damaged) }
    {
        if !inside.may_take_horizon(self.memory.horizon(), place) {
            return Err(Refusal::Damaged);
        }
        self.memory.collect(place);
        self.inside = Some(inside.behind(Stage::Bounded));
        Ok(())
    }

    fn take_mark(&mut self, me: Identity, inside: Inside, mark: Mark) -> Result<(), Refusal>
        requires { self.old.inside ≡ Some inside }
        ensures ok { OnOk result (MayMark me inside self.old.state mark × TakesRecord self.old (checkpoint_record mark) self.new) }
        ensures damaged { IsErrOf result Refusal.Damaged → MayMark me inside self.old.state mark → ⊥ }
        ensures err { IfErr result (λ e. (e ≡ Refusal.Damaged) ⊎ (e ≡ Refusal.NoMemory)) }
    {
        match mark {
            // Checkpoints do not nest.
            Mark::Begins(_) => Err(Refusal::Damaged),
            Mark::Row { place, change } => {
                let taken = self.take_row(me, inside, place, &change);
                drop(change);
                taken
            }
            Mark::Ends(generation) => self.end(inside, generation),
        }
    }

    #[tactic(auto, unfolding(records::specs::Replays::shard_step))]
    fn take_row(
        &mut self,
        me: Identity,
        inside: Inside,
        place: u64,
        change: &Change,
    ) -> Result<(), Refusal>
        requires { self.old.inside ≡ Some inside }
        ensures ok { OnOk result (MayTakeRow me inside self.old.state place change.now × TakesRecord self.old (checkpoint_record (row_mark place change.now)) self.new) }
        ensures damaged { IsErrOf result Refusal.Damaged → MayTakeRow me inside self.old.state place change.now → ⊥ }
        ensures err { IfErr result (λ e. (e ≡ Refusal.Damaged) ⊎ (e ≡ Refusal.NoMemory)) }
    {
        if !may_take_row(me, inside, &self.memory, place, change) {
            return Err(Refusal::Damaged);
        }
        self.memory.add_version(place, change)?;
        Ok(())
    }

    #[tactic(auto, unfolding(records::specs::Replays::shard_step))]
    fn end(&mut self, inside: Inside, generation: u64) -> Result<(), Refusal>
        requires { self.old.inside ≡ Some inside }
        ensures ok { OnOk result (MayEnd inside self.old.state generation × TakesRecord self.old (checkpoint_record (ends_mark generation)) self.new) }
        ensures damaged { IsErrOf result Refusal.Damaged → MayEnd inside self.old.state generation → ⊥ }
        ensures err { IfErr result (λ e. e ≡ Refusal.Damaged) }
    {
        if !may_end(inside, &self.memory, generation) {
            return Err(Refusal::Damaged);
        }
        self.inside = None;
        Ok(())
    }
}
