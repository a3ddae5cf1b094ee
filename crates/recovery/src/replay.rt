// The records of a coordinator, as they are read from the first on.
ghost use Rattle.std.specs.Prelude.{◌≡◌, ◌⊎◌, IfOk, IfErr, IsErrOf, None, Some};
ghost use Rattle.records.specs.declared.mark.Mark.TheVariants.{Begins as begins_mark, Ends as ends_mark};
ghost use Rattle.records.specs.declared.record.Record.TheVariants.{Checkpoint as checkpoint_record, Decision as decision_record, Epoch as epoch_record, Horizon as horizon_record};
ghost use Rattle.records.specs.Coordinators.{MayComeNextInside, MayEndDecisions, MayFollowNext, MayMarkNext, MayTakeDecision, MayTakeOpening, empty_coordinator};
ghost use Rattle.records.specs.Format.{IsDecision, IsRecord};
ghost use Rattle.records.specs.Inside.{IsFirst, MayBegin};
ghost use Rattle.records.specs.Replays.{MayTakeHorizon};
ghost use Rattle.recovery.specs.Reading.{AreBehindHorizon, TakesDecided, nothing_decided};

use crate::Recovery;
use crate::rules::{may_end, may_take_opening};
use records::{Identity, Inside, Mark, Record, Stage, may_begin};
use std::alloc::Global;
use std::marker::Model;
use tuples::{Entry, Refusal};

/// What the records of a coordinator that were read so far stand for, and the unfinished checkpoint among them.
#[derive(Drop)]
pub struct Replay {
    inside: Option<Inside>,
    // within a checkpoint its decisions stand after the horizon
    recovery: Recovery,
}

impl Model for Replay {
    ghost use Rattle.records.specs.Coordinators.{CoordinatorState};
    ghost use Rattle.recovery.specs.Reading.{DecidedSoFar, IsReading, base_read};

    ghost Value = { DecidedSoFar };

    ghost view = { λ r. record { inside = r.inside; state = record { base = base_read r.inside r.recovery.base; log = r.recovery.log; horizon = r.recovery.horizon; epoch = r.recovery.epoch } } };

    ghost invariant = { λ r. IsReading r.inside r.recovery };
}

impl Replay {
    /// Before the first record; allocates nothing.
    pub fn new(alloc: Global) -> Replay
        ensures { result ≡ nothing_decided }
    {
        Replay {
            inside: None,
            recovery: Recovery::new(alloc),
        }
    }

    /// With the record that was found next, of this node: `Damaged` if it may not follow, `NoMemory`.
    pub fn take(self, alloc: Global, me: Identity, found: Record) -> Result<Replay, Refusal>
        requires { IsRecord found }
        ensures ok { IfOk result (λ r. MayFollowNext me self.inside self.state found × TakesDecided self found r) }
        ensures damaged { IsErrOf result Refusal.Damaged → MayFollowNext me self.inside self.state found → ⊥ }
        ensures err { IfErr result (λ e. (e ≡ Refusal.Damaged) ⊎ (e ≡ Refusal.NoMemory)) }
    {
        let Replay { inside, recovery } = self;
        match inside {
            Some(inside) => take_inside(alloc, me, inside, recovery, found),
            None => take_outside(me, recovery, found),
        }
    }

    /// What the records stand for, if no checkpoint is under way; else `Damaged`.
    pub fn into_recovery(self) -> Result<Recovery, Refusal>
        ensures ok { IfOk result (λ r. (r ≡ self.state) × (self.inside ≡ None)) }
        ensures damaged { IfErr result (λ e. (e ≡ Refusal.Damaged) × (self.inside ≡ None → ⊥)) }
    {
        let Replay { inside, recovery } = self;
        match inside {
            Some(_) => Err(Refusal::Damaged),
            None => Ok(recovery),
        }
    }
}

// If no checkpoint is under way.
fn outside(recovery: Recovery) -> Replay
    requires { recovery.epoch ≡ 0 → recovery ≡ empty_coordinator }
    ensures { result ≡ record { inside = None; state = recovery } }
{
    Replay {
        inside: None,
        recovery,
    }
}

// If one has begun.
fn within(inside: Inside, recovery: Recovery) -> Replay
    requires { AreBehindHorizon inside recovery }
    ensures { result ≡ record { inside = Some inside; state = record recovery { base = 0 } } }
{
    Replay {
        inside: Some(inside),
        recovery,
    }
}

#[tactic(auto, unfolding(records::specs::Coordinators::coordinator_step))]
fn take_outside(me: Identity, recovery: Recovery, found: Record) -> Result<Replay, Refusal>
    requires unopened { recovery.epoch ≡ 0 → recovery ≡ empty_coordinator }
    requires spelled { IsRecord found }
    ensures ok { IfOk result (λ r. MayFollowNext me None recovery found × TakesDecided (record { inside = None; state = recovery }) found r) }
    ensures damaged { IsErrOf result Refusal.Damaged → MayFollowNext me None recovery found → ⊥ }
    ensures err { IfErr result (λ e. (e ≡ Refusal.Damaged) ⊎ (e ≡ Refusal.NoMemory)) }
{
    match found {
        Record::Decision { place, entry } => Ok(outside(recovery.decide(place, entry)?)),
        Record::Epoch {
            epoch,
            store,
            shards,
            node,
        } => Ok(outside(recovery.open_epoch(me, epoch, store, shards, node)?)),
        Record::Horizon(place) => Ok(outside(recovery.raise(place)?)),
        Record::Checkpoint(mark) => begin(recovery, mark),
        // A coordinator prepares nothing.
        other => {
            drop(other);
            Err(Refusal::Damaged)
        }
    }
}

fn begin(recovery: Recovery, mark: Mark) -> Result<Replay, Refusal>
    requires { recovery.epoch ≡ 0 → recovery ≡ empty_coordinator }
    ensures ok { IfOk result (λ r. MayBegin recovery.epoch (checkpoint_record mark) × TakesDecided (record { inside = None; state = recovery }) (checkpoint_record mark) r) }
    ensures damaged { IsErrOf result Refusal.Damaged → MayBegin recovery.epoch (checkpoint_record mark) → ⊥ }
    ensures err { IfErr result (λ e. e ≡ Refusal.Damaged) }
{
    let begun = match &mark {
        Mark::Begins(generation) => Some(*generation),
        // No part of a checkpoint comes before its begin.
        Mark::Row { .. } | Mark::Ends(_) => None,
    };
    drop(mark);
    match begun {
        Some(generation) => begin_of(recovery, generation),
        None => Err(Refusal::Damaged),
    }
}

#[tactic(auto, unfolding(records::specs::Coordinators::coordinator_step))]
fn begin_of(recovery: Recovery, generation: u64) -> Result<Replay, Refusal>
    requires { recovery.epoch ≡ 0 → recovery ≡ empty_coordinator }
    ensures ok { IfOk result (λ r. IsFirst recovery.epoch generation × TakesDecided (record { inside = None; state = recovery }) (checkpoint_record (begins_mark generation)) r) }
    ensures damaged { IsErrOf result Refusal.Damaged → IsFirst recovery.epoch generation → ⊥ }
    ensures err { IfErr result (λ e. e ≡ Refusal.Damaged) }
{
    if !may_begin(recovery.epoch(), generation) {
        return Err(Refusal::Damaged);
    }
    Ok(within(Inside::begun(generation), recovery))
}

// Within a checkpoint.
fn take_inside(
    alloc: Global,
    me: Identity,
    inside: Inside,
    recovery: Recovery,
    found: Record,
) -> Result<Replay, Refusal>
    requires behind { AreBehindHorizon inside recovery }
    requires spelled { IsRecord found }
    ensures ok { IfOk result (λ r. MayComeNextInside me inside (record recovery { base = 0 }) found × TakesDecided (record { inside = Some inside; state = record recovery { base = 0 } }) found r) }
    ensures damaged { IsErrOf result Refusal.Damaged → MayComeNextInside me inside (record recovery { base = 0 }) found → ⊥ }
    ensures err { IfErr result (λ e. (e ≡ Refusal.Damaged) ⊎ (e ≡ Refusal.NoMemory)) }
{
    match found {
        Record::Decision { place, entry } => take_decision(inside, recovery, place, entry),
        Record::Epoch {
            epoch,
            store,
            shards,
            node,
        } => take_epoch(me, inside, recovery, epoch, store, shards, node),
        Record::Horizon(place) => take_horizon(alloc, inside, recovery, place),
        Record::Checkpoint(mark) => take_mark(inside, recovery, mark),
        // A coordinator prepares nothing.
        other => {
            drop(other);
            Err(Refusal::Damaged)
        }
    }
}

#[tactic(auto, unfolding(records::specs::Coordinators::coordinator_step))]
fn take_decision(
    inside: Inside,
    recovery: Recovery,
    place: u64,
    write: Entry,
) -> Result<Replay, Refusal>
    requires behind { AreBehindHorizon inside recovery }
    requires spelled { IsDecision place write }
    ensures ok { IfOk result (λ r. MayTakeDecision inside (record recovery { base = 0 }) place write × TakesDecided (record { inside = Some inside; state = record recovery { base = 0 } }) (decision_record place write) r) }
    ensures damaged { IsErrOf result Refusal.Damaged → MayTakeDecision inside (record recovery { base = 0 }) place write → ⊥ }
    ensures err { IfErr result (λ e. (e ≡ Refusal.Damaged) ⊎ (e ≡ Refusal.NoMemory)) }
{
    if inside.stage != Stage::Bounded {
        return Err(Refusal::Damaged);
    }
    Ok(within(inside, recovery.decide(place, write)?))
}

#[tactic(auto, unfolding(records::specs::Coordinators::coordinator_step))]
fn take_epoch(
    me: Identity,
    inside: Inside,
    recovery: Recovery,
    epoch: u64,
    store: u64,
    shards: u8,
    node: u8,
) -> Result<Replay, Refusal>
    requires { AreBehindHorizon inside recovery }
    ensures ok { IfOk result (λ r. MayTakeOpening me inside epoch store shards node × TakesDecided (record { inside = Some inside; state = record recovery { base = 0 } }) (epoch_record epoch store shards node) r) }
    ensures damaged { IsErrOf result Refusal.Damaged → MayTakeOpening me inside epoch store shards node → ⊥ }
    ensures err { IfErr result (λ e. e ≡ Refusal.Damaged) }
{
    if !may_take_opening(me, inside, epoch, store, shards, node) {
        return Err(Refusal::Damaged);
    }
    Ok(within(inside.behind(Stage::Opened), recovery.with_epoch(epoch)))
}

#[tactic(auto, unfolding(records::specs::Coordinators::coordinator_step))]
fn take_horizon(
    alloc: Global,
    inside: Inside,
    recovery: Recovery,
    place: u64,
) -> Result<Replay, Refusal>
    requires { AreBehindHorizon inside recovery }
    ensures ok { IfOk result (λ r. MayTakeHorizon inside recovery.horizon place × TakesDecided (record { inside = Some inside; state = record recovery { base = 0 } }) (horizon_record place) r) }
    ensures damaged { IsErrOf result Refusal.Damaged → MayTakeHorizon inside recovery.horizon place → ⊥ }
    ensures err { IfErr result (λ e. e ≡ Refusal.Damaged) }
{
    if !inside.may_take_horizon(recovery.horizon(), place) {
        return Err(Refusal::Damaged);
    }
    Ok(within(inside.behind(Stage::Bounded), recovery.behind(alloc, place)))
}

fn take_mark(inside: Inside, recovery: Recovery, mark: Mark) -> Result<Replay, Refusal>
    requires { AreBehindHorizon inside recovery }
    ensures ok { IfOk result (λ r. MayMarkNext inside mark × TakesDecided (record { inside = Some inside; state = record recovery { base = 0 } }) (checkpoint_record mark) r) }
    ensures damaged { IsErrOf result Refusal.Damaged → MayMarkNext inside mark → ⊥ }
    ensures err { IfErr result (λ e. e ≡ Refusal.Damaged) }
{
    let ended = match &mark {
        Mark::Ends(generation) => Some(*generation),
        // Checkpoints do not nest, and a coordinator has no versions.
        Mark::Begins(_) | Mark::Row { .. } => None,
    };
    drop(mark);
    match ended {
        Some(generation) => end(inside, recovery, generation),
        None => Err(Refusal::Damaged),
    }
}

#[tactic(auto, unfolding(records::specs::Coordinators::coordinator_step))]
fn end(inside: Inside, recovery: Recovery, generation: u64) -> Result<Replay, Refusal>
    requires { AreBehindHorizon inside recovery }
    ensures ok { IfOk result (λ r. MayEndDecisions inside generation × TakesDecided (record { inside = Some inside; state = record recovery { base = 0 } }) (checkpoint_record (ends_mark generation)) r) }
    ensures damaged { IsErrOf result Refusal.Damaged → MayEndDecisions inside generation → ⊥ }
    ensures err { IfErr result (λ e. e ≡ Refusal.Damaged) }
{
    if !may_end(inside, generation) {
        return Err(Refusal::Damaged);
    }
    Ok(outside(recovery))
}
