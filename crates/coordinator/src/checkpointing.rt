// A checkpoint of a coordinator, in place of all its records.
ghost use Rattle.std.specs.Prelude.{◌≡◌, ◌⊎◌, ◌↔◌, ◌≤◌, ◌<◌, ◌+◌, [], Err, OnErr, OnOk, IfErr, IfOk, IsErrOf, true, false, length};
ghost use Rattle.journal.specs.Ahead.{HasOldOrNewOr, HasPointCause, StaysOrGains, checkpoint_of};
ghost use Rattle.journal.specs.Records.{HasRecords, LeavesEach};
ghost use Rattle.records.specs.Checkpoints.{generation_of};
ghost use Rattle.records.specs.Format.{AreRecords};
ghost use Rattle.records.specs.Replays.{greatest_number};
ghost use Rattle.decisions.specs.Checkpoints.{HasOldNewOrPoint, next_checkpoint};
ghost use Rattle.decisions.specs.Coordinators.{IsRunning, KeepsOpen, coordinator_journal};
ghost use Rattle.coordinator.specs.Checkpoints.{HasLen, heads_of, told_by};
ghost use Rattle.coordinator.specs.Keeping.{risen as risen_horizon};

use crate::Coordinator;
use crate::coordinator::rise;
use crate::known::Known;
use device::Device;
use journal::{Journal, len_of};
use ledger::Ledger;
use records::{Identity, Record};
use std::alloc::{AllocError, Global};
use tuples::Refusal;

// The horizon once what is staged is durable.
pub(crate) fn risen(horizon: u64, rising: Option<u64>) -> u64
    ensures { result ≡ risen_horizon horizon rising }
{
    match rising {
        Some(place) => place,
        None => horizon,
    }
}

// The records before the decisions.
pub(crate) fn heads(me: Identity, epoch: u64, horizon: u64) -> [Record; 2]
    ensures are { AreRecords result }
    ensures value { result ≡ heads_of me epoch horizon }
{
    let opened = Record::Epoch {
        epoch,
        store: me.store(),
        shards: me.shards().count(),
        node: me.node(),
    };
    [opened, Record::Horizon(horizon)]
}

// Writes a checkpoint of the decisions of a ledger above a horizon.
fn write<D: Device>(
    journal: &mut Journal<D>,
    alloc: Global,
    me: Identity,
    epoch: u64,
    horizon: u64,
    ledger: &Ledger,
) -> Result<(), Refusal>
    requires behind { ledger.now.base ≤ horizon }
    requires within { horizon ≤ ledger.now.base + length ledger.now.log }
    ensures honest { (D.honest journal.old.a ↔ D.honest journal.new.a) × (D.honest journal.old.b ↔ D.honest journal.new.b) }
    ensures any_moment { D.honest journal.old.a → D.honest journal.old.b → journal.old.is_down ≡ false → LeavesEach D.moment D.left_since journal.old.a journal.old.b journal.new.a journal.new.b
        (HasOldOrNewOr journal.old.durable journal.old.staged (checkpoint_of (generation_of journal.old.durable + 1) (told_by me epoch horizon ledger.now))) }
    ensures ok { D.honest journal.old.a → D.honest journal.old.b → OnOk result ((journal.new.durable ≡ checkpoint_of (generation_of journal.old.durable + 1) (told_by me epoch horizon ledger.now))
        × HasRecords (D.state journal.new.a) (D.state journal.new.b) journal.new.durable) }
    ensures up { OnOk result ((journal.old.is_down ≡ false) × (journal.new.is_down ≡ false) × (journal.new.staged ≡ [])) }
    ensures err { IfErr result (λ e. ((e ≡ Refusal.Down) × (journal.new.is_down ≡ true)) ⊎ ((journal.new ≡ journal.old) × ((e ≡ Refusal.NoMemory) ⊎ (e ≡ Refusal.Full)))) }
    ensures full { D.honest journal.old.a → D.honest journal.old.b → IsErrOf result Refusal.Full → greatest_number ≤ generation_of journal.old.durable }
    ensures cause { IsErrOf result Refusal.Down → (journal.old.is_down ≡ true) ⊎ HasPointCause D.state D.honest journal.old journal.new }
    ensures counts { ((D.state journal.old.a).failures ≤ (D.state journal.new.a).failures) × ((D.state journal.old.b).failures ≤ (D.state journal.new.b).failures) }
    ensures none { IsErrOf result Refusal.Down ⊎ (((D.state journal.new.a).failures ≡ (D.state journal.old.a).failures) × ((D.state journal.new.b).failures ≡ (D.state journal.old.b).failures)) }
    ensures moved { OnErr result (StaysOrGains journal.old.end journal.old.staged journal.new.end) }
    ensures quiet { journal.old.is_down ≡ true → (result ≡ Err Refusal.Down) × (journal.new ≡ journal.old) }
    ensures last { D.honest journal.old.a → D.honest journal.old.b → journal.old.is_down ≡ false → greatest_number ≤ generation_of journal.old.durable → (result ≡ Err Refusal.Full) × (journal.new ≡ journal.old) }
{
    let heads = heads(me, epoch, horizon);
    let mut known = Known::new(&heads, ledger, horizon);
    journal.checkpoint(alloc, &mut known)
}

impl<D: Device> Coordinator<D> {
    /// How many bytes a checkpoint of what the coordinator knows has, but for the few around its records. It takes the memory of one batch.
    pub fn checkpoint_len(&self, alloc: Global) -> Result<u64, AllocError>
        ensures { IsRunning D.state D.honest self.now → IfOk result (HasLen (next_checkpoint self.now)) }
    {
        let horizon = risen(self.horizon, self.rising);
        let heads = heads(self.me, self.epoch, horizon);
        let mut known = Known::new(&heads, &self.ledger, horizon);
        len_of(alloc, &mut known)
    }

    /// Whether the disk has the room for a checkpoint of so many bytes, as far as that can be told (`Device::has_room`).
    pub fn has_point_room(&self, len: u64) -> bool {
        self.journal.has_point_room(len)
    }

    /// Makes durable what is staged, and then a checkpoint of what the coordinator knows in place of all its records: the decisions at or below
    /// the horizon, a staged one too, are in it no more. It takes the memory of one batch, before any call of a device.
    ///
    /// `Down` as of a flush: the next opening finds the old records, with what was staged or without, or the checkpoint. `NoMemory`, and `Full`
    /// after the last generation: nothing is changed.
    pub fn checkpoint(&mut self, alloc: Global) -> Result<(), Refusal>
        ensures honest { (D.honest self.old.a ↔ D.honest self.new.a) × (D.honest self.old.b ↔ D.honest self.new.b) }
        ensures any_moment { IsRunning D.state D.honest self.old → LeavesEach D.moment D.left_since self.old.a self.old.b self.new.a self.new.b (HasOldNewOrPoint self.old) }
        ensures ok { IsRunning D.state D.honest self.old → OnOk result (IsRunning D.state D.honest self.new × (self.new.durable ≡ next_checkpoint self.old) × (self.new.staged ≡ []) × (self.new.is_down ≡ false)) }
        ensures keeps { KeepsOpen self.old self.new }

        // If it is refused, the list of the current bank ends where it did, or, after `Down`, after what was staged.
        ensures moved { OnErr result (StaysOrGains self.old.end self.old.staged self.new.end) }

        // If it is down, no call is made, and after the last generation none either.
        ensures down { self.old.is_down ≡ true → (result ≡ Err Refusal.Down) × (self.new ≡ self.old) }
        ensures last { IsRunning D.state D.honest self.old → greatest_number ≤ generation_of self.old.durable → self.new ≡ self.old }
        ensures full { IsRunning D.state D.honest self.old → IsErrOf result Refusal.Full → greatest_number ≤ generation_of self.old.durable }
        ensures err { IfErr result (λ e. ((e ≡ Refusal.Down) × (self.new.is_down ≡ true)) ⊎ ((self.new ≡ self.old) × ((e ≡ Refusal.NoMemory) ⊎ (e ≡ Refusal.Full)))) }
        ensures cause { IsErrOf result Refusal.Down → (self.old.is_down ≡ true) ⊎ HasPointCause D.state D.honest (coordinator_journal self.old) (coordinator_journal self.new) }
        ensures counts { ((D.state self.old.a).failures ≤ (D.state self.new.a).failures) × ((D.state self.old.b).failures ≤ (D.state self.new.b).failures) }
        ensures none { IsErrOf result Refusal.Down ⊎ (((D.state self.new.a).failures ≡ (D.state self.old.a).failures) × ((D.state self.new.b).failures ≡ (D.state self.old.b).failures)) }
    {
        let horizon = risen(self.horizon, self.rising);
        match write(
            &mut self.journal,
            alloc,
            self.me,
            self.epoch,
            horizon,
            &self.ledger,
        ) {
            Ok(()) => {
                self.kept = self.ledger.end();
                rise(&mut self.ledger, &mut self.horizon, self.rising);
                self.rising = None;
                Ok(())
            }
            Err(refusal) => Err(refusal),
        }
    }
}
