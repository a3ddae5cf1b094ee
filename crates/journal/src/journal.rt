// A journal: records are staged, and become durable by one append.
ghost use Rattle.std.specs.Prelude.{◌≡◌, ◌⊎◌, ◌↔◌, ◌≤◌, ◌<◌, ◌+◌, ◌^◌, ◌++◌, ◌∷◌, [], List, Some, OnOk, OnErr, IfErr, IsErrOf, length, true, false, min, ◌-◌, All, ℕ};
ghost use Rattle.device.specs.Device.{Elapses, HasFailed, Keeps, LeavesOnly, left};
ghost use Rattle.gated.specs.Gated.{record_head};
ghost use Rattle.journal.specs.Records.{BankLacksRoom, IsSetOn, after_batch, bank_records, HasCause, HasNoRoom, HasRecords, LacksRoom, HasOldOrNew, LeavesBoth, batch_size, durable_of};
ghost use Rattle.journal.specs.Rest.{AreLed, BankHas, IsAtRest, IsPlain, bank_of};
ghost use Rattle.records.specs.declared.record.Record.{Record as AnyRecord};
ghost use Rattle.records.specs.declared.record.Record.TheVariants.{Prepare as prepare_record};
ghost use Rattle.records.specs.Format.{IsPrepared, IsRecord};

use crate::batch::Batch;
use crate::{Bank, RecordRef};
use device::{Device, Tear};
use gated::GatedLog;
use records::Record;
use std::alloc::Global;
use std::marker::Model;
use tuples::{Entry, Refusal};

/// The journal of a node over its two devices.
#[derive(Drop)]
pub struct Journal<D: Device> {
    pub(crate) a: GatedLog<D>,
    pub(crate) b: GatedLog<D>,
    // whether bank b is the current one
    pub(crate) is_b: bool,
    // that of the current bank
    pub(crate) generation: u64,
    pub(crate) staged: Batch,
    pub(crate) is_down: bool,
}

impl<D: Device> Model for Journal<D> {
    ghost use Rattle.std.specs.Prelude.{◌≡◌, false, All};
    ghost use Rattle.journal.specs.Records.{View, durable_of};
    ghost use Rattle.journal.specs.Rest.{AreLed, IsAtRest, IsPlain, bank_of};

    ghost Value = { View D };

    ghost view = { λ j. record { a = j.a.device; b = j.b.device; end = bank_of j.is_b j.a.end j.b.end; durable = durable_of (D.state j.a.device) (D.state j.b.device); staged = j.staged; is_down = j.is_down } };

    ghost invariant = { λ j. All IsPlain j.staged × (j.is_down ≡ false → (D.honest j.a.device → IsAtRest (D.state j.a.device)) × (D.honest j.b.device → IsAtRest (D.state j.b.device))
        × (D.honest j.a.device → D.honest j.b.device → AreLed (D.state j.a.device) (D.state j.b.device) j.is_b j.generation)) };
}

// Appends what is staged as one batch.
pub(crate) fn append_batch<D: Device>(
    log: &mut GatedLog<D>,
    staged: &mut Batch,
) -> Result<(), Refusal>
    requires some { 1 ≤ length staged.old }
    requires rest { D.honest log.old.device → IsAtRest (D.state log.old.device) }
    ensures honest { D.honest log.old.device ↔ D.honest log.new.device }
    ensures empty { staged.new ≡ [] }
    ensures rest { D.honest log.old.device → OnOk result (IsAtRest (D.state log.new.device)) }
    ensures any_moment { (durable : List AnyRecord) → D.honest log.old.device → BankHas (D.state log.old.device) durable
        → LeavesOnly D.moment D.left_since log.old.device log.new.device (λ c. (bank_records c ≡ Some durable) ⊎ (bank_records c ≡ Some (durable ++ staged.old))) }
    ensures ok { (durable : List AnyRecord) → D.honest log.old.device → BankHas (D.state log.old.device) durable → OnOk result (BankHas (D.state log.new.device) (durable ++ staged.old)) }
    ensures counts { (D.state log.old.device).failures ≤ (D.state log.new.device).failures }
    ensures none { OnOk result ((D.state log.new.device).failures ≡ (D.state log.old.device).failures) }
    ensures end { OnOk result (log.new.end ≡ log.old.end + batch_size staged.old + record_head) }
    ensures unmoved { OnErr result (log.new.end ≡ log.old.end) }
    ensures cause { OnErr result (HasFailed (D.state log.old.device) (D.state log.new.device) ⊎ LacksRoom D.state D.honest log.old.device log.old.end staged.old) }
{
    staged.append_to(log)?;
    Ok(())
}

// Appends what is staged to the current bank.
fn append_current<D: Device>(
    a: &mut GatedLog<D>,
    b: &mut GatedLog<D>,
    is_b: bool,
    staged: &mut Batch,
) -> Result<(), Refusal>
    requires some { 1 ≤ length staged.old }
    requires plain { All IsPlain staged.old }
    requires rest_a { D.honest a.old.device → IsAtRest (D.state a.old.device) }
    requires rest_b { D.honest b.old.device → IsAtRest (D.state b.old.device) }
    ensures honest { (D.honest a.old.device ↔ D.honest a.new.device) × (D.honest b.old.device ↔ D.honest b.new.device) }
    ensures empty { staged.new ≡ [] }
    ensures rest_a { D.honest a.old.device → OnOk result (IsAtRest (D.state a.new.device)) }
    ensures rest_b { D.honest b.old.device → OnOk result (IsAtRest (D.state b.new.device)) }
    ensures led { (generation : ℕ) → D.honest a.old.device → D.honest b.old.device → AreLed (D.state a.old.device) (D.state b.old.device) is_b generation
        → OnOk result (AreLed (D.state a.new.device) (D.state b.new.device) is_b generation) }
    ensures ok { (generation : ℕ) → D.honest a.old.device → D.honest b.old.device → AreLed (D.state a.old.device) (D.state b.old.device) is_b generation
        → OnOk result (durable_of (D.state a.new.device) (D.state b.new.device) ≡ durable_of (D.state a.old.device) (D.state b.old.device) ++ staged.old) }
    ensures any_moment { (generation : ℕ) → D.honest a.old.device → D.honest b.old.device → AreLed (D.state a.old.device) (D.state b.old.device) is_b generation
        → LeavesBoth D.moment D.left_since a.old.device b.old.device a.new.device b.new.device (HasOldOrNew (durable_of (D.state a.old.device) (D.state b.old.device)) staged.old) }
    ensures counts { ((D.state a.old.device).failures ≤ (D.state a.new.device).failures) × ((D.state b.old.device).failures ≤ (D.state b.new.device).failures) }
    ensures none { OnOk result (((D.state a.new.device).failures ≡ (D.state a.old.device).failures) × ((D.state b.new.device).failures ≡ (D.state b.old.device).failures)) }
    ensures end { OnOk result (bank_of is_b a.new.end b.new.end ≡ bank_of is_b a.old.end b.old.end + batch_size staged.old + record_head) }
    ensures unmoved { OnErr result (bank_of is_b a.new.end b.new.end ≡ bank_of is_b a.old.end b.old.end) }
    ensures cause { OnErr result (HasFailed (D.state a.old.device) (D.state a.new.device) ⊎ (HasFailed (D.state b.old.device) (D.state b.new.device)
        ⊎ BankLacksRoom D.state D.honest a.old.device b.old.device (bank_of is_b a.old.end b.old.end) staged.old)) }
{
    if is_b {
        append_batch(b, staged)
    } else {
        append_batch(a, staged)
    }
}

impl<D: Device> Journal<D> {
    /// A journal over what was found, with nothing staged.
    pub(crate) fn new(
        a: GatedLog<D>,
        b: GatedLog<D>,
        is_b: bool,
        generation: u64,
        staged: Batch,
    ) -> Journal<D>
        requires empty { staged ≡ [] }
        requires rest_a { D.honest a.device → IsAtRest (D.state a.device) }
        requires rest_b { D.honest b.device → IsAtRest (D.state b.device) }
        requires led { D.honest a.device → D.honest b.device → AreLed (D.state a.device) (D.state b.device) is_b generation }
        ensures { result ≡ record { a = a.device; b = b.device; end = bank_of is_b a.end b.end; durable = durable_of (D.state a.device) (D.state b.device); staged = staged; is_down = false } }
    {
        Journal {
            a,
            b,
            is_b,
            generation,
            staged,
            is_down: false,
        }
    }

    /// Adds a record to what is staged, which takes no memory. `Full`, and nothing changed, if the batch has 65,535 records
    /// or would pass 1,048,576 bytes. It is no record that begins a checkpoint.
    pub fn stage(&mut self, next: &Record) -> Result<(), Refusal>
        requires spellable { IsRecord next.now }
        requires plain { IsPlain next.now }
        ensures ok { OnOk result (self.new ≡ record self.old { staged = self.old.staged ++ next.now ∷ [] }) }
        ensures room { OnOk result (HasNoRoom self.old.staged next.now → ⊥) }
        ensures full { IsErrOf result Refusal.Full → HasNoRoom self.old.staged next.now }
        ensures err { IfErr result (λ e. (e ≡ Refusal.Full) × (self.new ≡ self.old)) }
    {
        self.staged.push(RecordRef::Whole(next))
    }

    /// Stages the prepare of a part, which is not copied for it: as `stage` of that record.
    pub fn stage_prepare(&mut self, part: &Entry) -> Result<(), Refusal>
        requires { IsPrepared part.now }
        ensures ok { OnOk result (self.new ≡ record self.old { staged = self.old.staged ++ prepare_record part.now ∷ [] }) }
        ensures room { OnOk result (HasNoRoom self.old.staged (prepare_record part.now) → ⊥) }
        ensures full { IsErrOf result Refusal.Full → HasNoRoom self.old.staged (prepare_record part.now) }
        ensures err { IfErr result (λ e. (e ≡ Refusal.Full) × (self.new ≡ self.old)) }
    {
        self.staged.push(RecordRef::Prepare(part))
    }

    /// Whether one record more fits into what is staged, which stays as it is. It takes no memory.
    pub fn has_room(&mut self, next: &Record) -> bool
        requires { IsRecord next.now }
        ensures same { self.new ≡ self.old }
        ensures room { result ≡ true → HasNoRoom self.old.staged next.now → ⊥ }
        ensures full { result ≡ false → HasNoRoom self.old.staged next.now }
    {
        self.staged.has_room(next)
    }

    /// Makes durable what is staged, in one batch: four device calls, or none if nothing is staged. It takes no memory.
    ///
    /// `Down` if a device failed, or the list of the current bank would end past 2^40 bytes. Then the staged records may be durable or
    /// not, which the next opening tells. In memory they are staged no more, and the journal is down: each flush answers `Down`
    /// without a call, so that nothing which is staged from then on becomes durable, and the devices have to be opened again.
    pub fn flush(&mut self) -> Result<(), Refusal>
        ensures honest { (D.honest self.old.a ↔ D.honest self.new.a) × (D.honest self.old.b ↔ D.honest self.new.b) }

        // At every moment of the call a stop leaves the durable records, with all that is staged or without.
        ensures any_moment { D.honest self.old.a → D.honest self.old.b → self.old.is_down ≡ false
            → LeavesBoth D.moment D.left_since self.old.a self.old.b self.new.a self.new.b (HasOldOrNew self.old.durable self.old.staged) }

        // From then on each stop leaves them with it.
        ensures ok { D.honest self.old.a → D.honest self.old.b → OnOk result ((self.new.durable ≡ self.old.durable ++ self.old.staged) × HasRecords (D.state self.new.a) (D.state self.new.b) self.new.durable) }
        ensures up { OnOk result ((self.old.is_down ≡ false) × (self.new.is_down ≡ false) × (self.new.staged ≡ [])) }
        ensures err { IfErr result (λ e. (e ≡ Refusal.Down) × (self.new.is_down ≡ true)) }
        ensures forgets { OnErr result ((self.old.is_down ≡ true) ⊎ (self.new.staged ≡ [])) }
        ensures cause { OnErr result ((self.old.is_down ≡ true) ⊎ HasCause D.state D.honest self.old self.new) }
        ensures counts { ((D.state self.old.a).failures ≤ (D.state self.new.a).failures) × ((D.state self.old.b).failures ≤ (D.state self.new.b).failures) }
        ensures none { OnOk result (((D.state self.new.a).failures ≡ (D.state self.old.a).failures) × ((D.state self.new.b).failures ≡ (D.state self.old.b).failures)) }
        ensures end { OnOk result ((self.old.staged ≡ []) ⊎ (self.new.end ≡ after_batch self.old)) }
        ensures unmoved { OnErr result (self.new.end ≡ self.old.end) }

        // If a device failed before, or nothing is staged, no call is made.
        ensures quiet { ((self.old.is_down ≡ true) ⊎ (self.old.staged ≡ [])) → self.new ≡ self.old }
    {
        if self.is_down {
            return Err(Refusal::Down);
        }
        if self.staged.len() == 0 {
            return Ok(());
        }
        match append_current(&mut self.a, &mut self.b, self.is_b, &mut self.staged) {
            Ok(()) => Ok(()),
            Err(_) => {
                self.is_down = true;
                Err(Refusal::Down)
            }
        }
    }

    /// How many bytes the current bank has, up to the closed gate that ends its list and with it.
    pub fn bank_len(&self) -> u64
        ensures { result ≡ min (2 ^ 64 - 1) (self.now.end + 1) }
    {
        let current = if self.is_b { &self.b } else { &self.a };
        (current.end() as u64).saturating_add(1)
    }

    /// How many records are staged.
    pub fn staged_len(&self) -> usize
        ensures { result ≡ length self.now.staged }
    {
        self.staged.len()
    }

    /// Whether a flush failed since the opening. Then no later flush makes anything durable, though `stage` and `has_room` still
    /// answer of the memory: the devices have to be opened again.
    pub fn is_down(&self) -> bool
        ensures { result ≡ self.now.is_down }
    {
        self.is_down
    }

    /// Sets the script of one device, and changes nothing else.
    pub fn fail(&mut self, bank: Bank, n: u64, tear: Tear)
        ensures set { IsSetOn D.set_to_fail bank n tear self.old.a self.old.b self.new.a self.new.b }
        ensures honest { (D.honest self.old.a ↔ D.honest self.new.a) × (D.honest self.old.b ↔ D.honest self.new.b) }
        ensures keeps_a { D.honest self.old.a → Keeps (D.state self.old.a) (D.state self.new.a) }
        ensures keeps_b { D.honest self.old.b → Keeps (D.state self.old.b) (D.state self.new.b) }
        ensures failures { ((D.state self.new.a).failures ≡ (D.state self.old.a).failures) × ((D.state self.new.b).failures ≡ (D.state self.old.b).failures) }
        ensures time_a { D.honest self.old.a → Elapses (D.moment self.old.a) (D.moment self.new.a) (D.left_since self.old.a) (D.left_since self.new.a) (left (D.state self.new.a)) }
        ensures time_b { D.honest self.old.b → Elapses (D.moment self.old.b) (D.moment self.new.b) (D.left_since self.old.b) (D.left_since self.new.b) (left (D.state self.new.b)) }
        ensures staged { (self.new.staged ≡ self.old.staged) × (self.new.is_down ≡ self.old.is_down) × (self.new.end ≡ self.old.end) }
        ensures durable { D.honest self.old.a → D.honest self.old.b → self.new.durable ≡ self.old.durable }
    {
        match bank {
            Bank::A => self.a.fail(n, tear),
            Bank::B => self.b.fail(n, tear),
        }
    }

    /// How many calls of both devices have failed so far; it stays at its greatest value.
    pub fn failures(&self) -> u64
        ensures { result ≡ min (2 ^ 64 - 1) ((D.state self.now.a).failures + (D.state self.now.b).failures) }
    {
        let of_b = self.b.device().failures();
        self.a.device().failures().saturating_add(of_b)
    }

    /// Its devices.
    pub fn devices(&self) -> (&D, &D)
        ensures { (result.0.now ≡ self.now.a) × (result.1.now ≡ self.now.b) }
    {
        (self.a.device(), self.b.device())
    }

    /// Gives the devices back.
    pub fn into_devices(self) -> (D, D)
        ensures { (result.0 ≡ self.a) × (result.1 ≡ self.b) }
    {
        let Journal {
            a,
            b,
            is_b: _,
            generation: _,
            staged: _,
            is_down: _,
        } = self;
        (a.into_device(), b.into_device())
    }
}
