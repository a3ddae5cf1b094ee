// A coordinator over two devices.
ghost use Rattle.std.specs.Prelude.{◌≡◌, ◌⊎◌, ◌↔◌, ◌≤◌, ◌+◌, ◌^◌, ◌-◌, [], true, false, drop, length, min, OnOk, OnErr, IfErr, IsErr};
ghost use Rattle.device.specs.Device.{Elapses, Keeps, left};
ghost use Rattle.journal.specs.Records.{HasCause, HasOldOrNew, IsSetOn, LeavesBoth, after_batch};
ghost use Rattle.records.specs.Coordinators.{end_of};
ghost use Rattle.records.specs.Replays.{greatest_number};
ghost use Rattle.decisions.specs.Coordinators.{FlushesAll, IsRunning, KeepsOpen, coordinator_journal, kept_of};
ghost use Rattle.coordinator.specs.Keeping.{risen};

use device::{Device, Tear};
use journal::{Bank, Journal};
use ledger::Ledger;
use records::Identity;
use std::marker::Model;
use tuples::Refusal;

/// The coordinator of a store, over two devices.
#[derive(Drop)]
pub struct Coordinator<D: Device> {
    pub(crate) journal: Journal<D>,
    pub(crate) me: Identity,
    // how often it was opened
    pub(crate) epoch: u64,
    // the numbers of the open writes, in the order in which they were begun
    pub(crate) open_numbers: Vec<u64>,
    // the number that was given last
    pub(crate) given: u64,
    // the decisions above the durable horizon, staged ones among them
    pub(crate) ledger: Ledger,
    // the place of the last durable decision
    pub(crate) kept: u64,
    // the durable horizon
    pub(crate) horizon: u64,
    // the greatest staged horizon
    pub(crate) rising: Option<u64>,
}

impl<D: Device> Model for Coordinator<D> {
    ghost use Rattle.std.specs.Prelude.{[]};
    ghost use Rattle.decisions.specs.Coordinators.{CoordinatorView};
    ghost use Rattle.coordinator.specs.Keeping.{IsKept, newest_first};

    ghost Value = { CoordinatorView D };

    ghost view = { λ c. record { a = c.journal.a; b = c.journal.b; end = c.journal.end; durable = c.journal.durable; staged = c.journal.staged; is_down = c.journal.is_down; me = c.me; open_ids = newest_first c.epoch c.open_numbers.items []; given = c.given } };

    ghost invariant = { λ c. IsKept D.state D.honest c.journal c.ledger c.epoch c.kept c.horizon c.rising c.open_numbers.items c.given };
}

// Forgets the decisions up to a horizon that became durable.
pub(crate) fn rise(ledger: &mut Ledger, horizon: &mut u64, rising: Option<u64>)
    requires base { ledger.old.base ≡ horizon.old }
    requires rises { horizon.old ≤ risen horizon.old rising }
    requires within { risen horizon.old rising ≤ ledger.old.base + length ledger.old.log }
    ensures horizon { horizon.new ≡ risen horizon.old rising }
    ensures ledger { ledger.new ≡ record ledger.old { base = risen horizon.old rising; log = drop (risen horizon.old rising - horizon.old) ledger.old.log } }
{
    if let Some(place) = rising {
        ledger.forget(place);
        *horizon = place;
    }
}

impl<D: Device> Coordinator<D> {
    /// Makes durable what is staged, and forgets the decisions up to a horizon that becomes durable. It takes no memory.
    ///
    /// After `Down` what was staged may be durable or not, and the coordinator has to be opened again.
    pub fn flush(&mut self) -> Result<(), Refusal>
        ensures honest { (D.honest self.old.a ↔ D.honest self.new.a) × (D.honest self.old.b ↔ D.honest self.new.b) }
        ensures any_moment { IsRunning D.state D.honest self.old → LeavesBoth D.moment D.left_since self.old.a self.old.b self.new.a self.new.b (HasOldOrNew self.old.durable self.old.staged) }
        ensures ok { IsRunning D.state D.honest self.old → OnOk result (IsRunning D.state D.honest self.new × FlushesAll self.old self.new) }
        ensures keeps { KeepsOpen self.old self.new }
        ensures end { OnOk result ((self.old.staged ≡ []) ⊎ (self.new.end ≡ after_batch (coordinator_journal self.old))) }
        ensures unmoved { OnErr result (self.new.end ≡ self.old.end) }
        ensures counts { ((D.state self.old.a).failures ≤ (D.state self.new.a).failures) × ((D.state self.old.b).failures ≤ (D.state self.new.b).failures) }
        ensures up { OnOk result ((self.old.is_down ≡ false) × (self.new.is_down ≡ false) × (self.new.staged ≡ [])) }

        // If it is down, or nothing is staged, no call of a device is made.
        ensures down { self.old.is_down ≡ true → IsErr result × (self.new ≡ self.old) }
        ensures quiet { self.old.staged ≡ [] → self.new ≡ self.old }
        ensures cause { OnErr result ((self.old.is_down ≡ true) ⊎ HasCause D.state D.honest (coordinator_journal self.old) (coordinator_journal self.new)) }
        ensures err { IfErr result (λ e. (e ≡ Refusal.Down) × (self.new.is_down ≡ true)) }
    {
        self.journal.flush()?;
        self.kept = self.ledger.end();
        rise(&mut self.ledger, &mut self.horizon, self.rising);
        self.rising = None;
        Ok(())
    }

    /// The place of the last decision that every stop leaves.
    pub fn kept(&self) -> u64
        ensures value { IsRunning D.state D.honest self.now → result ≡ end_of (kept_of self.now) }
        ensures fits { result ≤ greatest_number }
    {
        self.kept
    }

    /// The durable horizon, below which nothing is read.
    pub fn horizon(&self) -> u64
        ensures { IsRunning D.state D.honest self.now → result ≡ (kept_of self.now).horizon }
    {
        self.horizon
    }

    /// Which node of which store it is.
    pub fn identity(&self) -> Identity
        ensures { result ≡ self.now.me }
    {
        self.me
    }

    /// Whether a flush failed since the opening.
    pub fn is_down(&self) -> bool
        ensures { result ≡ self.now.is_down }
    {
        self.journal.is_down()
    }

    /// How many bytes the current bank has, up to the closed gate that ends its list and with it.
    pub fn bank_len(&self) -> u64
        ensures { result ≡ min (2 ^ 64 - 1) (self.now.end + 1) }
    {
        self.journal.bank_len()
    }

    /// Sets the script of one device, and changes nothing else.
    pub fn fail(&mut self, bank: Bank, n: u64, tear: Tear)
        ensures set { IsSetOn D.set_to_fail bank n tear self.old.a self.old.b self.new.a self.new.b }
        ensures honest { (D.honest self.old.a ↔ D.honest self.new.a) × (D.honest self.old.b ↔ D.honest self.new.b) }
        ensures keeps_a { D.honest self.old.a → Keeps (D.state self.old.a) (D.state self.new.a) }
        ensures keeps_b { D.honest self.old.b → Keeps (D.state self.old.b) (D.state self.new.b) }
        ensures failures { ((D.state self.new.a).failures ≡ (D.state self.old.a).failures) × ((D.state self.new.b).failures ≡ (D.state self.old.b).failures) }
        ensures time_a { D.honest self.old.a → Elapses (D.moment self.old.a) (D.moment self.new.a) (D.left_since self.old.a) (D.left_since self.new.a) (left (D.state self.new.a)) }
        ensures time_b { D.honest self.old.b → Elapses (D.moment self.old.b) (D.moment self.new.b) (D.left_since self.old.b) (D.left_since self.new.b) (left (D.state self.new.b)) }
        ensures staged { (self.new.staged ≡ self.old.staged) × (self.new.is_down ≡ self.old.is_down) × (self.new.end ≡ self.old.end) }
        ensures keeps { KeepsOpen self.old self.new }
        ensures durable { D.honest self.old.a → D.honest self.old.b → self.new.durable ≡ self.old.durable }
    {
        self.journal.fail(bank, n, tear);
    }

    /// How many calls of both devices have failed so far; it stays at its greatest value.
    pub fn failures(&self) -> u64
        ensures { result ≡ min (2 ^ 64 - 1) ((D.state self.now.a).failures + (D.state self.now.b).failures) }
    {
        self.journal.failures()
    }

    /// Its devices.
    pub fn devices(&self) -> (&D, &D)
        ensures { (result.0.now ≡ self.now.a) × (result.1.now ≡ self.now.b) }
    {
        self.journal.devices()
    }

    /// Gives the devices back.
    pub fn into_devices(self) -> (D, D)
        ensures { (result.0 ≡ self.a) × (result.1 ≡ self.b) }
    {
        let Coordinator {
            journal,
            me: _,
            epoch: _,
            open_numbers: _,
            given: _,
            ledger: _,
            kept: _,
            horizon: _,
            rising: _,
        } = self;
        journal.into_devices()
    }
}
