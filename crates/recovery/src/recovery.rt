// The state of a coordinator, as its records are replayed.
ghost use Rattle.std.specs.Prelude.{◌≡◌, ◌⊎◌, ◌↔◌, ◌≤◌, ◌-◌, [], drop, IfOk, IfErr, IsErrOf, IsTrue, All, None};
ghost use Rattle.records.specs.declared.record.Record.TheVariants.{Decision as decision_record, Epoch as epoch_record, Horizon as horizon_record};
ghost use Rattle.records.specs.Format.{IsDecision};
ghost use Rattle.records.specs.Coordinators.{HoldsKnown, IsNotDecided, MayDecide, MayOpenAgain, MayRaise, coordinator_step, empty_coordinator, end_of};
ghost use Rattle.records.specs.Replays.{greatest_number};

use crate::latest::{LastChange, all_hold, enter_where_kept, kept_or_made};
use crate::rules::{may_decide, may_open, may_raise};
use ledger::Ledger;
use records::Identity;
use std::alloc::{AllocError, Global};
use std::collections::BTreeMap;
use std::marker::Model;
use tuples::{Condition, Entry, Refusal, Tuple, WriteId};

/// What the records so far stand for, with what the tests of the next one need.
#[derive(Drop)]
pub struct Recovery {
    alloc: Global,
    ledger: Ledger,
    // none until a decision has conditions, which alone need it
    latest: Option<BTreeMap<Tuple, LastChange>>,
    horizon: u64,
    epoch: u64,
}

impl Model for Recovery {
    ghost use Rattle.std.specs.Prelude.{option_map};
    ghost use Rattle.std.specs.BTreeMap.{get};
    ghost use Rattle.records.specs.Coordinators.{CoordinatorState};
    ghost use Rattle.tuples.specs.Order.{tuple_cmp};
    ghost use Rattle.recovery.specs.Latest.{IsRecovered};

    ghost Value = { CoordinatorState };

    ghost view = { λ r. record { base = r.ledger.base; log = r.ledger.log; horizon = r.horizon; epoch = r.epoch } };

    ghost invariant = { λ r. IsRecovered r.ledger (option_map (λ m. λ t. get tuple_cmp m t) r.latest) r.horizon r.epoch };
}

impl Recovery {
    /// Before any record, which allocates nothing.
    pub fn new(alloc: Global) -> Recovery
        ensures { result ≡ empty_coordinator }
    {
        Recovery {
            alloc,
            ledger: Ledger::new(alloc, 0),
            latest: None,
            horizon: 0,
            epoch: 0,
        }
    }

    #[tactic(auto, unfolding(records::specs::Coordinators::coordinator_step))]
    pub(crate) fn decide(mut self, place: u64, write: Entry) -> Result<Recovery, Refusal>
        requires { IsDecision place write }
        ensures ok { IfOk result (λ r. MayDecide self place write × (r ≡ coordinator_step self (decision_record place write))) }
        ensures damaged { IsErrOf result Refusal.Damaged → MayDecide self place write → ⊥ }
        ensures err { IfErr result (λ e. (e ≡ Refusal.Damaged) ⊎ (e ≡ Refusal.NoMemory)) }
    {
        if !may_decide(&mut self, place, &write)? {
            return Err(Refusal::Damaged);
        }
        let Recovery {
            alloc,
            mut ledger,
            mut latest,
            horizon,
            epoch,
        } = self;
        ledger.reserve(write.id)?;
        enter_where_kept(&mut latest, place, write.changes.as_slice())?;
        ledger.push_reserved(write);
        Ok(Recovery {
            alloc,
            ledger,
            latest,
            horizon,
            epoch,
        })
    }

    #[tactic(auto, unfolding(records::specs::Coordinators::coordinator_step))]
    pub(crate) fn open_epoch(
        mut self,
        me: Identity,
        epoch: u64,
        store: u64,
        shards: u8,
        node: u8,
    ) -> Result<Recovery, Refusal>
        ensures ok { IfOk result (λ r. MayOpenAgain me self epoch store shards node × (r ≡ coordinator_step self (epoch_record epoch store shards node))) }
        ensures damaged { IsErrOf result Refusal.Damaged → MayOpenAgain me self epoch store shards node → ⊥ }
        ensures err { IfErr result (λ e. e ≡ Refusal.Damaged) }
    {
        if !may_open(me, &self, epoch, store, shards, node) {
            return Err(Refusal::Damaged);
        }
        self.epoch = epoch;
        Ok(self)
    }

    #[tactic(auto, unfolding(records::specs::Coordinators::coordinator_step))]
    pub(crate) fn raise(mut self, place: u64) -> Result<Recovery, Refusal>
        ensures ok { IfOk result (λ r. MayRaise self place × (r ≡ coordinator_step self (horizon_record place))) }
        ensures damaged { IsErrOf result Refusal.Damaged → MayRaise self place → ⊥ }
        ensures err { IfErr result (λ e. e ≡ Refusal.Damaged) }
    {
        if !may_raise(&self, place) {
            return Err(Refusal::Damaged);
        }
        self.horizon = place;
        Ok(self)
    }

    /// After this many openings.
    pub(crate) fn with_epoch(mut self, epoch: u64) -> Recovery
        requires { epoch ≤ greatest_number }
        ensures { result ≡ record self { epoch = epoch } }
    {
        self.epoch = epoch;
        self
    }

    /// No decision is known yet; those after a horizon are to come.
    pub(crate) fn behind(self, alloc: Global, horizon: u64) -> Recovery
        requires none { self.log ≡ [] }
        requires fits { horizon ≤ greatest_number }
        ensures { result ≡ record self { base = horizon; horizon = horizon } }
    {
        let Recovery {
            alloc: _,
            ledger: _,
            latest: _,
            horizon: _,
            epoch,
        } = self;
        Recovery {
            alloc,
            ledger: Ledger::new(alloc, horizon),
            latest: None,
            horizon,
            epoch,
        }
    }

    /// How often the coordinator was opened.
    pub fn epoch(&self) -> u64
        ensures value { result ≡ self.now.epoch }
        ensures fits { result ≤ greatest_number }
    {
        self.epoch
    }

    /// The place below which nothing is read.
    pub fn horizon(&self) -> u64
        ensures value { result ≡ self.now.horizon }
        ensures within { result ≤ end_of self.now }
    {
        self.horizon
    }

    /// The place of the last decision.
    pub fn end(&self) -> u64
        ensures value { result ≡ end_of self.now }
        ensures fits { result ≤ greatest_number }
    {
        self.ledger.end()
    }

    pub(crate) fn is_new(&self, id: WriteId) -> bool
        ensures { IsTrue result ↔ IsNotDecided id self.now }
    {
        self.ledger.find(id).is_none()
    }

    // The index is made for the first conditions that are tested, and then kept.
    pub(crate) fn all_hold(&mut self, conditions: &[Condition]) -> Result<bool, AllocError>
        ensures same { self.new ≡ self.old }
        ensures ok { IfOk result (λ hold. IsTrue hold ↔ All (HoldsKnown self.old) conditions.now) }
    {
        if conditions.is_empty() {
            return Ok(true);
        }
        let latest = kept_or_made(self.alloc, &self.ledger, self.latest.take())?;
        let all = all_hold(&latest, self.ledger.base() == 0, conditions);
        self.latest = Some(latest);
        Ok(all)
    }

    /// The decisions above the horizon; allocates nothing.
    pub fn into_ledger(self) -> Ledger
        ensures value { result ≡ record { base = self.horizon; log = drop (self.horizon - self.base) self.log; awaited = None } }
        ensures behind { self.base ≤ self.horizon }
    {
        let Recovery {
            alloc: _,
            mut ledger,
            latest: _,
            horizon,
            epoch: _,
        } = self;
        ledger.forget(horizon);
        ledger
    }
}
