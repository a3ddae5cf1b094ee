// What a coordinator tells of its decisions.
ghost use Rattle.std.specs.Prelude.{◌≡◌, ◌↔◌, ◌≤◌, ◌<◌, Ok, true, IfOk, IfErr, IsErr, IsErrOf, Contains, IsTrue, ◌∷◌, []};
ghost use Rattle.refusal.specs.Refusals.{IsOneOf};
ghost use Rattle.records.specs.Coordinators.{end_of};
ghost use Rattle.decisions.specs.Coordinators.{BatchesAt, FindsAt, FindsNone, FindsNothingYet, IsGivenAt, IsKeptBy, IsOfNow, IsRunning, IsStagedBy, heads_of, kept_of};
ghost use Rattle.coordinator.specs.declared.telling.Inquiry.TheVariants.{Commit, Abort, Undecided};
ghost use Rattle.coordinator.specs.declared.telling.Outcome.TheVariants.{Kept, Later, Unsure};

use crate::Coordinator;
use crate::decided::Decided;
use crate::open_writes::is_open;
use decisions::{Batch, Heads, Verdict};
use device::Device;
use std::alloc::Global;
use tuples::{MAX_BATCH, Refusal, WriteId};

/// What became of a decision that was staged.
#[must_use]
pub enum Outcome {
    /// Every stop leaves the decision, at this place.
    Kept(u64),
    /// It is staged still, and comes back.
    Later(Decided),
    /// The coordinator failed or was opened since: the decision stands or not.
    Unsure,
}

impl Outcome {
    /// Only spends it.
    pub fn leave(self) {
        match self {
            Outcome::Later(decided) => decided.leave(),
            Outcome::Kept(_) | Outcome::Unsure => {}
        }
    }
}

/// What became of the write with an id.
#[derive(Drop)]
pub enum Inquiry {
    /// It is decided, at this place above the horizon, and every stop leaves the decision.
    Commit(u64),
    /// It was given out, is not open, and no decision above the horizon has it.
    Abort(Verdict),
    /// It is open, its decision is staged, or its id was not given out yet.
    Undecided,
}

impl<D: Device> Coordinator<D> {
    /// What became of a decision: kept only if every stop leaves it. It answers also after a device failed.
    pub fn outcome(&self, decided: Decided) -> Outcome
        ensures kept { (place : _) → IsRunning D.state D.honest self.now → result ≡ Kept place → (place ≡ decided.place) × IsKeptBy self.now decided }
        ensures later { (d : _) → IsRunning D.state D.honest self.now → result ≡ Later d → (d ≡ decided) × IsStagedBy self.now decided }
        ensures unsure { IsRunning D.state D.honest self.now → result ≡ Unsure → IsOfNow self.now decided → ⊥ }
        ensures down { self.now.is_down ≡ true → result ≡ Unsure }
    {
        if self.journal.is_down() || decided.epoch != self.epoch {
            decided.leave();
            return Outcome::Unsure;
        }
        if decided.place > self.kept {
            return Outcome::Later(decided);
        }
        let place = decided.place;
        decided.leave();
        Outcome::Kept(place)
    }

    // Whether the write with this id is open.
    pub(crate) fn is_open(&self, id: WriteId) -> bool
        ensures { IsTrue result ↔ Contains self.now.open_ids id }
    {
        is_open(&self.open_numbers, self.epoch, id)
    }

    // Whether the id was given out since the first opening.
    pub(crate) fn was_given(&self, id: WriteId) -> bool
        ensures { IsRunning D.state D.honest self.now → IsTrue result ↔ IsGivenAt self.now id }
    {
        id.epoch < self.epoch || (id.epoch == self.epoch && id.number <= self.given)
    }

    /// What became of the write with this id: a commit only by a durable decision above the horizon, an abort only if it was given out and is
    /// neither open nor decided above the horizon. `Down` if a device failed.
    pub fn inquire(&self, id: WriteId) -> Result<Inquiry, Refusal>
        ensures commit { (place : _) → IsRunning D.state D.honest self.now → result ≡ Ok (Commit place) → FindsAt self.now id place }
        ensures abort { (v : _) → IsRunning D.state D.honest self.now → result ≡ Ok (Abort v) → (v.id ≡ id) × FindsNone self.now id }
        ensures undecided { IsRunning D.state D.honest self.now → result ≡ Ok Undecided → FindsNothingYet self.now id }
        ensures down { IsErr result ↔ (self.now.is_down ≡ true) }
        ensures err { IfErr result (λ e. e ≡ Refusal.Down) }
    {
        if self.journal.is_down() {
            return Err(Refusal::Down);
        }
        match self.ledger.find(id) {
            Some(place) => {
                if place <= self.kept {
                    return Ok(Inquiry::Commit(place));
                }
                Ok(Inquiry::Undecided)
            }
            None => {
                if self.is_open(id) {
                    return Ok(Inquiry::Undecided);
                }
                if !self.was_given(id) {
                    return Ok(Inquiry::Undecided);
                }
                let verdict = Verdict::new(&self.journal, self.given, &self.open_numbers, id);
                Ok(Inquiry::Abort(verdict))
            }
        }
    }

    /// The durable decisions after `from`, up to `to` and at most 256: `Future` if `to` is above the last of them, `Collected` if
    /// `from` is below the durable horizon, `Down`, `NoMemory`.
    pub fn batch(&self, alloc: Global, from: u64, to: u64) -> Result<Batch, Refusal>
        requires { from ≤ to }
        ensures ok { IsRunning D.state D.honest self.now → IfOk result (BatchesAt self.now from to) }
        ensures down { IsErrOf result Refusal.Down ↔ (self.now.is_down ≡ true) }
        ensures future { IsRunning D.state D.honest self.now → IsErrOf result Refusal.Future ↔ (end_of (kept_of self.now) < to) }
        ensures collected { IsRunning D.state D.honest self.now → IsErrOf result Refusal.Collected ↔ ((to ≤ end_of (kept_of self.now)) × (from < (kept_of self.now).horizon)) }
        ensures err { IfErr result (λ e. IsOneOf e (Refusal.Down ∷ Refusal.Future ∷ Refusal.Collected ∷ Refusal.NoMemory ∷ [])) }
    {
        if self.journal.is_down() {
            return Err(Refusal::Down);
        }
        if to > self.kept {
            return Err(Refusal::Future);
        }
        if from < self.horizon {
            return Err(Refusal::Collected);
        }
        let count = (to - from).min(MAX_BATCH as u64) as usize;
        let writes = self.ledger.copies(alloc, from, count)?;
        Ok(Batch::from_log(&self.journal, from, writes))
    }

    /// How many decisions there are, how many every stop leaves, and the durable horizon. `Down` if a device failed.
    pub fn heads(&self) -> Result<Heads, Refusal>
        ensures ok { IsRunning D.state D.honest self.now → IfOk result (λ h. h ≡ heads_of self.now) }
        ensures down { IsErr result ↔ (self.now.is_down ≡ true) }
        ensures err { IfErr result (λ e. e ≡ Refusal.Down) }
    {
        if self.journal.is_down() {
            return Err(Refusal::Down);
        }
        Ok(Heads::new(&self.journal, self.ledger.end(), self.kept, self.horizon))
    }
}
