// Raising the horizon.
ghost use Rattle.std.specs.Prelude.{◌≡◌, ◌↔◌, ◌≤◌, ◌<◌, ℕ, Some, true, false, IfErr, OnOk, IsErr, IsErrOf, IsTrue, ◌∷◌, []};
ghost use Rattle.refusal.specs.Refusals.{IsOneOf};
ghost use Rattle.journal.specs.Records.{HasNoRoom};
ghost use Rattle.records.specs.declared.record.Record.TheVariants.{Horizon as horizon_record};
ghost use Rattle.records.specs.Coordinators.{end_of};
ghost use Rattle.coordinator.specs.Ranges.{HasSettled};
ghost use Rattle.decisions.specs.Coordinators.{HaveSettled, IsRising, IsRunning, RaisesAt, kept_of};

use crate::Coordinator;
use crate::staging::stage_horizon;
use decisions::Settled;
use device::Device;
use tuples::{Refusal, Shards};

/// Why the horizon was not raised, with the values that were handed in.
#[derive(Drop)]
pub struct NotRaised {
    pub refusal: Refusal,
    pub settled: Vec<Settled>,
}

/// Whether each shard of so many has settled at least to the place.
pub fn settles(shards: Shards, place: u64, settled: &[Settled]) -> bool
    ensures { IsTrue result ↔ HaveSettled shards place settled.now }
{
    for shard in 0..shards.count() {
        if !has_settled(shard, place, settled) {
            return false;
        }
    }
    true
}

fn has_settled(shard: u8, place: u64, settled: &[Settled]) -> bool
    ensures { IsTrue result ↔ HasSettled shard place settled.now }
{
    settled
        .iter()
        .any(|one| one.shard() == shard && one.place() >= place)
}

// Whether the horizon that is staged is at or above the place.
fn rises_to(rising: Option<u64>, place: u64) -> bool
    ensures some { result ≡ true → (r : ℕ) × (rising ≡ Some r) × (place ≤ r) }
    ensures none { result ≡ false → (r : ℕ) → rising ≡ Some r → r < place }
{
    match rising {
        Some(rising) => place <= rising,
        None => false,
    }
}

impl<D: Device> Coordinator<D> {
    /// Raises the horizon to a kept place, to which each shard has settled. The record is staged, unless a staged one names the place or a
    /// higher one; the horizon counts once it is durable. Nothing has changed after a refusal: `Down`, `Collected` below the durable
    /// horizon, `Future` above the last durable decision, `Full` if the batch is. What was handed in comes back.
    pub fn raise(&mut self, place: u64, settled: Vec<Settled>) -> Result<(), NotRaised>
        requires settled { HaveSettled self.old.me.shards place settled.items }
        ensures ok { IsRunning D.state D.honest self.old → OnOk result (RaisesAt self.old place self.new × (place ≤ end_of (kept_of self.old)) × IsRunning D.state D.honest self.new) }
        ensures up { self.old.is_down ≡ true → IsErr result }
        ensures down { IfErr result (λ e. (e.refusal ≡ Refusal.Down) ↔ (self.old.is_down ≡ true)) }
        ensures collected { IsRunning D.state D.honest self.old → IfErr result (λ e. (e.refusal ≡ Refusal.Collected) ↔ (place < (kept_of self.old).horizon)) }
        ensures future { IsRunning D.state D.honest self.old → IfErr result (λ e. (e.refusal ≡ Refusal.Future) ↔ (end_of (kept_of self.old) < place)) }
        ensures full { IsRunning D.state D.honest self.old → IfErr result (λ e. e.refusal ≡ Refusal.Full → HasNoRoom self.old.staged (horizon_record place) × (IsRising self.old place → ⊥)) }
        ensures err { IfErr result (λ e. (self.new ≡ self.old) × (e.settled.items ≡ settled.items)
            × IsOneOf e.refusal (Refusal.Down ∷ Refusal.Collected ∷ Refusal.Future ∷ Refusal.Full ∷ [])) }
    {
        match self.try_raise(place) {
            Ok(()) => Ok(()),
            Err(refusal) => Err(NotRaised { refusal, settled }),
        }
    }

    fn try_raise(&mut self, place: u64) -> Result<(), Refusal>
        ensures ok { IsRunning D.state D.honest self.old → OnOk result (RaisesAt self.old place self.new × (place ≤ end_of (kept_of self.old)) × IsRunning D.state D.honest self.new) }
        ensures down { IsErrOf result Refusal.Down ↔ (self.old.is_down ≡ true) }
        ensures collected { IsRunning D.state D.honest self.old → IsErrOf result Refusal.Collected ↔ (place < (kept_of self.old).horizon) }
        ensures future { IsRunning D.state D.honest self.old → IsErrOf result Refusal.Future ↔ (end_of (kept_of self.old) < place) }
        ensures full { IsRunning D.state D.honest self.old → IsErrOf result Refusal.Full → HasNoRoom self.old.staged (horizon_record place) × (IsRising self.old place → ⊥) }
        ensures err { IfErr result (λ e. (self.new ≡ self.old) × IsOneOf e (Refusal.Down ∷ Refusal.Collected ∷ Refusal.Future ∷ Refusal.Full ∷ [])) }
    {
        if self.journal.is_down() {
            return Err(Refusal::Down);
        }
        if place < self.horizon {
            return Err(Refusal::Collected);
        }
        if place > self.kept {
            return Err(Refusal::Future);
        }
        if rises_to(self.rising, place) {
            return Ok(());
        }
        stage_horizon(&mut self.journal, place)?;
        self.rising = Some(place);
        Ok(())
    }
}
