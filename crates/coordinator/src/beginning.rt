// Beginning a write.
ghost use Rattle.std.specs.Prelude.{◌≡◌, ◌⊎◌, ◌↔◌, ◌≤◌, ◌<◌, true, false, All, OnOk, IfOk, IfErr, IsErrOf, IsTrue, ◌∷◌, []};
ghost use Rattle.refusal.specs.Refusals.{IsOneOf};
ghost use Rattle.tuples.specs.Limits.{max_open};
ghost use Rattle.tuples.specs.declared.change.Condition.{Condition as AnyCondition};
ghost use Rattle.decisions.specs.Coordinators.{BeginsAt, FirstIs, HasNoId, IsInRange, IsRunning, NamesCollected, NamesFuture};
ghost use Rattle.records.specs.Replays.{greatest_number};
ghost use Rattle.coordinator.specs.Ranges.{FirstOut, IsAbove, IsBelow, IsBetween};

use crate::Coordinator;
use decisions::Intent;
use device::Device;
use tuples::{Condition, MAX_NUMBER, MAX_OPEN, Refusal, Want, Write, WriteId};

fn is_above(condition: &Condition, end: u64) -> bool
    ensures { IsTrue result ↔ IsAbove end condition.now.want }
{
    match condition.want {
        Want::NotAfter(place) => end < place,
        Want::Exists | Want::Absent => false,
    }
}

fn is_below(condition: &Condition, horizon: u64) -> bool
    ensures { IsTrue result ↔ IsBelow horizon condition.now.want }
{
    match condition.want {
        Want::NotAfter(place) => place < horizon,
        Want::Exists | Want::Absent => false,
    }
}

// Tests each condition before the next: `Future`, `Collected`.
fn test(conditions: &[Condition], horizon: u64, end: u64) -> Result<(), Refusal>
    ensures ok { OnOk result (All (λ (c : AnyCondition). IsBetween horizon end c.want) conditions.now) }
    ensures err { IfErr result (λ e. ((e ≡ Refusal.Future) × FirstOut horizon end conditions.now (IsAbove end)) ⊎ ((e ≡ Refusal.Collected) × FirstOut horizon end conditions.now (IsBelow horizon))) }
{
    for condition in conditions {
        if is_above(condition, end) {
            return Err(Refusal::Future);
        }
        if is_below(condition, horizon) {
            return Err(Refusal::Collected);
        }
    }
    Ok(())
}

// Whether one write more may be open, and a number is left to give.
fn has_id(begun: usize, given: u64) -> bool
    ensures yes { result ≡ true → (begun < max_open) × (given < greatest_number) }
    ensures no { result ≡ false → (max_open ≤ begun) ⊎ (greatest_number ≤ given) }
{
    begun < MAX_OPEN && given < MAX_NUMBER
}

impl<D: Device> Coordinator<D> {
    /// Begins a write under the next id, which no other write has. Nothing has changed after a refusal; they are tested in this order:
    /// `Down`; for the first condition that names such a place, `Future` above the last decision, `Collected` below the durable horizon;
    /// `Full` if 1,024 writes are open or the last number was given; `NoMemory`.
    pub fn begin(&mut self, write: Write) -> Result<Intent, Refusal>
        ensures ok { IsRunning D.state D.honest self.old → IfOk result (λ i. BeginsAt self.old write.changes write.conditions i self.new × IsRunning D.state D.honest self.new) }

        // The causes of any two refusals exclude each other.
        ensures down { IsErrOf result Refusal.Down ↔ (self.old.is_down ≡ true) }
        ensures future { IsRunning D.state D.honest self.old → IsErrOf result Refusal.Future → FirstIs self.old write.conditions (NamesFuture self.old) }
        ensures collected { IsRunning D.state D.honest self.old → IsErrOf result Refusal.Collected → FirstIs self.old write.conditions (NamesCollected self.old) }
        ensures full { IsRunning D.state D.honest self.old → IsErrOf result Refusal.Full → All (IsInRange self.old) write.conditions × HasNoId self.old }
        ensures memory { IsRunning D.state D.honest self.old → IsErrOf result Refusal.NoMemory → All (IsInRange self.old) write.conditions × (HasNoId self.old → ⊥) }
        ensures err { IfErr result (λ e. (self.new ≡ self.old) × IsOneOf e (Refusal.Down ∷ Refusal.Future ∷ Refusal.Collected ∷ Refusal.Full ∷ Refusal.NoMemory ∷ [])) }
    {
        if self.journal.is_down() {
            return Err(Refusal::Down);
        }
        test(write.conditions(), self.horizon, self.ledger.end())?;
        if !has_id(self.open_numbers.len(), self.given) {
            return Err(Refusal::Full);
        }
        self.open_numbers.reserve(1)?;
        let id = WriteId {
            epoch: self.epoch,
            number: self.given + 1,
        };
        let intent = Intent::begin(&self.journal, self.given, id, write, self.kept);
        self.open_numbers.push_reserved(id.number);
        self.given = id.number;
        Ok(intent)
    }
}
