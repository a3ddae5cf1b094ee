// Raising a shard's horizon to that of the coordinator.
ghost use Rattle.std.specs.Prelude.{◌≡◌, ◌⊎◌, ◌↔◌, ◌≤◌, ◌<◌, ◌++◌, ◌∷◌, [], true, OnOk, IfErr, IsErr, IsErrOf};
ghost use Rattle.journal.specs.Records.{HasNoRoom};
ghost use Rattle.records.specs.declared.record.Record.TheVariants.{Horizon as horizon_record};
ghost use Rattle.shard.specs.Shards.{IsUp, Stages, memory as memory_of};

use crate::Shard;
use decisions::Heads;
use device::Device;
use journal::Journal;
use records::Record;
use tuples::Refusal;

// Stages that the horizon is at this place.
fn stage_horizon<D: Device>(journal: &mut Journal<D>, place: u64) -> Result<(), Refusal>
    ensures ok { OnOk result (journal.new ≡ record journal.old { staged = journal.old.staged ++ horizon_record place ∷ [] }) }
    ensures room { OnOk result (HasNoRoom journal.old.staged (horizon_record place) → ⊥) }
    ensures full { IsErrOf result Refusal.Full → HasNoRoom journal.old.staged (horizon_record place) }
    ensures err { IfErr result (λ e. (e ≡ Refusal.Full) × (journal.new ≡ journal.old)) }
{
    let next = Record::Horizon(place);
    let staged = journal.stage(&next);
    drop(next);
    staged
}

impl<D: Device> Shard<D> {
    /// Stages the durable horizon of the coordinator, and forgets the versions under it. If that horizon is above what the shard has
    /// learned, or not above its own, nothing changes. Nothing has changed after a refusal: `Down`, `Full`.
    pub fn collect(&mut self, heads: &Heads) -> Result<(), Refusal>
        ensures ok { IsUp D.state D.honest self.old → (memory_of self.old).horizon < heads.now.horizon → heads.now.horizon ≤ (memory_of self.old).learned
            → OnOk result (Stages self.old (horizon_record heads.now.horizon) self.new × IsUp D.state D.honest self.new) }
        ensures nothing { IsUp D.state D.honest self.old → ((memory_of self.old).learned < heads.now.horizon) ⊎ (heads.now.horizon ≤ (memory_of self.old).horizon) → (IsErr result → ⊥) × (self.new ≡ self.old) }
        ensures full { IsUp D.state D.honest self.old → IsErrOf result Refusal.Full
            ↔ (((memory_of self.old).horizon < heads.now.horizon) × (heads.now.horizon ≤ (memory_of self.old).learned) × HasNoRoom self.old.staged (horizon_record heads.now.horizon)) }
        ensures down { IsErrOf result Refusal.Down ↔ (self.old.is_down ≡ true) }
        ensures kept { self.new ≡ record self.old { staged = self.new.staged } }
        ensures err { IfErr result (λ e. (self.new ≡ self.old) × ((e ≡ Refusal.Down) ⊎ (e ≡ Refusal.Full))) }
    {
        if self.journal.is_down() {
            return Err(Refusal::Down);
        }
        let place = heads.horizon();
        if place > self.memory.learned() || place <= self.memory.horizon() {
            return Ok(());
        }
        stage_horizon(&mut self.journal, place)?;
        self.memory.collect(place);
        Ok(())
    }
}
