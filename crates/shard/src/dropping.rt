// Dropping a write that was aborted.
ghost use Rattle.std.specs.Prelude.{◌≡◌, ◌↔◌, ◌++◌, ◌∷◌, [], true, None, IfErr, IsErr, IsErrOf, OnOk, is_some};
ghost use Rattle.journal.specs.Records.{HasNoRoom};
ghost use Rattle.records.specs.Format.{IsWriteId};
ghost use Rattle.records.specs.Replays.{find_in_doubt};
ghost use Rattle.records.specs.declared.record.Record.TheVariants.{Dropped as dropped_record};
ghost use Rattle.shard.specs.Shards.{IsUp, Stages, memory as memory_of};

use crate::Shard;
use decisions::{Held, Verdict};
use device::Device;
use journal::Journal;
use records::Record;
use tuples::{Refusal, WriteId};

fn spend(held: Option<Held>) {
    if let Some(held) = held {
        held.leave();
    }
}

// Stages that a write is dropped.
fn stage_dropped<D: Device>(journal: &mut Journal<D>, id: WriteId) -> Result<(), Refusal>
    requires { IsWriteId id }
    ensures ok { OnOk result (journal.new ≡ record journal.old { staged = journal.old.staged ++ dropped_record id ∷ [] }) }
    ensures room { OnOk result (HasNoRoom journal.old.staged (dropped_record id) → ⊥) }
    ensures full { IsErrOf result Refusal.Full → HasNoRoom journal.old.staged (dropped_record id) }
    ensures err { IfErr result (λ e. (e ≡ Refusal.Full) × (journal.new ≡ journal.old)) }
{
    let next = Record::Dropped(id);
    let staged = journal.stage(&next);
    drop(next);
    staged
}

impl<D: Device> Shard<D> {
    /// Stages that the write was dropped, and holds it no longer; what is handed in is spent. If the write is not in doubt here, or
    /// has no room in the batch, nothing changes: what is in doubt waits for a later verdict. It takes no memory. `Down`, and nothing
    /// has changed.
    pub fn drop_write(&mut self, verdict: &Verdict, held: Option<Held>) -> Result<(), Refusal>
        ensures dropped { IsUp D.state D.honest self.old → is_some (find_in_doubt verdict.now.id (memory_of self.old).in_doubt) ≡ true → (HasNoRoom self.old.staged (dropped_record verdict.now.id) → ⊥)
            → Stages self.old (dropped_record verdict.now.id) self.new × IsUp D.state D.honest self.new }
        ensures not_here { IsUp D.state D.honest self.old → find_in_doubt verdict.now.id (memory_of self.old).in_doubt ≡ None → self.new ≡ self.old }
        ensures full { IsUp D.state D.honest self.old → HasNoRoom self.old.staged (dropped_record verdict.now.id) → self.new ≡ self.old }
        ensures down { IsErr result ↔ (self.old.is_down ≡ true) }
        ensures kept { self.new ≡ record self.old { staged = self.new.staged } }
        ensures err { IfErr result (λ e. (e ≡ Refusal.Down) × (self.new ≡ self.old)) }
    {
        spend(held);
        if self.journal.is_down() {
            return Err(Refusal::Down);
        }
        let id = verdict.id();
        if self.memory.find(id).is_none() {
            return Ok(());
        }
        match stage_dropped(&mut self.journal, id) {
            Ok(()) => {
                self.memory.drop_write(id);
                Ok(())
            }
            // The batch is full.
            Err(_) => Ok(()),
        }
    }
}
