// How far a shard has learned for good.
ghost use Rattle.std.specs.Prelude.{◌≡◌, ◌↔◌, ◌≤◌, List, true, IfOk, IfErr, IsErr};
ghost use Rattle.device.specs.Device.{left};
ghost use Rattle.journal.specs.Records.{Finds};
ghost use Rattle.records.specs.declared.record.Record.{Record as AnyRecord};
ghost use Rattle.records.specs.Replays.{shard_state};
ghost use Rattle.shard.specs.Shards.{IsUp};

use crate::Shard;
use decisions::Settled;
use device::Device;
use tuples::Refusal;

impl<D: Device> Shard<D> {
    /// The greatest place that a durable record has learned. `Down`.
    pub fn settle(&self) -> Result<Settled, Refusal>
        ensures place { IsUp D.state D.honest self.now → IfOk result (λ s. s.place ≡ (shard_state self.now.durable).learned) }
        ensures shard { IfOk result (λ s. s.shard ≡ self.now.me.node) }

        // Whatever a stop leaves has learned to it.
        ensures learned { IsUp D.state D.honest self.now → IfOk result (λ s. (rs : List AnyRecord) → Finds (left (D.state self.now.a)) (left (D.state self.now.b)) rs → s.place ≤ (shard_state rs).learned) }
        ensures down { IsErr result ↔ (self.now.is_down ≡ true) }
        ensures err { IfErr result (λ e. e ≡ Refusal.Down) }
    {
        if self.journal.is_down() {
            return Err(Refusal::Down);
        }
        Ok(Settled::new(&self.journal, self.me.node(), self.settled))
    }
}
