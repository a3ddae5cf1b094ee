// What a coordinator knows is carried over to that of another number of shards.
ghost use Rattle.std.specs.Prelude.{◌≡◌, ◌⊎◌, ◌↔◌, ◌≤◌, ◌<◌, ◌+◌, [], IfErr, OnErr, OnOk, false, length, true};
ghost use Rattle.device.specs.Device.{HasFailed, LeavesOnly};
ghost use Rattle.journal.specs.Ahead.{LacksRoomAhead, checkpoint_of};
ghost use Rattle.journal.specs.Beginnings.{HasBeginsOr};
ghost use Rattle.journal.specs.Records.{HasRecords};
ghost use Rattle.decisions.specs.Checkpoints.{carried_checkpoint};
ghost use Rattle.decisions.specs.Coordinators.{IsRunning};
ghost use Rattle.coordinator.specs.Checkpoints.{told_by};

use crate::Coordinator;
use crate::checkpointing::{heads, risen};
use crate::known::Known;
use device::Device;
use journal::Begun;
use ledger::Ledger;
use records::Identity;
use tuples::{Refusal, Shards};

// Ends the checkpoint after the decisions of a ledger above a horizon.
fn write<D: Device>(
    begun: &mut Begun<D>,
    me: Identity,
    epoch: u64,
    horizon: u64,
    ledger: &Ledger,
) -> Result<(), Refusal>
    requires behind { ledger.now.base ≤ horizon }
    requires within { horizon ≤ ledger.now.base + length ledger.now.log }
    ensures honest { (D.honest begun.old.a ↔ D.honest begun.new.a) × (D.honest begun.old.b ↔ D.honest begun.new.b) }
    ensures ok { D.honest begun.old.a → D.honest begun.old.b → OnOk result (HasRecords (D.state begun.new.a) (D.state begun.new.b) (checkpoint_of 1 (told_by me epoch horizon ledger.now))) }
    ensures moments { begun.old.is_open ≡ true → D.honest begun.old.a → LeavesOnly D.moment D.left_since begun.old.a begun.new.a (HasBeginsOr (checkpoint_of 1 (told_by me epoch horizon ledger.now))) }
    ensures same { begun.new.b ≡ begun.old.b }
    ensures err { IfErr result (λ e. e ≡ Refusal.Down) }
    ensures cause { OnErr result ((begun.old.is_open ≡ false) ⊎ (HasFailed (D.state begun.old.a) (D.state begun.new.a) ⊎ LacksRoomAhead D.state D.honest begun.new.a)) }
{
    let heads = heads(me, epoch, horizon);
    let mut known = Known::new(&heads, ledger, horizon);
    begun.finish(&mut known)
}

impl<D: Device> Coordinator<D> {
    /// Ends the first checkpoint of the coordinator of a store with the same id and so many shards, with what this one knows: how often it was opened, its
    /// horizon, and its decisions above that. `Down` if a call of a device failed.
    pub fn carry(&self, shards: Shards, begun: &mut Begun<D>) -> Result<(), Refusal>
        ensures honest { (D.honest begun.old.a ↔ D.honest begun.new.a) × (D.honest begun.old.b ↔ D.honest begun.new.b) }
        ensures ok { IsRunning D.state D.honest self.now → D.honest begun.old.a → D.honest begun.old.b
            → OnOk result (HasRecords (D.state begun.new.a) (D.state begun.new.b) (carried_checkpoint shards self.now)) }

        // At every moment of the call a stop leaves what no opening takes, or the whole checkpoint.
        ensures moments { IsRunning D.state D.honest self.now → begun.old.is_open ≡ true → D.honest begun.old.a
            → LeavesOnly D.moment D.left_since begun.old.a begun.new.a (HasBeginsOr (carried_checkpoint shards self.now)) }
        ensures same { begun.new.b ≡ begun.old.b }
        ensures err { IfErr result (λ e. e ≡ Refusal.Down) }
        ensures cause { OnErr result ((begun.old.is_open ≡ false) ⊎ (HasFailed (D.state begun.old.a) (D.state begun.new.a) ⊎ LacksRoomAhead D.state D.honest begun.new.a)) }
    {
        let me = Identity::coordinator(self.me.store(), shards);
        let horizon = risen(self.horizon, self.rising);
        write(begun, me, self.epoch, horizon, &self.ledger)
    }
}
