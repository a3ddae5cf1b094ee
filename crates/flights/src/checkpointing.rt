// A node that has its devices gets a checkpoint in the place of its records.
ghost use Rattle.std.specs.Prelude.{◌≡◌, IfNone, IfSome};
ghost use Rattle.calls.specs.Belonging.{IsReplyTo};
ghost use Rattle.calls.specs.Refusing.{Notes};
ghost use Rattle.calls.specs.declared.call.CoordinatorCall.TheVariants.{Checkpoint as log_checkpoint_call};
ghost use Rattle.calls.specs.declared.call.NodeCall.TheVariants.{Coordinator as of_coordinator, Shard as of_shard};
ghost use Rattle.calls.specs.declared.call.ShardCall.TheVariants.{Checkpoint as checkpoint_call};
ghost use Rattle.sides.specs.Sides.{IsLater};
ghost use Rattle.flights.specs.LogPlaces.{ChecksLogPointThere, log_bank_len_at};
ghost use Rattle.flights.specs.Places.{ChecksPointThere, IsOutThere, number_at};

use crate::berth::Berth;
use crate::{CoordinatorPlace, ShardPlace};
use calls::{Reply, ShardCall, Told};
use device::Device;
use sides::{Lists, Pass, Room};

impl<D: Device, B: Room> ShardPlace<D, B> {
    /// Replaces the records of the shard by a checkpoint of what it knows. None if its devices are out: then all stays as it is.
    pub fn checkpoint(&mut self, told: &mut Told) -> Option<Reply>
        ensures made { IfSome result (λ reply. ChecksPointThere D.state D.honest D.moment D.left_since self.old reply self.new) }
        ensures belongs { IfSome result (λ reply. IsReplyTo (of_shard (number_at self.old) checkpoint_call) reply) }
        ensures told { IfSome result (λ reply. Notes told.old reply told.new) }
        ensures out { IfNone result (IsOutThere self.old × (self.new ≡ self.old) × (told.new ≡ told.old)) }
    {
        match &mut self.berth {
            Some(Berth::Here(side, _)) => Some(side.make(told, ShardCall::Checkpoint)),
            Some(Berth::Out(_, _)) => None,
            None => unreachable!(),
        }
    }
}

impl<D: Device, B: Room> CoordinatorPlace<D, B> {
    /// How many bytes its current bank has; 0 if its opening was refused. While its devices are out, those before they left.
    pub fn bank_len(&self) -> u64
        ensures { result ≡ log_bank_len_at self.now }
    {
        match &self.berth {
            Some(Berth::Here(side, _)) => side.bank_len(),
            Some(Berth::Out(side, _)) => side.bank_len(),
            None => unreachable!(),
        }
    }

    /// How many bytes a checkpoint of its node has, wherever its devices are; none if its opening was refused, or there is no memory to tell.
    pub fn checkpoint_len(&self) -> Option<u64> {
        match &self.berth {
            Some(Berth::Here(side, _)) => side.checkpoint_len(),
            Some(Berth::Out(side, _)) => side.checkpoint_len(),
            None => unreachable!(),
        }
    }

    /// Whether the disk of its node has the room for a checkpoint of so many bytes, as far as that can be told.
    pub fn has_point_room(&self, len: u64) -> bool {
        match &self.berth {
            Some(Berth::Here(side, _)) => side.has_point_room(len),
            Some(Berth::Out(_, _)) => true,
            None => unreachable!(),
        }
    }

    /// Replaces the records of the coordinator by a checkpoint of what it knows, after which all that was staged has joined the list. None if its devices
    /// are out: then all stays as it is.
    pub fn checkpoint(
        &mut self,
        lists: &Lists<B>,
        pass: &mut Pass<B>,
        told: &mut Told,
    ) -> Option<Reply>
        ensures made { IfSome result (λ reply. ChecksLogPointThere D.state D.honest D.moment D.left_since self.old reply self.new) }
        ensures caller { IfSome result (λ reply. IsLater pass.old pass.new) }
        ensures belongs { IfSome result (λ reply. IsReplyTo (of_coordinator log_checkpoint_call) reply) }
        ensures told { IfSome result (λ reply. Notes told.old reply told.new) }
        ensures out { IfNone result (IsOutThere self.old × (self.new ≡ self.old) × (told.new ≡ told.old) × (pass.new ≡ pass.old)) }
    {
        match &mut self.berth {
            Some(Berth::Here(side, _)) => Some(side.checkpoint(lists, pass, told)),
            Some(Berth::Out(_, _)) => None,
            None => unreachable!(),
        }
    }
}
