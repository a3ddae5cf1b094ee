// The coordinator's records are replaced by a checkpoint of what it knows.
ghost use Rattle.calls.specs.Refusing.{Notes};
ghost use Rattle.calls.specs.declared.call.CoordinatorCall.TheVariants.{Checkpoint as checkpoint_call};
ghost use Rattle.sides.specs.CoordinatorSides.{CoordinatorSideAnswers, HasLaterList, KnowsAll};

use crate::coordinator_side::ask_coordinator;
use crate::joining::join;
use crate::{CoordinatorSide, Lists, Pass, Room};
use calls::{CoordinatorCall, Reply, Told};
use device::Device;

impl<D: Device, B: Room> CoordinatorSide<D, B> {
    /// Replaces the records of the node by a checkpoint of what it knows, so that its device and its next opening are as small as that: the decisions at or
    /// below the horizon are in its records no more, and the list stays whole. What was staged joins it, as after a flush. If a device fails, the list stays as
    /// it is, and the node is down until it is opened again, which then finds the old records or the checkpoint.
    pub fn checkpoint(&mut self, lists: &Lists<B>, pass: &mut Pass<B>, told: &mut Told) -> Reply
        ensures answers { CoordinatorSideAnswers D.state D.honest D.moment D.left_since self.old checkpoint_call result self.new }
        ensures list { HasLaterList self.old self.new }
        ensures caller { KnowsAll pass.old self.new pass.new }
        ensures told { Notes told.old result told.new }
    {
        let reply = ask_coordinator(&mut self.node, CoordinatorCall::Checkpoint, told);
        join::<D, B>(lists, &mut self.log, &mut self.node);
        lists.writes.meet(&mut self.log, &mut pass.pass);
        reply
    }
}
