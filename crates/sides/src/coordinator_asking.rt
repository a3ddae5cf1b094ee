// One call of the coordinator under its lock, and what is told of a flush that was made elsewhere.
ghost use Rattle.std.specs.Prelude.{◌≡◌, ◌+◌, ◌<◌, ◌^◌, false, is_some, length, true};
ghost use Rattle.calls.specs.Asking.{MayAskCoordinator};
ghost use Rattle.calls.specs.Belonging.{IsReplyTo};
ghost use Rattle.calls.specs.Refusing.{Notes, refused_by};
ghost use Rattle.calls.specs.declared.call.CoordinatorCall.TheVariants.{Flush as flush_call, Heads as heads_call};
ghost use Rattle.calls.specs.declared.call.NodeCall.TheVariants.{Coordinator as of_coordinator};
ghost use Rattle.sides.specs.CoordinatorSides.{AddsTried, CoordinatorSideAnswers, KnowsAll, KnowsTried, TellsOf, is_log_flush, write_of};
ghost use Rattle.sides.specs.Joining.{heads_in};
ghost use Rattle.sides.specs.Lending.{FlushTellsUp, IsFlushed, LogStagesMoreIn};

use crate::attempts::note_decision;
use crate::coordinator_side::ask_coordinator;
use crate::{Caller, CoordinatorSide, Lists, Pass, Room};
use calls::{CoordinatorCall, CoordinatorReply, Reply, Told};
use device::Device;
use std::snapshot::Snapshot;

// What is told of a flush by one that was asked for its heads.
fn flushed_by(reply: Reply) -> Reply
    requires { IsReplyTo (of_coordinator heads_call) reply }
    ensures belongs { IsReplyTo (of_coordinator flush_call) result }
    ensures refusal { refused_by result ≡ refused_by reply }
    ensures heads { IsFlushed result → is_some (heads_in reply) ≡ true }
{
    match reply {
        Reply::Coordinator(CoordinatorReply::Heads(Ok(_))) => {
            Reply::Coordinator(CoordinatorReply::Flush(Ok(())))
        }
        Reply::Coordinator(CoordinatorReply::Heads(Err(refusal))) => {
            Reply::Coordinator(CoordinatorReply::Flush(Err(refusal)))
        }
        other => {
            other.leave();
            unreachable!()
        }
    }
}

impl<D: Device, B: Room> CoordinatorSide<D, B> {
    /// Makes a call that needs no devices. The caller then knows the whole list, and all decisions that were ever staged; one that the call stages is among
    /// these. It has to be asked first whether one decision more can be counted.
    pub fn ask(
        &mut self,
        lists: &Lists<B>,
        caller: &mut Caller<B>,
        told: &mut Told,
        call: CoordinatorCall,
    ) -> Reply
        requires owed { MayAskCoordinator B.shards call }
        requires counted { length self.old.tried + 1 < 2 ^ 64 }
        requires no_flush { is_log_flush call ≡ false }
        ensures answers { CoordinatorSideAnswers D.state D.honest D.moment D.left_since self.old call result self.new }
        ensures list { AddsTried self.old (write_of call) result self.new }
        ensures caller { KnowsAll caller.old.pass self.new caller.new.pass }
        ensures known { KnowsTried caller.old.tried self.new caller.new.tried }
        ensures tells { B.rests → TellsOf caller.new.pass.seen caller.new.pass.horizon caller.new.tried.seen call result }
        ensures staged { LogStagesMoreIn self.old.node self.new.node }
        ensures told { Notes told.old result told.new }
    {
        lists.writes.meet(&mut self.log, &mut caller.pass.pass);
        let was = Snapshot::of(&call);
        let reply = ask_coordinator(&mut self.node, call, told);
        note_decision(&lists.attempts, &mut self.attempts, &was, &reply);
        lists
            .attempts
            .meet(&mut self.attempts, &mut caller.tried.pass);
        reply
    }

    /// A caller learns all that there is.
    pub fn tell(&mut self, lists: &Lists<B>, pass: &mut Pass<B>)
        ensures same { self.new ≡ self.old }
        ensures caller { KnowsAll pass.old self.new pass.new }
    {
        lists.writes.meet(&mut self.log, &mut pass.pass);
    }

    /// What is answered to a flush that was made elsewhere: that it went well if the coordinator is up, and else why it is not up. It makes no call of a device.
    pub fn tell_flushed(&mut self, lists: &Lists<B>, pass: &mut Pass<B>, told: &mut Told) -> Reply
        ensures same { self.new ≡ self.old }
        ensures caller { KnowsAll pass.old self.new pass.new }
        ensures up { FlushTellsUp self.old.node result }
        ensures belongs { IsReplyTo (of_coordinator flush_call) result }
        ensures told { Notes told.old result told.new }
    {
        lists.writes.meet(&mut self.log, &mut pass.pass);
        let reply = ask_coordinator(&mut self.node, CoordinatorCall::Heads, told);
        flushed_by(reply)
    }
}
