// One call of one node, under one hold of its lock; a flush is made without it, and a checkpoint once its devices are here.
ghost use Rattle.calls.specs.Asking.{MayAskCoordinator, MayAskShard};
ghost use Rattle.calls.specs.Belonging.{IsOwed};
ghost use Rattle.calls.specs.declared.call.NodeCall.TheVariants.{Coordinator as of_coordinator, Shard as of_shard};
ghost use Rattle.flights.specs.LogPlaces.{TellsWriters};
ghost use Rattle.flights.specs.Serving.{KnowsMore, Serves};
ghost use Rattle.flow_ties.specs.Cares.{HandsOver};
ghost use Rattle.flow_ties.specs.Refusing.{Notices};

use crate::{Caller, Gate, Store};
use calls::{CoordinatorCall, NodeCall, Reply, ShardCall, Told, refuse};
use device::Device;
use sides::{Pass, Room};
use std::sync::Wait;
use tuples::Refusal;

impl<D: Device, B: Room, G: Gate> Store<D, B, G> {
    // Makes the call of the coordinator: a flush without its lock, a checkpoint once its devices are here.
    fn make_there<R: Wait>(
        &self,
        rt: &R,
        caller: &mut Caller<B>,
        told: &mut Told,
        call: CoordinatorCall,
    ) -> Reply
        requires owed { MayAskCoordinator B.shards call }
        ensures serves { Serves B.rests B.shards caller.old.pass caller.new.pass (of_coordinator call) result }
        ensures tried { KnowsMore caller.old.tried caller.new.tried }
        ensures tells { B.rests → TellsWriters caller.old.pass.seen caller.new.tried.seen caller.new.pass.seen (of_coordinator call) result }
        ensures told { Notices B.shards told.old (of_coordinator call) result told.new }
    {
        match call {
            CoordinatorCall::Flush => {
                self.coordinator
                    .flush(rt, &self.lists, &self.launch_log, caller, told)
            }
            CoordinatorCall::Checkpoint => {
                self.coordinator
                    .checkpoint(rt, &self.lists, &mut caller.pass, told)
            }
            call => {
                let mut place = self.coordinator.lock_to_ask(rt, &self.lists);
                place.ask(&self.lists, caller, told, call)
            }
        }
    }

    // Makes the call of this shard: a read beside others, a flush without its lock, a checkpoint once its devices are here. One that is not there answers that the
    // caller is damaged.
    fn make_at<R: Wait>(
        &self,
        rt: &R,
        pass: &mut Pass<B>,
        told: &mut Told,
        shard: u8,
        call: ShardCall,
    ) -> Reply
        requires owed { MayAskShard B.shards shard call }
        requires hands { B.rests → HandsOver pass.old.seen pass.old.horizon (of_shard shard call) }
        ensures serves { Serves B.rests B.shards pass.old pass.new (of_shard shard call) result }
        ensures told { Notices B.shards told.old (of_shard shard call) result told.new }
    {
        let count = self.count.count();
        if shard >= count {
            return refuse(Refusal::Damaged, NodeCall::Shard(shard, call));
        }
        if call.is_read() {
            let place = self.side_to_read(rt, shard);
            let answer = place.look(rt, &self.lists, pass, told, &call);
            return Reply::Shard(call.into_reply(answer));
        }
        match call {
            ShardCall::Flush => {
                self.shards[shard as usize].flush(rt, &self.lists, &self.launch_log, told)
            }
            ShardCall::Checkpoint => self.shards[shard as usize].checkpoint(rt, told),
            call => {
                let mut place = self.side(rt, shard);
                place.ask(rt, &self.lists, pass, told, call)
            }
        }
    }

    /// Makes the call, of the node that it names, and tells the gate of it. What a decision is of that it tells, and what became of one, is by what the caller
    /// knows of all that were staged.
    pub(crate) fn make<R: Wait>(
        &self,
        rt: &R,
        caller: &mut Caller<B>,
        told: &mut Told,
        call: NodeCall,
    ) -> Reply
        requires owed { IsOwed B.shards call }
        requires hands { B.rests → HandsOver caller.old.pass.seen caller.old.pass.horizon call }
        ensures serves { Serves B.rests B.shards caller.old.pass caller.new.pass call result }
        ensures tried { KnowsMore caller.old.tried caller.new.tried }
        ensures tells { B.rests → TellsWriters caller.old.pass.seen caller.new.tried.seen caller.new.pass.seen call result }
        ensures told { Notices B.shards told.old call result told.new }
    {
        let (node, name) = (call.node(), call.name());
        self.gate.before(node, name);
        let reply = match call {
            NodeCall::Coordinator(call) => self.make_there(rt, caller, told, call),
            NodeCall::Shard(shard, call) => self.make_at(rt, &mut caller.pass, told, shard, call),
        };
        self.gate.after(node, name);
        reply
    }
}
