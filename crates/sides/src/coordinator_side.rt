// What lies under the coordinator's lock.
ghost use Rattle.std.specs.Prelude.{◌≡◌, ◌↔◌, ◌+◌, ◌<◌, ◌^◌, IsTrue, length};
ghost use Rattle.calls.specs.Belonging.{IsReplyTo};
ghost use Rattle.calls.specs.Refusing.{Notes};
ghost use Rattle.calls.specs.declared.call.NodeCall.TheVariants.{Coordinator as of_coordinator};
ghost use Rattle.sides.specs.CoordinatorSides.{AnsweredThere, IsSoundThere, IsTiedSide, MayAskThere};
ghost use Rattle.sides.specs.Sides.{bank_len_in};

use crate::{Attempt, Caller, Lists, Pass, Room, Tried};
use calls::{CoordinatorCall, Node, NodeCall, Reply, Told, ask};
use device::Device;
use published::{LogPass, SharedPass};
use records::Identity;
use std::marker::{Model, PhantomData};
use tuples::Entry;

/// The coordinator, the pass that alone moves its store's list, and that which alone adds to all decisions that were ever staged.
///
/// Each call of the node leaves it tied to both (`ask`, `checkpoint`). Its caller then knows all that there is.
#[derive(Drop)]
pub struct CoordinatorSide<D: Device, B: Room> {
    // away only while it is opened again
    pub(crate) node: Option<Node<D>>,
    pub(crate) me: Identity,
    pub(crate) log: LogPass<Entry>,
    pub(crate) attempts: LogPass<Attempt>,
    pub(crate) room: PhantomData<B>,
}

impl<D: Device, B: Room> Model for CoordinatorSide<D, B> {
    ghost use Rattle.std.specs.Prelude.{◌≡◌};
    ghost use Rattle.laws.specs.Worlds.{coordinator_node};
    ghost use Rattle.sides.specs.CoordinatorSides.{IsSoundThere, IsTiedThere, LogSide};

    ghost Value = { LogSide D };

    ghost view = { λ s. record { node = s.node; seen = s.log.seen; low = s.log.horizon; tried = s.attempts.seen } };

    ghost invariant = { λ s. (s.log.table ≡ B.log) × (s.me ≡ coordinator_node B.store B.shards) × IsSoundThere D.state D.honest B.store B.shards s.node × (B.rests → IsTiedThere D.state D.honest B.store B.shards s.node s.log.seen s.log.horizon s.attempts.seen) × (s.attempts.table ≡ B.attempts) };
}

// Makes the one call, of the node, which is there.
pub(crate) fn ask_coordinator<D: Device>(
    node: &mut Option<Node<D>>,
    call: CoordinatorCall,
    told: &mut Told,
) -> Reply
    requires { MayAskThere node.old call }
    ensures answered { AnsweredThere D.state D.honest D.moment D.left_since node.old call result node.new }
    ensures belongs { IsReplyTo (of_coordinator call) result }
    ensures told { Notes told.old result told.new }
{
    match node {
        Some(node) => ask(node, NodeCall::Coordinator(call), told),
        None => unreachable!(),
    }
}

impl<D: Device, B: Room> CoordinatorSide<D, B> {
    /// What it keeps whatever is called: the coordinator is tied to the list, and to all decisions that were ever staged.
    pub fn keeps(&self)
        ensures sound { IsSoundThere D.state D.honest B.store B.shards self.now.node }
        ensures tied { B.rests → IsTiedSide D.state D.honest B.store B.shards self.now }
    {
        let _me = self.me.node();
    }

    /// How many bytes the current bank of its node has; 0 if its opening was refused.
    pub fn bank_len(&self) -> u64
        ensures { result ≡ bank_len_in self.now.node }
    {
        match &self.node {
            Some(node) => node.bank_len(),
            None => 0,
        }
    }

    /// How many bytes a checkpoint of its node has; none if its opening was refused, or there is no memory to tell.
    pub fn checkpoint_len(&self) -> Option<u64> {
        match &self.node {
            Some(node) => node.checkpoint_len(),
            None => None,
        }
    }

    /// Whether the disk of its node has the room for a checkpoint of so many bytes, as far as that can be told.
    pub fn has_point_room(&self, len: u64) -> bool {
        match &self.node {
            Some(node) => node.has_point_room(len),
            None => true,
        }
    }

    /// A new caller, which knows all that there is, and for which nothing was staged yet.
    pub fn session(&mut self, lists: &Lists<B>) -> Caller<B>
        ensures same { self.new ≡ self.old }
        ensures pass { result.pass ≡ record { table = B.log; seen = self.new.seen; horizon = self.new.low } }
        ensures tried { result.tried.seen ≡ self.new.tried }
    {
        Caller {
            pass: Pass {
                pass: lists.writes.session(&mut self.log),
                room: PhantomData,
            },
            tried: Tried {
                pass: lists.attempts.session(&mut self.attempts),
                ticket: None,
                room: PhantomData,
            },
        }
    }

    /// A new pass for a shard, which knows all that there is.
    pub fn shared(&mut self, lists: &Lists<B>) -> SharedPass<Entry>
        ensures same { self.new ≡ self.old }
        ensures pass { result ≡ record { table = B.log; seen = self.new.seen; horizon = self.new.low } }
    {
        let seen = lists.writes.session(&mut self.log);
        SharedPass::new(&lists.writes, seen)
    }

    /// Whether a decision more can be counted among all that were ever staged.
    pub fn may_decide(&mut self, lists: &Lists<B>) -> bool
        ensures same { self.new ≡ self.old }
        ensures room { IsTrue result ↔ (length self.old.tried + 1 < 2 ^ 64) }
    {
        lists.attempts.length(&mut self.attempts) < u64::MAX
    }
}
