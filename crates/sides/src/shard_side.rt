// What lies under the lock of a shard.
ghost use Rattle.std.specs.Prelude.{◌≡◌, ◌<◌, true};
ghost use Rattle.calls.specs.Belonging.{IsReplyTo};
ghost use Rattle.calls.specs.Reading.{is_read, read_reply};
ghost use Rattle.calls.specs.Refusing.{Notes};
ghost use Rattle.calls.specs.declared.call.NodeCall.TheVariants.{Shard as of_shard};
ghost use Rattle.calls.specs.declared.reply.Reply.TheVariants.{Shard as from_shard};
ghost use Rattle.sides.specs.Sides.{AnsweredIn, IsTiedIn, KnowsBoth, MayAskIn, bank_len_in};

use crate::{Lists, Pass, Room};
use calls::{Node, NodeCall, Reply, ShardCall, Told, ask, look};
use device::Device;
use published::SharedPass;
use records::Identity;
use shard::ReadReply;
use std::marker::{Model, PhantomData};
use std::sync::Wait;
use tuples::{Entry, Refusal};

/// A shard, and the pass of what it has seen of its store's list.
///
/// Each call of the node leaves it tied to the list (`ask`). If one hands over something of the list, the shard and its caller first learn what either
/// knows. A read tells its caller, and leaves all as it is, so that several may read at once (`look`).
#[derive(Drop)]
pub struct ShardSide<D: Device, B: Room> {
    // away only while it is opened again
    pub(crate) node: Option<Node<D>>,
    pub(crate) me: Identity,
    pub(crate) pass: SharedPass<Entry>,
    pub(crate) room: PhantomData<B>,
}

impl<D: Device, B: Room> Model for ShardSide<D, B> {
    ghost use Rattle.std.specs.Prelude.{◌≡◌, ◌<◌};
    ghost use Rattle.laws.specs.Worlds.{shard_node};
    ghost use Rattle.sides.specs.Sides.{IsOfShard, IsTiedIn, Side};

    ghost Value = { Side D };

    ghost view = { λ s. record { node = s.node; number = s.me.node; pass = s.pass } };

    ghost invariant = { λ s. (s.pass.table ≡ B.log) × (s.me ≡ shard_node B.store B.shards s.me.node) × (s.me.node < B.shards) × IsOfShard B.store B.shards s.me.node s.node × (B.rests → IsTiedIn D.state D.honest B.store B.shards s.me.node s.node s.pass) };
}

// Makes the one call, of the node, which is there.
pub(crate) fn ask_shard<D: Device>(
    node: &mut Option<Node<D>>,
    number: u8,
    call: ShardCall,
    told: &mut Told,
) -> Reply
    requires { MayAskIn number node.old call }
    ensures answered { AnsweredIn D.state D.honest D.moment D.left_since number node.old call result node.new }
    ensures belongs { IsReplyTo (of_shard number call) result }
    ensures told { Notes told.old result told.new }
{
    match node {
        Some(node) => ask(node, NodeCall::Shard(number, call), told),
        None => unreachable!(),
    }
}

// Makes the one read, of the node, which is there.
pub(crate) fn look_at_shard<D: Device>(
    node: &Option<Node<D>>,
    number: u8,
    call: &ShardCall,
    told: &mut Told,
) -> Result<ReadReply, Refusal>
    requires may { MayAskIn number node.now call.now }
    requires reads { is_read call.now ≡ true }
    ensures answered { AnsweredIn D.state D.honest D.moment D.left_since number node.now call.now (from_shard (read_reply call.now result)) node.now }
    ensures belongs { IsReplyTo (of_shard number call.now) (from_shard (read_reply call.now result)) }
    ensures told { Notes told.old (from_shard (read_reply call.now result)) told.new }
{
    let _number = number;
    match node {
        Some(node) => look(node, call, told),
        None => unreachable!(),
    }
}

impl<D: Device, B: Room> ShardSide<D, B> {
    /// Its number among the shards.
    pub fn number(&self) -> u8
        ensures { result ≡ self.now.number }
    {
        self.me.node()
    }

    /// How many bytes the current bank of its node has; 0 if its opening was refused.
    pub fn bank_len(&self) -> u64
        ensures { result ≡ bank_len_in self.now.node }
    {
        match &self.node {
            Some(node) => node.bank_len(),
            None => 0,
        }
    }

    /// How many bytes a checkpoint of its node has; none if its opening was refused, or there is no memory to tell.
    pub fn checkpoint_len(&self) -> Option<u64> {
        match &self.node {
            Some(node) => node.checkpoint_len(),
            None => None,
        }
    }

    /// Whether the disk of its node has the room for a checkpoint of so many bytes, as far as that can be told.
    pub fn has_point_room(&self, len: u64) -> bool {
        match &self.node {
            Some(node) => node.has_point_room(len),
            None => true,
        }
    }

    /// What it keeps whatever is called: it is a shard of the room's store, beside a pass of the room's words, and tied to what that knows if its devices rested.
    pub fn keeps(&self)
        ensures own { self.now.pass.table ≡ B.log }
        ensures number { self.now.number < B.shards }
        ensures tied { B.rests → IsTiedIn D.state D.honest B.store B.shards self.now.number self.now.node self.now.pass }
    {
        let _number = self.me.node();
    }

    /// The shard's pass and the caller's both know what either knew.
    pub fn share<R: Wait>(&mut self, rt: &R, lists: &Lists<B>, pass: &mut Pass<B>)
        ensures same { (self.new.node ≡ self.old.node) × (self.new.number ≡ self.old.number) }
        ensures own { KnowsBoth self.old.pass pass.old self.new.pass }
        ensures caller { KnowsBoth self.old.pass pass.old pass.new }

        // To what the caller's pass knows the node is tied as well.
        ensures tied { B.rests → IsTiedIn D.state D.honest B.store B.shards self.new.number self.new.node pass.new }
    {
        self.pass.share(rt, &lists.writes, &mut pass.pass);
    }

    /// The caller's pass knows what either knew.
    pub fn tell<R: Wait>(&self, rt: &R, lists: &Lists<B>, pass: &mut Pass<B>)
        ensures caller { KnowsBoth self.now.pass pass.old pass.new }
        ensures tied { B.rests → IsTiedIn D.state D.honest B.store B.shards self.now.number self.now.node pass.new }
    {
        self.pass.tell(rt, &lists.writes, &mut pass.pass);
    }
}
