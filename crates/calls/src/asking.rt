// One call of one node.
ghost use Rattle.std.specs.Prelude.{◌≡◌};
ghost use Rattle.calls.specs.Asking.{Answered, CoordinatorAnswers, MayAsk, MayAskCoordinator, MayAskShard, Refuses, CoordinatorRefuses, ShardAnswers, ShardRefuses};
ghost use Rattle.calls.specs.Belonging.{IsReplyTo};
ghost use Rattle.calls.specs.Refusing.{Notes};
ghost use Rattle.calls.specs.Seen.{seen};

use crate::node::Opened;
use crate::{
    CoordinatorCall, CoordinatorReply, Node, NodeCall, Reply, ShardCall, ShardReply, Told,
};
use coordinator::{Coordinator, NotDecided, NotRaised, Outcome};
use decisions::{Held, Intent, Vote};
use device::Device;
use shard::{Shard, VoteReply};
use std::alloc::Global;
use tuples::Refusal;
use versions::Budget;

fn ask_coordinator<D: Device>(
    alloc: Global,
    coordinator: &mut Coordinator<D>,
    call: CoordinatorCall,
) -> CoordinatorReply
    requires { MayAskCoordinator coordinator.old.me.shards call }
    ensures { CoordinatorAnswers D.state D.honest D.moment D.left_since coordinator.old call result coordinator.new }
{
    match call {
        CoordinatorCall::Begin(write) => CoordinatorReply::Begin(coordinator.begin(write)),
        CoordinatorCall::Heads => CoordinatorReply::Heads(coordinator.heads()),
        CoordinatorCall::Batch(from, to) => {
            CoordinatorReply::Batch(coordinator.batch(alloc, from, to))
        }
        CoordinatorCall::Decide(intent, votes) => {
            CoordinatorReply::Decide(coordinator.decide(intent, votes))
        }
        CoordinatorCall::Outcome(decided) => {
            CoordinatorReply::Outcome(coordinator.outcome(decided))
        }
        CoordinatorCall::Abort(intent) => CoordinatorReply::Abort(coordinator.abort(intent)),
        CoordinatorCall::Inquire(id) => CoordinatorReply::Inquire(coordinator.inquire(id)),
        CoordinatorCall::Raise(place, settled) => {
            CoordinatorReply::Raise(coordinator.raise(place, settled))
        }
        CoordinatorCall::Flush => CoordinatorReply::Flush(coordinator.flush()),
        CoordinatorCall::Checkpoint => {
            CoordinatorReply::Checkpoint(coordinator.checkpoint(alloc))
        }
    }
}

fn ask_shard<D: Device>(alloc: Global, shard: &mut Shard<D>, call: ShardCall) -> ShardReply
    requires { MayAskShard shard.old.me.shards shard.old.me.node call }
    ensures { ShardAnswers D.state D.honest D.moment D.left_since shard.old call result shard.new }
{
    match call {
        ShardCall::Learned => ShardReply::Learned(shard.learned()),
        ShardCall::Learn(batch) => {
            let answer = shard.learn(alloc, &batch);
            ShardReply::Learn(batch, answer)
        }
        ShardCall::StagePrepare(intent) => {
            let answer = shard.stage_prepare(alloc, &intent);
            ShardReply::StagePrepare(intent, answer)
        }
        ShardCall::Vote(ticket) => ShardReply::Vote(shard.vote(ticket)),
        ShardCall::DropWrite(verdict, held) => {
            let answer = shard.drop_write(&verdict, held);
            ShardReply::DropWrite(verdict, answer)
        }
        ShardCall::InDoubt => ShardReply::InDoubt(shard.in_doubt(alloc)),
        ShardCall::Read(place, set) => {
            let mut budget = Budget::unbounded();
            let answer = shard.read(alloc, place, set.get(), &mut budget);
            ShardReply::Read(set, answer)
        }
        ShardCall::ReadForCheck(place, userset, user) => {
            let mut budget = Budget::unbounded();
            let answer = shard.read_for_check(alloc, place, userset.get(), user.get(), &mut budget);
            ShardReply::ReadForCheck(userset, user, answer)
        }
        ShardCall::Settle => ShardReply::Settle(shard.settle()),
        ShardCall::Collect(heads) => {
            let answer = shard.collect(&heads);
            ShardReply::Collect(heads, answer)
        }
        ShardCall::Flush => ShardReply::Flush(shard.flush()),
        ShardCall::Checkpoint => ShardReply::Checkpoint(shard.checkpoint(alloc)),
    }
}

// The answer of a coordinator whose opening was refused: what would have been spent is spent.
fn refuse_for_coordinator(refusal: Refusal, call: CoordinatorCall) -> CoordinatorReply
    ensures { CoordinatorRefuses refusal call result }
{
    match call {
        CoordinatorCall::Begin(_) => CoordinatorReply::Begin(Err(refusal)),
        CoordinatorCall::Heads => CoordinatorReply::Heads(Err(refusal)),
        CoordinatorCall::Batch(_, _) => CoordinatorReply::Batch(Err(refusal)),
        CoordinatorCall::Decide(intent, votes) => {
            CoordinatorReply::Decide(Err(not_decided(refusal, intent, votes)))
        }
        CoordinatorCall::Outcome(decided) => {
            decided.leave();
            CoordinatorReply::Outcome(Outcome::Unsure)
        }
        CoordinatorCall::Abort(intent) => {
            intent.leave();
            CoordinatorReply::Abort(Err(refusal))
        }
        CoordinatorCall::Inquire(_) => CoordinatorReply::Inquire(Err(refusal)),
        CoordinatorCall::Raise(_, settled) => {
            CoordinatorReply::Raise(Err(NotRaised { refusal, settled }))
        }
        CoordinatorCall::Flush => CoordinatorReply::Flush(Err(refusal)),
        CoordinatorCall::Checkpoint => CoordinatorReply::Checkpoint(Err(refusal)),
    }
}

fn not_decided(refusal: Refusal, intent: Intent, votes: Vec<Vote>) -> NotDecided
    ensures { (result.refusal ≡ refusal) × (result.intent ≡ None) × (result.votes.items ≡ votes.items) }
{
    intent.leave();
    NotDecided {
        refusal,
        intent: None,
        votes,
    }
}

fn spend(held: Option<Held>) {
    if let Some(held) = held {
        held.leave();
    }
}

// The answer of a shard whose opening was refused: what would have been spent is spent.
fn refuse_for_shard(refusal: Refusal, call: ShardCall) -> ShardReply
    ensures { ShardRefuses refusal call result }
{
    match call {
        ShardCall::Learned => ShardReply::Learned(Err(refusal)),
        ShardCall::Learn(batch) => ShardReply::Learn(batch, Err(refusal)),
        ShardCall::StagePrepare(intent) => ShardReply::StagePrepare(intent, Err(refusal)),
        ShardCall::Vote(ticket) => {
            ticket.leave();
            ShardReply::Vote(VoteReply::No(refusal))
        }
        ShardCall::DropWrite(verdict, held) => {
            spend(held);
            ShardReply::DropWrite(verdict, Err(refusal))
        }
        ShardCall::InDoubt => ShardReply::InDoubt(Err(refusal)),
        ShardCall::Read(_, set) => ShardReply::Read(set, Err(refusal)),
        ShardCall::ReadForCheck(_, userset, user) => {
            ShardReply::ReadForCheck(userset, user, Err(refusal))
        }
        ShardCall::Settle => ShardReply::Settle(Err(refusal)),
        ShardCall::Collect(heads) => ShardReply::Collect(heads, Err(refusal)),
        ShardCall::Flush => ShardReply::Flush(Err(refusal)),
        ShardCall::Checkpoint => ShardReply::Checkpoint(Err(refusal)),
    }
}

/// The answer for a node that is not there: a refusal, as if its opening had been refused.
pub fn refuse(refusal: Refusal, call: NodeCall) -> Reply
    ensures refuses { Refuses refusal call result }
    ensures belongs { IsReplyTo call result }
{
    match call {
        NodeCall::Coordinator(call) => Reply::Coordinator(refuse_for_coordinator(refusal, call)),
        NodeCall::Shard(_, call) => Reply::Shard(refuse_for_shard(refusal, call)),
    }
}

// Notes the refusal that the reply carries.
pub(crate) fn tell(reply: &Reply, told: &mut Told)
    ensures { Notes told.old reply.now told.new }
{
    if let Some(refusal) = reply.refusal() {
        told.note(refusal);
    }
}

fn make<D: Device>(alloc: Global, opened: &mut Opened<D>, call: NodeCall) -> Reply
    requires { MayAsk (seen opened.old) call }
    ensures { Answered D.state D.honest D.moment D.left_since (seen opened.old) call result (seen opened.new) }
{
    match opened {
        Opened::Coordinator(coordinator) => match call {
            NodeCall::Coordinator(call) => {
                Reply::Coordinator(ask_coordinator(alloc, coordinator, call))
            }
            // Nobody asks it for a shard's call, but what the call carries has to be spent.
            other => refuse(Refusal::Down, other),
        },
        Opened::Shard(shard) => match call {
            NodeCall::Shard(_, call) => Reply::Shard(ask_shard(alloc, shard, call)),
            other => refuse(Refusal::Down, other),
        },
        Opened::Refused(refused) => refuse(refused.refusal, call),
    }
}

/// Makes the one call, of the node that it is for. What the call carries goes to the node, and what comes back is in the reply. A node whose
/// opening was refused answers that refusal: it spends what the call would have spent, and says nothing of a decision.
pub fn ask<D: Device>(node: &mut Node<D>, call: NodeCall, told: &mut Told) -> Reply
    requires { MayAsk node.old call }
    ensures answered { Answered D.state D.honest D.moment D.left_since node.old call result node.new }
    ensures belongs { IsReplyTo call result }
    ensures told { Notes told.old result told.new }
{
    let reply = make(node.alloc, &mut node.opened, call);
    tell(&reply, told);
    reply
}
