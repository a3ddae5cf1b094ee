// A node's flush, or its checkpoint.
ghost use Rattle.std.specs.Prelude.{◌≡◌, ℕ, Some, is_some, true, option_map};
ghost use Rattle.calls.specs.Asking.{MayBeMade};
ghost use Rattle.calls.specs.Names.{name_of as name_of_call};
ghost use Rattle.care_flow.specs.Flushing.{Awaits, Gives, IsThere, NextCall, flush, flush_of, name_of};
ghost use Rattle.care_flow.specs.Views.{ready};

use crate::end::{CareEnd, end_by};
use calls::{CoordinatorCall, CoordinatorReply, NodeCall, Reply, ShardCall, ShardReply};
use names::{CallName, NodeName};
use std::marker::Model;

/// Makes all durable that a node has staged, by a flush or by a checkpoint: one call.
#[derive(Drop)]
#[must_use]
pub struct FlushFlow {
    node: NodeName,
    is_checkpoint: bool,
}

impl Model for FlushFlow {
    ghost use Rattle.care_flow.specs.Flushing.{FlushFlowValue, flush};
    ghost use Rattle.care_flow.specs.Views.{ready};

    ghost Value = { FlushFlowValue };

    ghost view = { λ f. record { node = f.node; is_checkpoint = f.is_checkpoint; seen = ready tt flush } };
}

/// Its call is out.
#[derive(Drop)]
#[must_use]
pub struct FlushCall {
    node: NodeName,
    is_checkpoint: bool,
}

impl Model for FlushCall {
    ghost use Rattle.care_flow.specs.Flushing.{FlushFlowValue, flush};
    ghost use Rattle.care_flow.specs.Views.{out};

    ghost Value = { FlushFlowValue };

    ghost view = { λ c. record { node = c.node; is_checkpoint = c.is_checkpoint; seen = out tt flush } };
}

fn call_of(is_checkpoint: bool, node: NodeName) -> NodeCall
    ensures { result ≡ flush_of is_checkpoint node }
{
    match (node, is_checkpoint) {
        (NodeName::Coordinator, false) => NodeCall::Coordinator(CoordinatorCall::Flush),
        (NodeName::Coordinator, true) => NodeCall::Coordinator(CoordinatorCall::Checkpoint),
        (NodeName::Shard(shard), false) => NodeCall::Shard(shard, ShardCall::Flush),
        (NodeName::Shard(shard), true) => NodeCall::Shard(shard, ShardCall::Checkpoint),
    }
}

impl FlushFlow {
    /// A flush of this node, by a checkpoint or of what it has staged.
    pub fn new(node: NodeName, is_checkpoint: bool) -> FlushFlow
        ensures { result ≡ record { node = node; is_checkpoint = is_checkpoint; seen = ready tt flush } }
    {
        FlushFlow {
            node,
            is_checkpoint,
        }
    }

    /// The name of its call.
    pub fn next_name(&self) -> CallName
        ensures name { option_map (name_of self.now.is_checkpoint) self.now.seen.next ≡ Some result }
        ensures comes { is_some self.now.seen.next ≡ true }
    {
        if self.is_checkpoint {
            CallName::Checkpoint
        } else {
            CallName::Flush
        }
    }

    /// Its call, which has to be made, and what waits for the reply.
    pub fn next_call(self) -> (NodeCall, FlushCall)
        ensures same { (result.1.node ≡ self.node) × (result.1.is_checkpoint ≡ self.is_checkpoint) }
        ensures call { NextCall self (Some result.0) result.1 }
        ensures name { option_map (name_of self.is_checkpoint) self.seen.next ≡ Some (name_of_call result.0) }
        ensures comes { is_some self.seen.next ≡ true }
        ensures owed { (shards : ℕ) → IsThere shards self.node → MayBeMade shards result.0 }
    {
        let FlushFlow {
            node,
            is_checkpoint,
        } = self;
        let call = call_of(is_checkpoint, node);
        let out = FlushCall {
            node,
            is_checkpoint,
        };
        (call, out)
    }
}

impl FlushCall {
    /// The reply ends it.
    pub fn give(self, reply: Reply) -> CareEnd
        requires { Awaits self reply }
        ensures { Gives self.is_checkpoint self.node reply result }
    {
        let FlushCall {
            node: _,
            is_checkpoint: _,
        } = self;
        match reply {
            Reply::Coordinator(CoordinatorReply::Flush(answer)) => end_by(answer),
            Reply::Coordinator(CoordinatorReply::Checkpoint(answer)) => end_by(answer),
            Reply::Shard(ShardReply::Flush(answer)) => end_by(answer),
            Reply::Shard(ShardReply::Checkpoint(answer)) => end_by(answer),
            _ => unreachable!(),
        }
    }
}
