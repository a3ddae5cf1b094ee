// A shard collects what no read needs.
ghost use Rattle.std.specs.Prelude.{◌≡◌, ◌<◌, ℕ, Some, is_some, true, option_map};
ghost use Rattle.decisions.specs.Flows.{no_heads};
ghost use Rattle.calls.specs.Asking.{MayBeMade};
ghost use Rattle.calls.specs.Names.{name_of as name_of_call};
ghost use Rattle.care_flow.specs.Collecting.{Asks, Awaits, CollectGives, Fits, FlushGives, Gives, HeadsGive, Makes, NextCall, ask, name_of};
ghost use Rattle.care_flow.specs.CollectPhases.{having, held_out, held_ready, step_out, step_ready, view_of, view_out};
ghost use Rattle.care_flow.specs.Views.{ready};

use crate::end::{CareEnd, end_by};
use calls::{CoordinatorCall, CoordinatorReply, NodeCall, Progress, Reply, ShardCall, ShardReply};
use decisions::Heads;
use names::CallName;
use std::marker::Model;
use tuples::Refusal;

/// Its next call.
#[derive(Drop)]
pub(crate) enum Ready {
    /// Where is the horizon?
    Ask,
    /// Whether the shard was flushed for it already.
    Collect(Heads, bool),
    /// The shard has no room for the record.
    FlushToCollect(Heads),
    Flush,
}

/// The call that is out, with what stays here.
#[derive(Drop)]
pub(crate) enum Out {
    Ask,
    Collect(bool),
    FlushToCollect(Heads),
    Flush,
}

/// Lets a shard forget the versions that no read from the horizon on needs.
#[derive(Drop)]
#[must_use]
pub struct CollectFlow {
    shard: u8,
    ready: Ready,
}

impl Model for CollectFlow {
    ghost use Rattle.care_flow.specs.Collecting.{CollectFlowValue};

    ghost Value = { CollectFlowValue };

    ghost use Rattle.care_flow.specs.CollectPhases.{view_ready};

    ghost view = { λ f. record { shard = f.shard; seen = view_ready f.ready } };
}

/// A call of it is out.
#[derive(Drop)]
#[must_use]
pub struct CollectCall {
    shard: u8,
    out: Out,
}

impl Model for CollectCall {
    ghost use Rattle.care_flow.specs.Collecting.{CollectFlowValue};

    ghost Value = { CollectFlowValue };

    ghost use Rattle.care_flow.specs.CollectPhases.{view_out};

    ghost view = { λ c. record { shard = c.shard; seen = view_out c.out } };
}

// The call of a phase, and the phase while it is out.
fn next(shard: u8, ready: Ready) -> (NodeCall, Out)
    ensures asks { Asks shard (held_ready ready) (step_ready ready) result.0 (view_out result.1) }
    ensures owed { (shards : ℕ) → shard < shards → MayBeMade shards result.0 }
{
    match ready {
        Ready::Ask => (NodeCall::Coordinator(CoordinatorCall::Heads), Out::Ask),
        Ready::Collect(heads, is_again) => {
            let call = NodeCall::Shard(shard, ShardCall::Collect(heads));
            (call, Out::Collect(is_again))
        }
        Ready::FlushToCollect(heads) => {
            let call = NodeCall::Shard(shard, ShardCall::Flush);
            (call, Out::FlushToCollect(heads))
        }
        Ready::Flush => (NodeCall::Shard(shard, ShardCall::Flush), Out::Flush),
    }
}

fn refused(refusal: Refusal) -> Progress<Ready, CareEnd>
    ensures { result ≡ Progress.Ended (CareEnd.Refused refusal) }
{
    Progress::Ended(CareEnd::Refused(refusal))
}

fn answered(answer: Result<Heads, Refusal>) -> Progress<Ready, CareEnd>
    ensures { HeadsGive no_heads answer (view_of result) }
{
    match answer {
        Ok(heads) => Progress::Next(Ready::Collect(heads, false)),
        Err(refusal) => refused(refusal),
    }
}

fn collected(is_again: bool, heads: Heads, answer: Result<(), Refusal>) -> Progress<Ready, CareEnd>
    ensures { CollectGives no_heads is_again heads answer (view_of result) }
{
    match answer {
        Ok(()) => Progress::Next(Ready::Flush),
        Err(refusal) => {
            if refusal == Refusal::Full && !is_again {
                return Progress::Next(Ready::FlushToCollect(heads));
            }
            refused(refusal)
        }
    }
}

fn flushed(heads: Heads, answer: Result<(), Refusal>) -> Progress<Ready, CareEnd>
    ensures { FlushGives (having heads) answer (view_of result) }
{
    match answer {
        Ok(()) => Progress::Next(Ready::Collect(heads, true)),
        Err(refusal) => refused(refusal),
    }
}

fn give(out: Out, reply: Reply) -> Progress<Ready, CareEnd>
    requires { Fits (step_out out) reply }
    ensures { Gives (held_out out) (step_out out) reply (view_of result) }
{
    match out {
        Out::Ask => match reply {
            Reply::Coordinator(CoordinatorReply::Heads(answer)) => answered(answer),
            _ => unreachable!(),
        },
        Out::Collect(is_again) => match reply {
            Reply::Shard(ShardReply::Collect(heads, answer)) => collected(is_again, heads, answer),
            _ => unreachable!(),
        },
        Out::FlushToCollect(heads) => match reply {
            Reply::Shard(ShardReply::Flush(answer)) => flushed(heads, answer),
            _ => unreachable!(),
        },
        Out::Flush => match reply {
            Reply::Shard(ShardReply::Flush(answer)) => Progress::Ended(end_by(answer)),
            _ => unreachable!(),
        },
    }
}

impl CollectFlow {
    /// For this shard.
    pub fn new(shard: u8) -> CollectFlow
        ensures { result ≡ record { shard = shard; seen = ready no_heads ask } }
    {
        CollectFlow {
            shard,
            ready: Ready::Ask,
        }
    }

    /// The name of its next call.
    pub fn next_name(&self) -> CallName
        ensures name { option_map name_of self.now.seen.next ≡ Some result }
        ensures comes { is_some self.now.seen.next ≡ true }
    {
        match &self.ready {
            Ready::Ask => CallName::Heads,
            Ready::Collect(_, _) => CallName::Collect,
            Ready::FlushToCollect(_) | Ready::Flush => CallName::Flush,
        }
    }

    /// Its next call, which has to be made, and what waits for the reply.
    pub fn next_call(self) -> (NodeCall, CollectCall)
        ensures shard { result.1.shard ≡ self.shard }
        ensures call { NextCall self (Some result.0) result.1 }
        ensures name { option_map name_of self.seen.next ≡ Some (name_of_call result.0) }
        ensures comes { is_some self.seen.next ≡ true }
        ensures owed { (shards : ℕ) → self.shard < shards → MayBeMade shards result.0 }
    {
        let CollectFlow { shard, ready } = self;
        let (call, out) = next(shard, ready);
        (call, CollectCall { shard, out })
    }
}

impl CollectCall {
    /// What the reply makes of it.
    pub fn give(self, reply: Reply) -> Progress<CollectFlow, CareEnd>
        requires { Awaits self reply }
        ensures { Makes self reply result }
    {
        let CollectCall { shard, out } = self;
        match give(out, reply) {
            Progress::Next(ready) => Progress::Next(CollectFlow { shard, ready }),
            Progress::Ended(end) => Progress::Ended(end),
        }
    }
}
