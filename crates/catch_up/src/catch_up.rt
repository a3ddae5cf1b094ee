// A shard on its way to a place, between two calls.
ghost use Rattle.std.specs.Prelude.{◌≡◌, None, false};
ghost use Rattle.calls.specs.Names.{name_of as name_of_call};
ghost use Rattle.names.specs.declared.call_name.CallName.TheVariants as names;
ghost use Rattle.catch_up.specs.CatchingUp.{Asks};
ghost use Rattle.catch_up.specs.Steps.{awaited_by, held_by, name_out};

use crate::caught::{Asked, CatchUpCall};
use calls::{CoordinatorCall, NodeCall, ShardCall};
use decisions::Batch;
use names::CallName;
use std::marker::Model;

#[derive(Drop)]
pub(crate) enum Step {
    // how far has the shard learned?
    Learned,
    // the decisions after this place are wanted
    Batch(u64),
    // the shard is to learn these; whether it was flushed for that already
    Learn(Batch, bool),
    // the shard has no room for these before a flush
    Flush(Batch),
}

/// A shard that is brought up to a place of the log, and waits for its next turn.
#[derive(Drop)]
pub struct CatchUp {
    pub(crate) shard: u8,
    pub(crate) to: u64,
    pub(crate) step: Step,
}

impl Model for CatchUp {
    ghost use Rattle.catch_up.specs.Held.{CatchUpValue};

    ghost Value = { CatchUpValue };

    ghost use Rattle.catch_up.specs.Steps.{batch_of, flushed_of, from_of, IsBelow, name_of};

    ghost view = { λ c. record { shard = c.shard; to = c.to; batch = batch_of c.step; next = name_of c.step; from = from_of c.step; flushed = flushed_of c.step } };

    ghost invariant = { λ c. IsBelow c.to c.step };
}

impl CatchUp {
    /// Brings this shard up to this place.
    pub fn new(shard: u8, to: u64) -> CatchUp
        ensures { result ≡ record { shard = shard; to = to; batch = None; next = names.Learned; from = None; flushed = false } }
    {
        CatchUp {
            shard,
            to,
            step: Step::Learned,
        }
    }

    /// The name of its next call.
    pub fn next_name(&self) -> CallName
        ensures { result ≡ self.now.next }
    {
        match &self.step {
            Step::Learned => CallName::Learned,
            Step::Batch(_) => CallName::Batch,
            Step::Learn(_, _) => CallName::Learn,
            Step::Flush(_) => CallName::Flush,
        }
    }

    /// Its next call. It asks for decisions from the place that the shard answered, and tells a learning after a flush from a first one.
    pub fn next_call(self) -> (NodeCall, CatchUpCall)
        ensures asks { Asks self result.0 result.1 }
        ensures name { name_of_call result.0 ≡ self.next }
    {
        let CatchUp { shard, to, step } = self;
        match step {
            Step::Learned => {
                let call = NodeCall::Shard(shard, ShardCall::Learned);
                (call, awaiting(shard, to, Asked::Learned))
            }
            Step::Batch(from) => {
                let call = NodeCall::Coordinator(CoordinatorCall::Batch(from, to));
                (call, awaiting(shard, to, Asked::Batch))
            }
            Step::Learn(batch, is_again) => {
                let call = NodeCall::Shard(shard, ShardCall::Learn(batch));
                (call, awaiting(shard, to, Asked::Learn(is_again)))
            }
            Step::Flush(batch) => {
                let call = NodeCall::Shard(shard, ShardCall::Flush);
                (call, awaiting(shard, to, Asked::Flush(batch)))
            }
        }
    }
}

// A call of it is out.
fn awaiting(shard: u8, to: u64, asked: Asked) -> CatchUpCall
    ensures { result ≡ record { held = record { shard = shard; to = to; batch = held_by asked; next = name_out asked; from = None; flushed = false }; awaited = awaited_by asked } }
{
    CatchUpCall { shard, to, asked }
}
