// A shard on its way to a place, while a call is out.
ghost use Rattle.std.specs.Prelude.{◌≡◌, Some, None, false};
ghost use Rattle.names.specs.declared.call_name.CallName.TheVariants as names;
ghost use Rattle.catch_up.specs.CatchingUp.{BatchGives, Fits, FlushGives, Gives, LearnGives, LearnedGives};
ghost use Rattle.catch_up.specs.Held.{learning};
ghost use Rattle.catch_up.specs.Steps.{IsBelow, batch_of, flushed_of, from_of, name_of};

use crate::CatchUp;
use crate::catch_up::Step;
use calls::{CoordinatorReply, Reply, ShardReply};
use decisions::Batch;
use std::marker::Model;
use tuples::Refusal;

#[derive(Drop)]
pub(crate) enum Asked {
    Learned,
    Batch,
    // whether the shard was flushed for it already
    Learn(bool),
    // the decisions that wait
    Flush(Batch),
}

/// A call of it is out, and the reply has to come back here.
#[derive(Drop)]
#[must_use]
pub struct CatchUpCall {
    pub(crate) shard: u8,
    pub(crate) to: u64,
    pub(crate) asked: Asked,
}

impl Model for CatchUpCall {
    ghost use Rattle.std.specs.Prelude.{None, false};
    ghost use Rattle.catch_up.specs.Held.{CatchUpCallValue};

    ghost Value = { CatchUpCallValue };

    ghost use Rattle.catch_up.specs.Steps.{awaited_by, held_by, name_out};

    ghost view = { λ c. record { held = record { shard = c.shard; to = c.to; batch = held_by c.asked; next = name_out c.asked; from = None; flushed = false }; awaited = awaited_by c.asked } };
}

/// What a reply made of it.
#[derive(Drop)]
pub enum Progress {
    /// It continues.
    Next(CatchUp),
    /// The shard has answered that it has learned up to the place.
    There,
    /// A call was refused.
    Refused(Refusal),
}

// The next turn of it.
fn next(shard: u8, to: u64, step: Step) -> Progress
    requires { IsBelow to step }
    ensures { result ≡ Progress.Next (record { shard = shard; to = to; batch = batch_of step; next = name_of step; from = from_of step; flushed = flushed_of step }) }
{
    Progress::Next(CatchUp { shard, to, step })
}

fn learned(shard: u8, to: u64, answer: Result<u64, Refusal>) -> Progress
    ensures { LearnedGives (record { shard = shard; to = to; batch = None; next = names.Learned; from = None; flushed = false }) answer result }
{
    match answer {
        Ok(place) => {
            if place >= to {
                return Progress::There;
            }
            next(shard, to, Step::Batch(place))
        }
        Err(refusal) => Progress::Refused(refusal),
    }
}

fn fetched(shard: u8, to: u64, answer: Result<Batch, Refusal>) -> Progress
    ensures { BatchGives (record { shard = shard; to = to; batch = None; next = names.Batch; from = None; flushed = false }) answer result }
{
    match answer {
        Ok(batch) => next(shard, to, Step::Learn(batch, false)),
        // Others may have brought the shard past what is forgotten since it was asked.
        Err(Refusal::Collected) => next(shard, to, Step::Learned),
        Err(refusal) => Progress::Refused(refusal),
    }
}

fn handed_over(
    shard: u8,
    to: u64,
    is_again: bool,
    batch: Batch,
    answer: Result<bool, Refusal>,
) -> Progress
    ensures { LearnGives (record { shard = shard; to = to; batch = None; next = names.Learn; from = None; flushed = false }) (learning is_again) batch answer result }
{
    match answer {
        Ok(_) => next(shard, to, Step::Learned),
        Err(refusal) => {
            if refusal == Refusal::Full && !is_again {
                return next(shard, to, Step::Flush(batch));
            }
            Progress::Refused(refusal)
        }
    }
}

fn flushed(shard: u8, to: u64, batch: Batch, answer: Result<(), Refusal>) -> Progress
    ensures { FlushGives (record { shard = shard; to = to; batch = Some batch; next = names.Flush; from = None; flushed = false }) answer result }
{
    match answer {
        Ok(()) => next(shard, to, Step::Learn(batch, true)),
        Err(refusal) => Progress::Refused(refusal),
    }
}

impl CatchUpCall {
    /// What the reply to its call makes of it. A refusal ends it, with two exceptions: if the decisions after a place are forgotten, the shard
    /// is asked again how far it has learned, and a full shard is flushed once and handed the same decisions again.
    pub fn give(self, reply: Reply) -> Progress
        requires { Fits self.awaited reply }
        ensures { Gives self reply result }
    {
        let CatchUpCall { shard, to, asked } = self;
        match asked {
            Asked::Learned => match reply {
                Reply::Shard(ShardReply::Learned(answer)) => learned(shard, to, answer),
                _ => unreachable!(),
            },
            Asked::Batch => match reply {
                Reply::Coordinator(CoordinatorReply::Batch(answer)) => fetched(shard, to, answer),
                _ => unreachable!(),
            },
            Asked::Learn(is_again) => match reply {
                Reply::Shard(ShardReply::Learn(batch, answer)) => {
                    handed_over(shard, to, is_again, batch, answer)
                }
                _ => unreachable!(),
            },
            Asked::Flush(batch) => match reply {
                Reply::Shard(ShardReply::Flush(answer)) => flushed(shard, to, batch, answer),
                _ => unreachable!(),
            },
        }
    }
}
