// A shard learns all that is kept.
ghost use Rattle.std.specs.Prelude.{◌≡◌, ◌<◌, ℕ, Some, is_some, true};
ghost use Rattle.decisions.specs.Flows.{no_heads};
ghost use Rattle.calls.specs.Asking.{MayBeMade};
ghost use Rattle.calls.specs.Flows.{IfNext};
ghost use Rattle.calls.specs.Names.{name_of as name_of_call};
ghost use Rattle.names.specs.declared.call_name.CallName.TheVariants as names;
ghost use Rattle.catch_up.specs.CatchingUp.{Fits as FitsCatchUp};
ghost use Rattle.care_flow.specs.Learning.{Asks, Awaits, Fits, Gives, HasLearned, HeadsGive, Makes, NextCall, ask, catch_up as catching};
ghost use Rattle.care_flow.specs.LearnPhases.{IsOutOf, IsReadyOf, held_out, held_ready, name_ready, step_out, step_ready, view_of, view_out};
ghost use Rattle.care_flow.specs.Views.{ready};

use crate::end::CareEnd;
use calls::{CoordinatorCall, CoordinatorReply, NodeCall, Progress, Reply};
use catch_up::{CatchUp, CatchUpCall};
use decisions::Heads;
use names::CallName;
use std::marker::Model;
use tuples::Refusal;

/// Its next call.
#[derive(Drop)]
pub(crate) enum Ready {
    /// What is kept?
    Ask,
    CatchUp(Heads, CatchUp),
}

/// The call that is out, with what stays here.
#[derive(Drop)]
pub(crate) enum Out {
    Ask,
    CatchUp(Heads, CatchUpCall),
}

/// Brings a shard up to the place that was kept when the coordinator was asked.
#[derive(Drop)]
#[must_use]
pub struct LearnFlow {
    shard: u8,
    ready: Ready,
}

impl Model for LearnFlow {
    ghost use Rattle.std.specs.Prelude.{Some};
    ghost use Rattle.care_flow.specs.Learning.{LearnFlowValue};

    ghost Value = { LearnFlowValue };

    ghost use Rattle.care_flow.specs.LearnPhases.{IsReadyOf, name_ready, view_ready};

    ghost view = { λ f. record { shard = f.shard; seen = view_ready f.ready; next_name = Some (name_ready f.ready) } };

    ghost invariant = { λ f. IsReadyOf f.shard f.ready };
}

/// A call of it is out.
#[derive(Drop)]
#[must_use]
pub struct LearnCall {
    shard: u8,
    out: Out,
}

impl Model for LearnCall {
    ghost use Rattle.std.specs.Prelude.{None};
    ghost use Rattle.care_flow.specs.Learning.{LearnFlowValue};

    ghost Value = { LearnFlowValue };

    ghost use Rattle.care_flow.specs.LearnPhases.{IsOutOf, view_out};

    ghost view = { λ c. record { shard = c.shard; seen = view_out c.out; next_name = None } };

    ghost invariant = { λ c. IsOutOf c.shard c.out };
}

// The call of a phase, and the phase while it is out.
fn next(shard: u8, ready: Ready) -> (NodeCall, Out)
    requires { IsReadyOf shard ready }
    ensures asks { Asks shard (held_ready ready) (step_ready ready) result.0 (view_out result.1) }
    ensures owed { (shards : ℕ) → shard < shards → MayBeMade shards result.0 }
    ensures name { name_of_call result.0 ≡ name_ready ready }
    ensures kept { IsOutOf shard result.1 }
{
    let _shard = shard;
    match ready {
        Ready::Ask => (NodeCall::Coordinator(CoordinatorCall::Heads), Out::Ask),
        Ready::CatchUp(heads, catch_up) => {
            let (call, out) = catch_up.next_call();
            (call, Out::CatchUp(heads, out))
        }
    }
}

fn refused(refusal: Refusal) -> Progress<Ready, CareEnd>
    ensures { result ≡ Progress.Ended (CareEnd.Refused refusal) }
{
    Progress::Ended(CareEnd::Refused(refusal))
}

fn answered(shard: u8, answer: Result<Heads, Refusal>) -> Progress<Ready, CareEnd>
    ensures gives { HeadsGive no_heads answer (view_of result) }
    ensures kept { IfNext result (IsReadyOf shard) }
{
    match answer {
        Ok(heads) => {
            let catch_up = CatchUp::new(shard, heads.kept());
            Progress::Next(Ready::CatchUp(heads, catch_up))
        }
        Err(refusal) => refused(refusal),
    }
}

fn caught_up(heads: Heads, call: CatchUpCall, reply: Reply) -> Progress<Ready, CareEnd>
    requires fits { FitsCatchUp call.awaited reply }
    requires to { call.held.to ≡ heads.kept }
    ensures gives { Gives call.held.shard (held_out (Out.CatchUp heads call)) (catching (Some call.awaited)) reply (view_of result) }
    ensures kept { IfNext result (IsReadyOf call.held.shard) }
{
    match call.give(reply) {
        catch_up::Progress::Next(catch_up) => Progress::Next(Ready::CatchUp(heads, catch_up)),
        catch_up::Progress::There => Progress::Ended(CareEnd::Done),
        catch_up::Progress::Refused(refusal) => refused(refusal),
    }
}

fn give(shard: u8, out: Out, reply: Reply) -> Progress<Ready, CareEnd>
    requires fits { Fits (step_out out) reply }
    requires kept { IsOutOf shard out }
    ensures gives { Gives shard (held_out out) (step_out out) reply (view_of result) }
    ensures kept { IfNext result (IsReadyOf shard) }
{
    match out {
        Out::Ask => match reply {
            Reply::Coordinator(CoordinatorReply::Heads(answer)) => answered(shard, answer),
            _ => unreachable!(),
        },
        Out::CatchUp(heads, call) => caught_up(heads, call, reply),
    }
}

impl LearnFlow {
    /// For this shard.
    pub fn new(shard: u8) -> LearnFlow
        ensures { result ≡ record { shard = shard; seen = ready no_heads ask; next_name = Some names.Heads } }
    {
        LearnFlow {
            shard,
            ready: Ready::Ask,
        }
    }

    /// The name of its next call.
    pub fn next_name(&self) -> CallName
        ensures name { self.now.next_name ≡ Some result }
        ensures comes { is_some self.now.seen.next ≡ true }
    {
        match &self.ready {
            Ready::Ask => CallName::Heads,
            Ready::CatchUp(_, catch_up) => catch_up.next_name(),
        }
    }

    /// Its next call, which has to be made, and what waits for the reply.
    pub fn next_call(self) -> (NodeCall, LearnCall)
        ensures shard { result.1.shard ≡ self.shard }
        ensures call { NextCall self (Some result.0) result.1 }
        ensures name { self.next_name ≡ Some (name_of_call result.0) }
        ensures comes { is_some self.seen.next ≡ true }
        ensures owed { (shards : ℕ) → self.shard < shards → MayBeMade shards result.0 }
    {
        let LearnFlow { shard, ready } = self;
        let (call, out) = next(shard, ready);
        (call, LearnCall { shard, out })
    }
}

impl LearnCall {
    /// What the reply makes of it. It is done only if the shard has answered that it has learned up to the kept place.
    pub fn give(self, reply: Reply) -> Progress<LearnFlow, CareEnd>
        requires { Awaits self reply }
        ensures makes { Makes self reply result }
        ensures done { result ≡ Progress.Ended CareEnd.Done → HasLearned self.seen.holds reply }
    {
        let LearnCall { shard, out } = self;
        match give(shard, out, reply) {
            Progress::Next(ready) => Progress::Next(LearnFlow { shard, ready }),
            Progress::Ended(end) => Progress::Ended(end),
        }
    }
}
