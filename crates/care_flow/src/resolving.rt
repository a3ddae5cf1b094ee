// What became of each write that is in doubt at a shard.
ghost use Rattle.std.specs.Prelude.{◌≡◌, ◌<◌, [], ℕ, List, None, Some, is_some, true, map};
ghost use Rattle.calls.specs.Asking.{MayBeMade};
ghost use Rattle.calls.specs.Names.{name_of as name_of_call};
ghost use Rattle.names.specs.declared.call_name.CallName.TheVariants as names;
ghost use Rattle.catch_up.specs.CatchingUp.{Fits as FitsCatchUp};
ghost use Rattle.decisions.specs.Flows.{ResolveHolds};
ghost use Rattle.care_flow.specs.Ends.{next_of, resolved_value};
ghost use Rattle.care_flow.specs.Resolving.{Asks, Awaits, DoubtsGive, DropGives, Fits, Gives, GoesThrough, HasCommitted, InquiryGives, Makes, NextCall, catch_up as catching, in_doubt, nothing_found};
ghost use Rattle.care_flow.specs.ResolvePhases.{IsOutOf, IsLeftOf, IsReadyOf, held_out, held_ready, holding, name_ready, step_out, step_ready, view_of, view_out};
ghost use Rattle.care_flow.specs.Views.{ready};

use crate::end::{CareEnd, Resolved};
use crate::findings::Findings;
use calls::{CoordinatorCall, CoordinatorReply, NodeCall, Progress, Reply, ShardCall, ShardReply};
use catch_up::{CatchUp, CatchUpCall};
use coordinator::Inquiry;
use decisions::Verdict;
use names::CallName;
use std::alloc::Global;
use std::marker::Model;
use tuples::{Refusal, WriteId};

/// Its next call.
#[derive(Drop)]
pub(crate) enum Ready {
    /// What is in doubt?
    AskDoubts,
    /// What became of this one?
    Inquire(WriteId),
    /// It is decided.
    CatchUp(CatchUp),
    /// It is aborted.
    Drop(Verdict),
}

/// The call that is out, with what stays here.
#[derive(Drop)]
pub(crate) enum Out {
    AskDoubts,
    Inquire(WriteId),
    CatchUp(CatchUpCall),
    Drop,
}

/// Asks the coordinator for each write that is in doubt at a shard: one that is decided is learned there, one that was aborted is dropped, and one that is
/// undecided stays in doubt.
#[derive(Drop)]
#[must_use]
pub struct ResolveFlow {
    alloc: Global,
    shard: u8,
    findings: Findings,
    ready: Ready,
}

impl Model for ResolveFlow {
    ghost use Rattle.std.specs.Prelude.{Some};
    ghost use Rattle.care_flow.specs.Resolving.{ResolveFlowValue};

    ghost Value = { ResolveFlowValue };

    ghost use Rattle.care_flow.specs.ResolvePhases.{IsReadyOf, name_ready, view_ready};

    ghost view = { λ f. record { shard = f.shard; doubts = f.findings.doubts.items; seen = view_ready f.findings f.ready; next_name = Some (name_ready f.ready) } };

    ghost invariant = { λ f. IsReadyOf f.shard f.findings f.ready };
}

/// A call of it is out.
#[derive(Drop)]
#[must_use]
pub struct ResolveCall {
    alloc: Global,
    shard: u8,
    findings: Findings,
    out: Out,
}

impl Model for ResolveCall {
    ghost use Rattle.std.specs.Prelude.{None};
    ghost use Rattle.care_flow.specs.Resolving.{ResolveFlowValue};

    ghost Value = { ResolveFlowValue };

    ghost use Rattle.care_flow.specs.ResolvePhases.{IsOutOf, view_out};

    ghost view = { λ c. record { shard = c.shard; doubts = c.findings.doubts.items; seen = view_out c.findings c.out; next_name = None } };

    ghost invariant = { λ c. IsOutOf c.shard c.findings c.out };
}

// The call of a phase, and the phase while it is out.
fn next(shard: u8, findings: &Findings, ready: Ready) -> (NodeCall, Out)
    requires { IsReadyOf shard findings.now ready }
    ensures asks { Asks shard (held_ready findings.now ready) (step_ready ready) result.0 (view_out findings.now result.1) }
    ensures owed { (shards : ℕ) → shard < shards → MayBeMade shards result.0 }
    ensures name { name_of_call result.0 ≡ name_ready ready }
    ensures kept { IsOutOf shard findings.now result.1 }
{
    let _findings = findings;
    match ready {
        Ready::AskDoubts => (NodeCall::Shard(shard, ShardCall::InDoubt), Out::AskDoubts),
        Ready::Inquire(id) => {
            let call = NodeCall::Coordinator(CoordinatorCall::Inquire(id));
            (call, Out::Inquire(id))
        }
        Ready::CatchUp(catch_up) => {
            let (call, out) = catch_up.next_call();
            (call, Out::CatchUp(out))
        }
        Ready::Drop(verdict) => {
            let call = NodeCall::Shard(shard, ShardCall::DropWrite(verdict, None));
            (call, Out::Drop)
        }
    }
}

fn refused(refusal: Refusal) -> Progress<Ready, Result<(), Refusal>>
    ensures { result ≡ Progress.Ended (Err refusal) }
{
    Progress::Ended(Err(refusal))
}

// It continues with the next write.
fn go_on(shard: u8, findings: &Findings) -> Progress<Ready, Result<(), Refusal>>
    ensures goes { (doubts : List WriteId) (h : ResolveHolds) → doubts ≡ findings.now.doubts.items → h ≡ holding findings.now None None → GoesThrough doubts h (view_of findings.now result) }
    ensures kept { IsLeftOf shard findings.now result }
{
    let _shard = shard;
    match findings.next() {
        Some(id) => Progress::Next(Ready::Inquire(id)),
        None => Progress::Ended(Ok(())),
    }
}

fn told(
    alloc: Global,
    shard: u8,
    findings: &mut Findings,
    answer: Result<Vec<WriteId>, Refusal>,
) -> Progress<Ready, Result<(), Refusal>>
    requires { findings.old.found.items ≡ [] }
    ensures gives { DoubtsGive (holding findings.old None None) answer findings.new.doubts.items (view_of findings.new result) }
    ensures kept { IsLeftOf shard findings.new result }
{
    match answer {
        Ok(doubts) => match Findings::new(alloc, doubts) {
            Ok(known) => {
                *findings = known;
                go_on(shard, findings)
            }
            Err(_) => refused(Refusal::NoMemory),
        },
        Err(refusal) => refused(refusal),
    }
}

fn inquired(
    shard: u8,
    findings: &mut Findings,
    id: WriteId,
    answer: Result<Inquiry, Refusal>,
) -> Progress<Ready, Result<(), Refusal>>
    requires { next_of findings.old.doubts.items findings.old.found.items ≡ Some id }
    ensures doubts { findings.new.doubts ≡ findings.old.doubts }
    ensures gives { InquiryGives findings.old.doubts.items (holding findings.old None None) id answer (view_of findings.new result) }
    ensures kept { IsLeftOf shard findings.new result }
{
    match answer {
        Ok(Inquiry::Commit(place)) => {
            findings.note(Resolved::Committed(id, place));
            Progress::Next(Ready::CatchUp(CatchUp::new(shard, place)))
        }
        Ok(Inquiry::Abort(verdict)) => {
            findings.note(Resolved::Aborted(id));
            Progress::Next(Ready::Drop(verdict))
        }
        // Whoever decides it still needs its prepare.
        Ok(Inquiry::Undecided) => {
            findings.note(Resolved::Undecided(id));
            go_on(shard, findings)
        }
        Err(refusal) => refused(refusal),
    }
}

fn caught_up(
    shard: u8,
    findings: &Findings,
    call: CatchUpCall,
    reply: Reply,
) -> Progress<Ready, Result<(), Refusal>>
    requires fits { FitsCatchUp call.awaited reply }
    requires shard { call.held.shard ≡ shard }
    requires committed { HasCommitted (map resolved_value findings.now.found.items) call.held.to }
    ensures gives { Gives shard findings.now.doubts.items (held_out findings.now (Out.CatchUp call)) (catching call.held.to (Some call.awaited)) reply findings.now.doubts.items (view_of findings.now result) }
    ensures kept { IsLeftOf shard findings.now result }
{
    match call.give(reply) {
        catch_up::Progress::Next(catch_up) => Progress::Next(Ready::CatchUp(catch_up)),
        catch_up::Progress::There => go_on(shard, findings),
        catch_up::Progress::Refused(refusal) => refused(refusal),
    }
}

fn dropped(
    shard: u8,
    findings: &Findings,
    answer: Result<(), Refusal>,
) -> Progress<Ready, Result<(), Refusal>>
    ensures gives { DropGives findings.now.doubts.items (holding findings.now None None) answer (view_of findings.now result) }
    ensures kept { IsLeftOf shard findings.now result }
{
    match answer {
        Ok(()) => go_on(shard, findings),
        Err(refusal) => refused(refusal),
    }
}

fn give(
    alloc: Global,
    shard: u8,
    findings: &mut Findings,
    out: Out,
    reply: Reply,
) -> Progress<Ready, Result<(), Refusal>>
    requires fits { Fits (step_out out) reply }
    requires kept { IsOutOf shard findings.old out }
    ensures gives { Gives shard findings.old.doubts.items (held_out findings.old out) (step_out out) reply findings.new.doubts.items (view_of findings.new result) }
    ensures kept { IsLeftOf shard findings.new result }
{
    match out {
        Out::AskDoubts => match reply {
            Reply::Shard(ShardReply::InDoubt(answer)) => told(alloc, shard, findings, answer),
            _ => unreachable!(),
        },
        Out::Inquire(id) => match reply {
            Reply::Coordinator(CoordinatorReply::Inquire(answer)) => {
                inquired(shard, findings, id, answer)
            }
            _ => unreachable!(),
        },
        Out::CatchUp(call) => caught_up(shard, findings, call, reply),
        Out::Drop => match reply {
            Reply::Shard(ShardReply::DropWrite(_, answer)) => dropped(shard, findings, answer),
            _ => unreachable!(),
        },
    }
}

impl ResolveFlow {
    /// For this shard.
    pub fn new(alloc: Global, shard: u8) -> ResolveFlow
        ensures { result ≡ record { shard = shard; doubts = []; seen = ready nothing_found in_doubt; next_name = Some names.InDoubt } }
    {
        ResolveFlow {
            alloc,
            shard,
            findings: Findings::none(alloc),
            ready: Ready::AskDoubts,
        }
    }

    /// The name of its next call.
    pub fn next_name(&self) -> CallName
        ensures name { self.now.next_name ≡ Some result }
        ensures comes { is_some self.now.seen.next ≡ true }
    {
        match &self.ready {
            Ready::AskDoubts => CallName::InDoubt,
            Ready::Inquire(_) => CallName::Inquire,
            Ready::CatchUp(catch_up) => catch_up.next_name(),
            Ready::Drop(_) => CallName::DropWrite,
        }
    }

    /// Its next call, which has to be made, and what waits for the reply.
    pub fn next_call(self) -> (NodeCall, ResolveCall)
        ensures same { (result.1.shard ≡ self.shard) × (result.1.doubts ≡ self.doubts) }
        ensures call { NextCall self (Some result.0) result.1 }
        ensures name { self.next_name ≡ Some (name_of_call result.0) }
        ensures comes { is_some self.seen.next ≡ true }
        ensures owed { (shards : ℕ) → self.shard < shards → MayBeMade shards result.0 }
    {
        let ResolveFlow {
            alloc,
            shard,
            findings,
            ready,
        } = self;
        let (call, out) = next(shard, &findings, ready);
        let out = ResolveCall {
            alloc,
            shard,
            findings,
            out,
        };
        (call, out)
    }
}

impl ResolveCall {
    /// What the reply makes of it. It takes memory for what it finds once it knows how many writes there are. At its end it has a finding for each write
    /// that was in doubt, in their order.
    pub fn give(self, reply: Reply) -> Progress<ResolveFlow, CareEnd>
        requires { Awaits self reply }
        ensures { Makes self reply result }
    {
        let ResolveCall {
            alloc,
            shard,
            mut findings,
            out,
        } = self;
        match give(alloc, shard, &mut findings, out, reply) {
            Progress::Next(ready) => Progress::Next(ResolveFlow {
                alloc,
                shard,
                findings,
                ready,
            }),
            Progress::Ended(Ok(())) => Progress::Ended(CareEnd::Resolved(findings.found)),
            Progress::Ended(Err(refusal)) => Progress::Ended(CareEnd::Refused(refusal)),
        }
    }
}
