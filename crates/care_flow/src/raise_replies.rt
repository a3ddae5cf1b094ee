// What each reply makes of a raise.
ghost use Rattle.std.specs.Prelude.{◌≡◌, ◌<◌, ℕ, None, Some, IfErr};
ghost use Rattle.decisions.specs.Coordinators.{HaveSettled};
ghost use Rattle.decisions.specs.Flows.{nothing_raised};
ghost use Rattle.calls.specs.Flows.{IfNext};
ghost use Rattle.catch_up.specs.CatchingUp.{Fits as FitsCatchUp};
ghost use Rattle.care_flow.specs.Raising.{Fits, FlushGives, Gives, GoesRound, HeadsGive, RaiseGives, SettleGives, catch_up as catching};
ghost use Rattle.care_flow.specs.Views.{ready};
ghost use Rattle.care_flow.specs.RaisePhases.{IsOutOf, IsReadyOf, IsRoundOf, gathering as held_by, handed_in, held_out, step_out, view_of, view_ready};

use crate::end::{CareEnd, end_by};
use crate::gathering::{Gathered, Gathering};
use crate::raise_phase::{Out, Ready};
use calls::{CoordinatorReply, Progress, Reply, ShardReply};
use catch_up::CatchUpCall;
use coordinator::NotRaised;
use decisions::{Heads, Settled};
use std::alloc::Global;
use tuples::{Refusal, Shards};

fn refused(refusal: Refusal) -> Progress<Ready, CareEnd>
    ensures { result ≡ Progress.Ended (CareEnd.Refused refusal) }
{
    Progress::Ended(CareEnd::Refused(refusal))
}

// A shard is caught up to the kept place, whether for the first time or again.
fn begin(gathering: Gathering) -> Progress<Ready, CareEnd>
    requires { IsRoundOf gathering.shards gathering.place gathering }
    ensures goes { view_of result ≡ ready (held_by gathering None) (catching gathering.next None) }
    ensures kept { IfNext result (IsReadyOf gathering.shards gathering.place) }
{
    let catch_up = gathering.catch_up();
    Progress::Next(Ready::CatchUp(gathering, catch_up))
}

// The next shard's turn; after the last one the horizon is raised.
fn go_round(gathering: Gathering) -> Progress<Ready, CareEnd>
    ensures goes { GoesRound gathering.shards (held_by gathering None) gathering.next (view_of result) }
    ensures kept { IfNext result (IsReadyOf gathering.shards gathering.place) }
{
    if gathering.has_next() {
        return begin(gathering);
    }
    Progress::Next(Ready::Raise(gathering.all(), false))
}

// No shard can settle a place above the log, so the flow refuses it itself.
fn answered(
    alloc: Global,
    shards: Shards,
    place: u64,
    answer: Result<Heads, Refusal>,
) -> Progress<Ready, CareEnd>
    ensures gives { HeadsGive shards place nothing_raised answer (view_of result) }
    ensures kept { IfNext result (IsReadyOf shards place) }
{
    match answer {
        Ok(heads) => {
            if place <= heads.kept() {
                return match Gathering::new(alloc, shards, place, heads) {
                    Ok(gathering) => go_round(gathering),
                    Err(_) => refused(Refusal::NoMemory),
                };
            }
            if place <= heads.length() {
                return Progress::Next(Ready::FlushToAsk);
            }
            refused(Refusal::Future)
        }
        Err(refusal) => refused(refusal),
    }
}

fn caught_up(gathering: Gathering, call: CatchUpCall, reply: Reply) -> Progress<Ready, CareEnd>
    requires fits { FitsCatchUp call.awaited reply }
    requires round { IsRoundOf gathering.shards gathering.place gathering }
    requires own { (call.held.shard ≡ gathering.next) × (call.held.to ≡ gathering.heads.kept) }
    ensures gives { Gives gathering.shards gathering.place (held_out (Out.CatchUp gathering call)) (catching gathering.next (Some call.awaited)) reply (view_of result) }
    ensures kept { IfNext result (IsReadyOf gathering.shards gathering.place) }
{
    match call.give(reply) {
        catch_up::Progress::Next(catch_up) => Progress::Next(Ready::CatchUp(gathering, catch_up)),
        catch_up::Progress::There => Progress::Next(Ready::Flush(gathering)),
        catch_up::Progress::Refused(refusal) => refused(refusal),
    }
}

// A flush after which this call comes.
fn flushed(behind: Ready, answer: Result<(), Refusal>) -> Progress<Ready, CareEnd>
    ensures gives { FlushGives answer (view_ready behind) (view_of result) }
    ensures kept { (shards place : ℕ) → IsReadyOf shards place behind → IfNext result (IsReadyOf shards place) }
{
    match answer {
        Ok(()) => Progress::Next(behind),
        Err(refusal) => refused(refusal),
    }
}

fn settled(mut gathering: Gathering, answer: Result<Settled, Refusal>) -> Progress<Ready, CareEnd>
    requires { IsRoundOf gathering.shards gathering.place gathering }
    ensures gives { SettleGives gathering.shards gathering.place (held_by gathering None) gathering.next answer (view_of result) }
    ensures kept { IfNext result (IsReadyOf gathering.shards gathering.place) }
{
    match answer {
        Ok(settled) => {
            // A shard that was opened again may have lost what it had learned and not flushed.
            if !gathering.takes(&settled) {
                return begin(gathering);
            }
            gathering.add(settled);
            go_round(gathering)
        }
        Err(refusal) => refused(refusal),
    }
}

fn raised(
    shards: Shards,
    place: u64,
    heads: Heads,
    is_again: bool,
    answer: Result<(), NotRaised>,
) -> Progress<Ready, CareEnd>
    requires { IfErr answer (λ back. HaveSettled shards place back.settled.items) }
    ensures gives { RaiseGives (handed_in heads) is_again answer (view_of result) }
    ensures kept { IfNext result (IsReadyOf shards place) }
{
    match answer {
        Ok(()) => Progress::Next(Ready::FlushRaised(heads)),
        Err(back) => {
            let NotRaised { refusal, settled } = back;
            if refusal == Refusal::Full && !is_again {
                let gathered = Gathered::again(shards, place, heads, settled);
                return Progress::Next(Ready::FlushToRaise(gathered));
            }
            refused(refusal)
        }
    }
}

/// What a reply makes of the phase that waits for it.
pub(crate) fn give(
    alloc: Global,
    shards: Shards,
    place: u64,
    out: Out,
    reply: Reply,
) -> Progress<Ready, CareEnd>
    requires fits { Fits shards place (step_out out) reply }
    requires kept { IsOutOf shards place out }
    ensures gives { Gives shards place (held_out out) (step_out out) reply (view_of result) }
    ensures kept { IfNext result (IsReadyOf shards place) }
{
    match out {
        Out::Ask => match reply {
            Reply::Coordinator(CoordinatorReply::Heads(answer)) => {
                answered(alloc, shards, place, answer)
            }
            _ => unreachable!(),
        },
        Out::FlushToAsk => match reply {
            Reply::Coordinator(CoordinatorReply::Flush(answer)) => flushed(Ready::Ask, answer),
            _ => unreachable!(),
        },
        Out::CatchUp(gathering, call) => caught_up(gathering, call, reply),
        Out::Flush(gathering) => match reply {
            Reply::Shard(ShardReply::Flush(answer)) => flushed(Ready::Settle(gathering), answer),
            _ => unreachable!(),
        },
        Out::Settle(gathering) => match reply {
            Reply::Shard(ShardReply::Settle(answer)) => settled(gathering, answer),
            _ => unreachable!(),
        },
        Out::Raise(heads, is_again) => match reply {
            Reply::Coordinator(CoordinatorReply::Raise(answer)) => {
                raised(shards, place, heads, is_again, answer)
            }
            _ => unreachable!(),
        },
        Out::FlushToRaise(gathered) => match reply {
            Reply::Coordinator(CoordinatorReply::Flush(answer)) => {
                flushed(Ready::Raise(gathered, true), answer)
            }
            _ => unreachable!(),
        },
        Out::FlushRaised(_heads) => match reply {
            Reply::Coordinator(CoordinatorReply::Flush(answer)) => Progress::Ended(end_by(answer)),
            _ => unreachable!(),
        },
    }
}
