// The calls of a watch, and what each reply makes of it.
ghost use Rattle.std.specs.Prelude.{◌≡◌};
ghost use Rattle.calls.specs.Flows.{IfNext};
ghost use Rattle.calls.specs.Names.{name_of as name_of_call};
ghost use Rattle.answer_flow.specs.Watching.{Asks, BatchGives, Fits, FlushGives, GivesTo, HeadsGive, heartbeat as heartbeat_of};
ghost use Rattle.answer_flow.specs.WatchViews.{IsOutOf, IsReadyOf, awaited_of, name_of, step_ready, view_of, view_out, view_ready};
ghost use Rattle.answer_flow.specs.declared.watch_phase.Out.TheVariants as out_of;

use crate::events::events_of;
use crate::finding::{Found, find};
use crate::watch_phase::{AskedWatch, Out, Ready, WatchEnd};
use calls::{CoordinatorCall, CoordinatorReply, NodeCall, Progress, Reply};
use decisions::{Batch, Heads};
use tuples::{Freshness, Refusal};

// The place up to which all is listed.
fn heartbeat(cursor: u64, limit: u64, heads: &Heads) -> u64
    ensures { result ≡ heartbeat_of cursor limit heads.now }
{
    cursor.saturating_add(limit).min(heads.kept())
}

/// Its next call, and what stays here while that is out.
pub(crate) fn next(asked: &AskedWatch, ready: Ready) -> (NodeCall, Out)
    requires { IsReadyOf asked.now.cursor ready }
    ensures name { name_of_call result.0 ≡ name_of (step_ready ready) }
    ensures asks { Asks asked.now.cursor asked.now.limit (view_ready ready) result.0 (view_out result.1) }
    ensures kept { IsOutOf asked.now.cursor result.1 }
{
    match ready {
        Ready::Heads => (NodeCall::Coordinator(CoordinatorCall::Heads), Out::Heads),
        Ready::Flush => (NodeCall::Coordinator(CoordinatorCall::Flush), Out::Flush),
        Ready::Batch(heads) => {
            let to = heartbeat(asked.cursor, asked.limit, &heads);
            let call = CoordinatorCall::Batch(asked.cursor, to);
            (NodeCall::Coordinator(call), Out::Batch(heads))
        }
    }
}

// The coordinator has told its heads.
fn told(cursor: u64, answer: Result<Heads, Refusal>) -> Progress<Ready, WatchEnd>
    ensures gives { HeadsGive cursor answer (view_of result) }
    ensures kept { IfNext result (IsReadyOf cursor) }
{
    match answer {
        Ok(heads) => match find(Freshness::Exact(cursor), &heads) {
            Found::At(_) => Progress::Next(Ready::Batch(heads)),
            Found::Later => Progress::Next(Ready::Flush),
            Found::Refused(refusal) => Progress::Ended(WatchEnd::Refused(refusal)),
        },
        Err(refusal) => Progress::Ended(WatchEnd::Refused(refusal)),
    }
}

// The coordinator was flushed, and is asked again.
fn flushed(answer: Result<(), Refusal>) -> Progress<Ready, WatchEnd>
    ensures gives { FlushGives answer (view_of result) }
    ensures kept { (cursor : _) → IfNext result (IsReadyOf cursor) }
{
    match answer {
        Ok(()) => Progress::Next(Ready::Heads),
        Err(refusal) => Progress::Ended(WatchEnd::Refused(refusal)),
    }
}

// The decisions after the cursor have come.
fn fetched(
    asked: &AskedWatch,
    heads: Heads,
    answer: Result<Batch, Refusal>,
) -> Progress<Ready, WatchEnd>
    ensures gives { BatchGives asked.now.cursor asked.now.limit asked.now.namespaces.items (view_out (out_of.Batch heads)) answer (view_of result) }
    ensures kept { IfNext result (IsReadyOf asked.now.cursor) }
{
    match answer {
        Ok(batch) => match events_of(asked.alloc, &asked.namespaces, &batch) {
            Ok(events) => {
                let place = heartbeat(asked.cursor, asked.limit, &heads);
                Progress::Ended(WatchEnd::Answered(place, events))
            }
            Err(_) => Progress::Ended(WatchEnd::Refused(Refusal::NoMemory)),
        },
        Err(refusal) => Progress::Ended(WatchEnd::Refused(refusal)),
    }
}

/// What a reply makes of it.
pub(crate) fn give(asked: &AskedWatch, out: Out, reply: Reply) -> Progress<Ready, WatchEnd>
    requires { Fits (awaited_of out) reply }
    ensures gives { GivesTo asked.now.cursor asked.now.limit asked.now.namespaces.items (view_out out) (awaited_of out) reply (view_of result) }
    ensures kept { IfNext result (IsReadyOf asked.now.cursor) }
{
    match out {
        Out::Heads => match reply {
            Reply::Coordinator(CoordinatorReply::Heads(answer)) => told(asked.cursor, answer),
            _ => unreachable!(),
        },
        Out::Flush => match reply {
            Reply::Coordinator(CoordinatorReply::Flush(answer)) => flushed(answer),
            _ => unreachable!(),
        },
        Out::Batch(heads) => match reply {
            Reply::Coordinator(CoordinatorReply::Batch(answer)) => fetched(asked, heads, answer),
            _ => unreachable!(),
        },
    }
}
