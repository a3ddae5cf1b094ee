// What a reply makes of the phase that waits for it.
ghost use Rattle.std.specs.Prelude.{ℕ, ◌≡◌};
ghost use Rattle.calls.specs.Flows.{IfNext};
ghost use Rattle.commit_flow.specs.Answering.{ComesNext, Fits, GivesTo};
ghost use Rattle.commit_flow.specs.Kept.{IsFresh, IsOutOf, IsReadyOf};
ghost use Rattle.commit_flow.specs.Views.{awaited_of, name_ready, view_of, view_out};
ghost use Rattle.commit_flow.specs.declared.phase.Out.TheVariants as out_of;

use crate::ballot::Ballot;
use crate::deciding::{decided as decide, flushed_to_decide, told};
use crate::dropping::{aborted, dropped, inquired};
use crate::end::WriteEnd;
use crate::load::Load;
use crate::phase::{AskedPrepare, Leaving, Out, Preparing, Ready, Voting};
use crate::preparing::{begun, caught_up, flushed_to_prepare, prepared};
use crate::voting::{flushed_to_vote, voted};
use calls::{CoordinatorReply, Progress, Reply, ShardReply};
use coordinator::Decided;
use decisions::Ticket;
use std::alloc::Global;
use tuples::{Shards, WriteId};

fn give_decide(
    alloc: Global,
    shards: Shards,
    id: WriteId,
    is_again: bool,
    reply: Reply,
) -> Progress<Ready, WriteEnd>
    requires fits { Fits shards (view_out (out_of.Decide id is_again)) (awaited_of (out_of.Decide id is_again)) reply }
    ensures gives { GivesTo (view_out (out_of.Decide id is_again)) (awaited_of (out_of.Decide id is_again)) reply (view_of result) }
    ensures kept { IfNext result (IsReadyOf shards) }
{
    match reply {
        Reply::Coordinator(CoordinatorReply::Decide(answer)) => {
            Progress::Next(decide(alloc, shards, id, is_again, answer))
        }
        _ => unreachable!(),
    }
}

fn give_begin(load: Load, reply: Reply) -> Progress<Ready, WriteEnd>
    requires fresh { IsFresh load.shards load }
    requires fits { Fits load.shards (view_out (out_of.Begin load)) (awaited_of (out_of.Begin load)) reply }
    ensures gives { GivesTo (view_out (out_of.Begin load)) (awaited_of (out_of.Begin load)) reply (view_of result) }
    ensures kept { IfNext result (IsReadyOf load.shards) }
{
    match reply {
        Reply::Coordinator(CoordinatorReply::Begin(answer)) => begun(load, answer),
        _ => unreachable!(),
    }
}

fn give_prepare(asked: AskedPrepare, is_again: bool, reply: Reply) -> Progress<Ready, WriteEnd>
    requires fits { Fits asked.load.shards (view_out (out_of.Prepare asked is_again)) (awaited_of (out_of.Prepare asked is_again)) reply }
    ensures gives { GivesTo (view_out (out_of.Prepare asked is_again)) (awaited_of (out_of.Prepare asked is_again)) reply (view_of result) }
    ensures kept { IfNext result (IsReadyOf asked.load.shards) }
{
    match reply {
        Reply::Shard(ShardReply::StagePrepare(intent, answer)) => Progress::Next(prepared(
            asked, is_again, intent, answer,
        )),
        _ => unreachable!(),
    }
}

fn give_flush_to_prepare(preparing: Preparing, reply: Reply) -> Progress<Ready, WriteEnd>
    requires fits { Fits preparing.load.shards (view_out (out_of.FlushToPrepare preparing)) (awaited_of (out_of.FlushToPrepare preparing)) reply }
    ensures gives { GivesTo (view_out (out_of.FlushToPrepare preparing)) (awaited_of (out_of.FlushToPrepare preparing)) reply (view_of result) }
    ensures kept { IfNext result (IsReadyOf preparing.load.shards) }
{
    match reply {
        Reply::Shard(ShardReply::Flush(answer)) => Progress::Next(flushed_to_prepare(
            preparing, answer,
        )),
        _ => unreachable!(),
    }
}

fn give_vote(voting: Voting, reply: Reply) -> Progress<Ready, WriteEnd>
    requires fits { Fits voting.load.shards (view_out (out_of.Vote voting)) (awaited_of (out_of.Vote voting)) reply }
    ensures gives { GivesTo (view_out (out_of.Vote voting)) (awaited_of (out_of.Vote voting)) reply (view_of result) }
    ensures next { IfNext result (λ ready. ComesNext (awaited_of (out_of.Vote voting)) reply (name_ready ready)) }
    ensures kept { IfNext result (IsReadyOf voting.load.shards) }
{
    match reply {
        Reply::Shard(ShardReply::Vote(answer)) => Progress::Next(voted(voting, answer)),
        _ => unreachable!(),
    }
}

fn give_flush_to_vote(voting: Voting, ticket: Ticket, reply: Reply) -> Progress<Ready, WriteEnd>
    requires own { ticket.id ≡ voting.intent.write.id }
    requires fits { Fits voting.load.shards (view_out (out_of.FlushToVote voting ticket)) (awaited_of (out_of.FlushToVote voting ticket)) reply }
    ensures gives { GivesTo (view_out (out_of.FlushToVote voting ticket)) (awaited_of (out_of.FlushToVote voting ticket)) reply (view_of result) }
    ensures next { IfNext result (λ ready. ComesNext (awaited_of (out_of.FlushToVote voting ticket)) reply (name_ready ready)) }
    ensures kept { IfNext result (IsReadyOf voting.load.shards) }
{
    match reply {
        Reply::Shard(ShardReply::Flush(answer)) => Progress::Next(flushed_to_vote(
            voting, ticket, answer,
        )),
        _ => unreachable!(),
    }
}

fn give_flush_to_decide(alloc: Global, ballot: Ballot, reply: Reply) -> Progress<Ready, WriteEnd>
    requires fits { Fits ballot.shards (view_out (out_of.FlushToDecide ballot)) (awaited_of (out_of.FlushToDecide ballot)) reply }
    ensures gives { GivesTo (view_out (out_of.FlushToDecide ballot)) (awaited_of (out_of.FlushToDecide ballot)) reply (view_of result) }
    ensures kept { IfNext result (IsReadyOf ballot.shards) }
{
    match reply {
        Reply::Coordinator(CoordinatorReply::Flush(answer)) => Progress::Next(flushed_to_decide(
            alloc, ballot, answer,
        )),
        _ => unreachable!(),
    }
}

fn give_outcome(id: WriteId, reply: Reply) -> Progress<Ready, WriteEnd>
    requires fits { Fits 0 (view_out (out_of.Outcome id)) (awaited_of (out_of.Outcome id)) reply }
    ensures gives { GivesTo (view_out (out_of.Outcome id)) (awaited_of (out_of.Outcome id)) reply (view_of result) }
    ensures next { IfNext result (λ ready. ComesNext (awaited_of (out_of.Outcome id)) reply (name_ready ready)) }
    ensures kept { (shards : ℕ) → IfNext result (IsReadyOf shards) }
{
    match reply {
        Reply::Coordinator(CoordinatorReply::Outcome(outcome)) => told(id, outcome),
        _ => unreachable!(),
    }
}

fn give_flush_to_outcome(id: WriteId, decided: Decided, reply: Reply) -> Progress<Ready, WriteEnd>
    requires fits { Fits 0 (view_out (out_of.FlushToOutcome id decided)) (awaited_of (out_of.FlushToOutcome id decided)) reply }
    ensures gives { GivesTo (view_out (out_of.FlushToOutcome id decided)) (awaited_of (out_of.FlushToOutcome id decided)) reply (view_of result) }
    ensures next { IfNext result (λ ready. ComesNext (awaited_of (out_of.FlushToOutcome id decided)) reply (name_ready ready)) }
    ensures kept { (shards : ℕ) → IfNext result (IsReadyOf shards) }
{
    match reply {
        Reply::Coordinator(CoordinatorReply::Flush(_answer)) => Progress::Next(Ready::Outcome(
            id, decided,
        )),
        _ => unreachable!(),
    }
}

fn give_abort(leaving: Leaving, reply: Reply) -> Progress<Ready, WriteEnd>
    requires fits { Fits 0 (view_out (out_of.Abort leaving)) (awaited_of (out_of.Abort leaving)) reply }
    ensures gives { GivesTo (view_out (out_of.Abort leaving)) (awaited_of (out_of.Abort leaving)) reply (view_of result) }
    ensures kept { (shards : ℕ) → IfNext result (IsReadyOf shards) }
{
    match reply {
        Reply::Coordinator(CoordinatorReply::Abort(answer)) => aborted(leaving, answer),
        _ => unreachable!(),
    }
}

fn give_inquire(leaving: Leaving, reply: Reply) -> Progress<Ready, WriteEnd>
    requires fits { Fits 0 (view_out (out_of.Inquire leaving)) (awaited_of (out_of.Inquire leaving)) reply }
    ensures gives { GivesTo (view_out (out_of.Inquire leaving)) (awaited_of (out_of.Inquire leaving)) reply (view_of result) }
    ensures kept { (shards : ℕ) → IfNext result (IsReadyOf shards) }
{
    match reply {
        Reply::Coordinator(CoordinatorReply::Inquire(answer)) => inquired(leaving, answer),
        _ => unreachable!(),
    }
}

fn give_drop_write(leaving: Leaving, reply: Reply) -> Progress<Ready, WriteEnd>
    requires fits { Fits 0 (view_out (out_of.DropWrite leaving)) (awaited_of (out_of.DropWrite leaving)) reply }
    ensures gives { GivesTo (view_out (out_of.DropWrite leaving)) (awaited_of (out_of.DropWrite leaving)) reply (view_of result) }
    ensures kept { (shards : ℕ) → IfNext result (IsReadyOf shards) }
{
    match reply {
        Reply::Shard(ShardReply::DropWrite(verdict, _)) => dropped(leaving, verdict),
        _ => unreachable!(),
    }
}

/// What a reply makes of it.
pub(crate) fn give(
    alloc: Global,
    shards: Shards,
    out: Out,
    reply: Reply,
) -> Progress<Ready, WriteEnd>
    requires fits { Fits shards (view_out out) (awaited_of out) reply }
    requires kept { IsOutOf shards out }
    ensures gives { GivesTo (view_out out) (awaited_of out) reply (view_of result) }
    ensures next { IfNext result (λ ready. ComesNext (awaited_of out) reply (name_ready ready)) }
    ensures kept { IfNext result (IsReadyOf shards) }
{
    match out {
        Out::Begin(load) => give_begin(load, reply),
        Out::CatchUp(preparing, call) => Progress::Next(caught_up(preparing, call, reply)),
        Out::Prepare(asked, is_again) => give_prepare(asked, is_again, reply),
        Out::FlushToPrepare(preparing) => give_flush_to_prepare(preparing, reply),
        Out::Vote(voting) => give_vote(voting, reply),
        Out::FlushToVote(voting, ticket) => give_flush_to_vote(voting, ticket, reply),
        Out::Decide(id, is_again) => give_decide(alloc, shards, id, is_again, reply),
        Out::FlushToDecide(ballot) => give_flush_to_decide(alloc, ballot, reply),
        Out::Outcome(id) => give_outcome(id, reply),
        Out::FlushToOutcome(id, decided) => give_flush_to_outcome(id, decided, reply),
        Out::Abort(leaving) => give_abort(leaving, reply),
        Out::Inquire(leaving) => give_inquire(leaving, reply),
        Out::DropWrite(leaving) => give_drop_write(leaving, reply),
    }
}
