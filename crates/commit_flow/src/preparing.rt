// The shards prepare their parts, one after another.
ghost use Rattle.std.specs.Prelude.{◌≡◌, ◌≤◌, ◌<◌, ◌+◌, [], Some, None, true, false, IfOk};
ghost use Rattle.std.specs.Vec.{vec_len};
ghost use Rattle.tuples.specs.Parts.{takes_part};
ghost use Rattle.calls.specs.Flows.{IfNext};
ghost use Rattle.catch_up.specs.CatchingUp.{Fits as FitsCatchUp};
ghost use Rattle.commit_flow.specs.Answering.{BeginGives, CatchUpGives, FlushGives, GoesOn, PrepareGives};
ghost use Rattle.commit_flow.specs.Kept.{IsFresh, IsReadyOf};
ghost use Rattle.commit_flow.specs.Participants.{ArePartsOf, AreTicketsFor, participants_below, ticket_shards};
ghost use Rattle.commit_flow.specs.Views.{holds_onward, tickets_of, view_of, view_out, view_ready};
ghost use Rattle.commit_flow.specs.declared.phase.Out.TheVariants.{Begin as begin_out, CatchUp as catch_up_out, FlushToPrepare as flush_out, Prepare as prepare_out};

use crate::end::WriteEnd;
use crate::load::Load;
use crate::participants::next_shard;
use crate::phase::{AskedPrepare, Preparing, Ready};
use crate::voting::{go_out, vote_next};
use calls::{Progress, Reply};
use catch_up::{CatchUp, CatchUpCall};
use decisions::{Intent, Ticket};
use tuples::Refusal;

/// The next participant prepares its part; after the last one they vote.
pub(crate) fn prepare_next(intent: Intent, load: Load, from: u8) -> Ready
    requires few { vec_len load.tickets ≤ from }
    requires within { from ≤ load.shards }
    requires no_votes { vec_len load.votes ≡ 0 }
    requires none { load.votes.items ≡ [] }
    requires asked { ticket_shards load.tickets.items ≡ participants_below load.shards intent.write from }
    requires own { AreTicketsFor intent.write.id load.tickets.items }
    ensures goes { GoesOn (holds_onward intent.write.id (Some intent) (tickets_of load) load.votes.items None) (view_ready result) }
    ensures kept { IsReadyOf load.shards result }
{
    match next_shard(&intent, load.shards, from) {
        Some(shard) => {
            let catch_up = CatchUp::new(shard, intent.kept());
            let preparing = Preparing {
                intent,
                load,
                shard,
            };
            Ready::CatchUp(preparing, catch_up)
        }
        None => vote_next(intent, load),
    }
}

/// The coordinator has begun the write, or not.
pub(crate) fn begun(load: Load, answer: Result<Intent, Refusal>) -> Progress<Ready, WriteEnd>
    requires { IsFresh load.shards load }
    ensures gives { BeginGives (view_out (begin_out load)) answer (view_of result) }
    ensures kept { IfNext result (IsReadyOf load.shards) }
{
    match answer {
        Ok(intent) => Progress::Next(prepare_next(intent, load, 0)),
        Err(refusal) => {
            load.leave();
            Progress::Ended(WriteEnd::Refused(refusal))
        }
    }
}

/// A call of the catch-up was answered.
pub(crate) fn caught_up(preparing: Preparing, call: CatchUpCall, reply: Reply) -> Ready
    requires fits { FitsCatchUp call.awaited reply }
    requires shard { call.held.shard ≡ preparing.shard }
    requires to { call.held.to ≡ preparing.intent.kept }
    ensures gives { CatchUpGives (view_out (catch_up_out preparing call)) call.awaited reply (view_ready result) }
    ensures kept { IsReadyOf preparing.load.shards result }
{
    match call.give(reply) {
        catch_up::Progress::Next(catch_up) => Ready::CatchUp(preparing, catch_up),
        catch_up::Progress::There => Ready::Prepare(preparing, false),
        catch_up::Progress::Refused(refusal) => refused(preparing, refusal),
    }
}

fn refused(preparing: Preparing, refusal: Refusal) -> Ready
    ensures gives { FlushGives (view_out (flush_out preparing)) true (Err refusal) (view_ready result) }
    ensures kept { IsReadyOf preparing.load.shards result }
{
    let Preparing {
        intent,
        load,
        shard: _,
    } = preparing;
    go_out(intent, load, None, Some(refusal))
}

/// The shard has staged its part, or not; a full one is flushed once.
pub(crate) fn prepared(
    asked: AskedPrepare,
    is_again: bool,
    intent: Intent,
    answer: Result<Ticket, Refusal>,
) -> Ready
    requires own { intent.write.id ≡ asked.id }
    requires takes { takes_part asked.load.shards asked.shard intent.write ≡ true }
    requires parts { ArePartsOf asked.participants asked.load.shards intent.write }
    requires ticket { IfOk answer (λ t. t.id ≡ intent.write.id) }
    ensures gives { PrepareGives (view_out (prepare_out asked is_again)) asked.shard is_again intent answer (view_ready result) }
    ensures kept { IsReadyOf asked.load.shards result }
{
    let AskedPrepare {
        id: _,
        mut load,
        shard,
        participants: _,
    } = asked;
    match answer {
        Ok(ticket) => {
            load.add_ticket(shard, ticket);
            prepare_next(intent, load, shard + 1)
        }
        Err(refusal) => {
            let preparing = Preparing {
                intent,
                load,
                shard,
            };
            if refusal == Refusal::Full && !is_again {
                return Ready::FlushToPrepare(preparing);
            }
            refused(preparing, refusal)
        }
    }
}

/// The shard was flushed, and is asked again.
pub(crate) fn flushed_to_prepare(preparing: Preparing, answer: Result<(), Refusal>) -> Ready
    ensures gives { FlushGives (view_out (flush_out preparing)) true answer (view_ready result) }
    ensures kept { IsReadyOf preparing.load.shards result }
{
    match answer {
        Ok(()) => Ready::Prepare(preparing, true),
        Err(refusal) => refused(preparing, refusal),
    }
}
