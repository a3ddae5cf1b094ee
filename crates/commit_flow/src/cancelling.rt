// A write is cancelled.
ghost use Rattle.std.specs.Prelude.{◌≡◌, ℕ, false};
ghost use Rattle.calls.specs.Flows.{IfNext};
ghost use Rattle.commit_flow.specs.Cancelling.{Cancels};
ghost use Rattle.commit_flow.specs.Kept.{IsReadyOf};
ghost use Rattle.commit_flow.specs.Views.{view_of, view_ready};
ghost use Rattle.commit_flow.specs.declared.phase.Ready.TheVariants as ready_of;

use crate::ballot::Ballot;
use crate::deciding::go_out_voted;
use crate::end::WriteEnd;
use crate::load::Load;
use crate::phase::{Preparing, Ready, Voting};
use crate::voting::go_out;
use calls::Progress;
use decisions::Ticket;
use std::alloc::Global;

fn cancel_unbegun(load: Load) -> Progress<Ready, WriteEnd>
    ensures { result ≡ Progress.Ended WriteEnd.Cancelled }
{
    load.leave();
    Progress::Ended(WriteEnd::Cancelled)
}

fn cancel_preparing(preparing: Preparing) -> Progress<Ready, WriteEnd>
    ensures cancels { Cancels (view_ready (ready_of.Prepare preparing false)) (view_of result) }
    ensures kept { IfNext result (IsReadyOf preparing.load.shards) }
{
    let Preparing {
        intent,
        load,
        shard: _,
    } = preparing;
    Progress::Next(go_out(intent, load, None, None))
}

fn cancel_voting(voting: Voting, ticket: Ticket) -> Progress<Ready, WriteEnd>
    ensures cancels { Cancels (view_ready (ready_of.Vote voting ticket)) (view_of result) }
    ensures kept { IfNext result (IsReadyOf voting.load.shards) }
{
    let Voting {
        intent,
        load,
        shard,
    } = voting;
    Progress::Next(go_out(intent, load, Some((shard, ticket)), None))
}

fn cancel_ballot(alloc: Global, ballot: Ballot) -> Progress<Ready, WriteEnd>
    ensures cancels { Cancels (view_ready (ready_of.FlushToDecide ballot)) (view_of result) }
    ensures kept { IfNext result (IsReadyOf ballot.shards) }
{
    let (_shards, intent, votes) = ballot.into_parts();
    Progress::Next(go_out_voted(alloc, None, intent, votes))
}

/// Takes it out before its decision.
pub(crate) fn cancel(alloc: Global, ready: Ready) -> Progress<Ready, WriteEnd>
    ensures cancels { Cancels (view_ready ready) (view_of result) }
    ensures kept { (shards : ℕ) → IsReadyOf shards ready → IfNext result (IsReadyOf shards) }
{
    match ready {
        Ready::Begin(_, load) => cancel_unbegun(load),
        Ready::CatchUp(preparing, _) => cancel_preparing(preparing),
        Ready::Prepare(preparing, _) => cancel_preparing(preparing),
        Ready::FlushToPrepare(preparing) => cancel_preparing(preparing),
        Ready::Vote(voting, ticket) => cancel_voting(voting, ticket),
        Ready::FlushToVote(voting, ticket) => cancel_voting(voting, ticket),
        Ready::Decide(ballot, _) => cancel_ballot(alloc, ballot),
        Ready::FlushToDecide(ballot) => cancel_ballot(alloc, ballot),
        Ready::Outcome(id, decided) => Progress::Next(Ready::Outcome(id, decided)),
        Ready::FlushToOutcome(id, decided) => Progress::Next(Ready::FlushToOutcome(id, decided)),
        Ready::Abort(intent, leaving) => Progress::Next(Ready::Abort(intent, leaving)),
        Ready::Inquire(leaving) => Progress::Next(Ready::Inquire(leaving)),
        Ready::DropWrite(verdict, leaving, shard, held) => {
            Progress::Next(Ready::DropWrite(verdict, leaving, shard, held))
        }
    }
}
