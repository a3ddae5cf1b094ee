// The next call of each phase.
ghost use Rattle.std.specs.Prelude.{◌≡◌};
ghost use Rattle.calls.specs.Names.{name_of as name_of_call};
ghost use Rattle.names.specs.declared.call_name.CallName.TheVariants as names;
ghost use Rattle.commit_flow.specs.Kept.{IsOutOf, IsReadyOf};
ghost use Rattle.commit_flow.specs.Views.{name_ready, view_out, view_ready};
ghost use Rattle.commit_flow.specs.Writing.{Asks};
ghost use Rattle.commit_flow.specs.declared.phase.Ready.TheVariants.{CatchUp as ready_catch_up, Decide as ready_decide, Prepare as ready_prepare, Vote as ready_vote};

use crate::ballot::Ballot;
use crate::phase::{AskedPrepare, Out, Preparing, Ready, Voting};
use calls::{CoordinatorCall, NodeCall, ShardCall};
use catch_up::CatchUp;
use decisions::Ticket;
use names::CallName;
use tuples::Shards;

fn catch_up(preparing: Preparing, catch_up: CatchUp) -> (NodeCall, Out)
    requires shard { catch_up.shard ≡ preparing.shard }
    requires to { catch_up.to ≡ preparing.intent.kept }
    ensures name { name_of_call result.0 ≡ catch_up.next }
    ensures asks { Asks preparing.load.shards (view_ready (ready_catch_up preparing catch_up)) result.0 (view_out result.1) }
    ensures kept { IsOutOf preparing.load.shards result.1 }
{
    let (call, awaited) = catch_up.next_call();
    (call, Out::CatchUp(preparing, awaited))
}

fn prepare(preparing: Preparing, is_again: bool) -> (NodeCall, Out)
    ensures name { name_of_call result.0 ≡ names.StagePrepare }
    ensures asks { Asks preparing.load.shards (view_ready (ready_prepare preparing is_again)) result.0 (view_out result.1) }
    ensures kept { IsOutOf preparing.load.shards result.1 }
{
    let Preparing {
        intent,
        load,
        shard,
    } = preparing;
    let id = intent.id();
    let participants = intent.participants(load.shards);
    let asked = AskedPrepare {
        id,
        load,
        shard,
        participants,
    };
    (
        NodeCall::Shard(shard, ShardCall::StagePrepare(intent)),
        Out::Prepare(asked, is_again),
    )
}

fn vote(voting: Voting, ticket: Ticket) -> (NodeCall, Out)
    requires { ticket.id ≡ voting.intent.write.id }
    ensures name { name_of_call result.0 ≡ names.Vote }
    ensures asks { Asks voting.load.shards (view_ready (ready_vote voting ticket)) result.0 (view_out result.1) }
    ensures kept { IsOutOf voting.load.shards result.1 }
{
    let call = NodeCall::Shard(voting.shard, ShardCall::Vote(ticket));
    (call, Out::Vote(voting))
}

fn decide(ballot: Ballot, is_again: bool) -> (NodeCall, Out)
    ensures name { name_of_call result.0 ≡ names.Decide }
    ensures asks { Asks ballot.shards (view_ready (ready_decide ballot is_again)) result.0 (view_out result.1) }
    ensures kept { IsOutOf ballot.shards result.1 }
{
    let (_shards, intent, votes) = ballot.into_parts();
    let id = intent.id();
    (
        NodeCall::Coordinator(CoordinatorCall::Decide(intent, votes)),
        Out::Decide(id, is_again),
    )
}

fn flush_shard(shard: u8, out: Out) -> (NodeCall, Out)
    ensures { (result.0 ≡ NodeCall.Shard shard ShardCall.Flush) × (result.1 ≡ out) }
{
    (NodeCall::Shard(shard, ShardCall::Flush), out)
}

fn ask_coordinator(call: CoordinatorCall, out: Out) -> (NodeCall, Out)
    ensures { (result.0 ≡ NodeCall.Coordinator call) × (result.1 ≡ out) }
{
    (NodeCall::Coordinator(call), out)
}

impl Ready {
    /// The name of the call of a phase.
    pub(crate) fn name(&self) -> CallName
        ensures { result ≡ name_ready self.now }
    {
        match self {
            Ready::Begin(_, _) => CallName::Begin,
            Ready::CatchUp(_, catch_up) => catch_up.next_name(),
            Ready::Prepare(_, _) => CallName::StagePrepare,
            Ready::Vote(_, _) => CallName::Vote,
            Ready::Decide(_, _) => CallName::Decide,
            Ready::Outcome(_, _) => CallName::Outcome,
            Ready::FlushToPrepare(_)
            | Ready::FlushToVote(_, _)
            | Ready::FlushToDecide(_)
            | Ready::FlushToOutcome(_, _) => CallName::Flush,
            Ready::Abort(_, _) => CallName::Abort,
            Ready::Inquire(_) => CallName::Inquire,
            Ready::DropWrite(_, _, _, _) => CallName::DropWrite,
        }
    }
}

/// The call of a phase, and the phase while it is out.
pub(crate) fn next(shards: Shards, ready: Ready) -> (NodeCall, Out)
    requires { IsReadyOf shards ready }
    ensures name { name_of_call result.0 ≡ name_ready ready }
    ensures asks { Asks shards (view_ready ready) result.0 (view_out result.1) }
    ensures kept { IsOutOf shards result.1 }
{
    let _shards = shards;
    match ready {
        Ready::Begin(write, load) => {
            ask_coordinator(CoordinatorCall::Begin(write), Out::Begin(load))
        }
        Ready::CatchUp(preparing, progress) => catch_up(preparing, progress),
        Ready::Prepare(preparing, is_again) => prepare(preparing, is_again),
        Ready::FlushToPrepare(preparing) => {
            flush_shard(preparing.shard, Out::FlushToPrepare(preparing))
        }
        Ready::Vote(voting, ticket) => vote(voting, ticket),
        Ready::FlushToVote(voting, ticket) => {
            flush_shard(voting.shard, Out::FlushToVote(voting, ticket))
        }
        Ready::Decide(ballot, is_again) => decide(ballot, is_again),
        Ready::FlushToDecide(ballot) => {
            ask_coordinator(CoordinatorCall::Flush, Out::FlushToDecide(ballot))
        }
        Ready::Outcome(id, decided) => {
            ask_coordinator(CoordinatorCall::Outcome(decided), Out::Outcome(id))
        }
        Ready::FlushToOutcome(id, decided) => {
            ask_coordinator(CoordinatorCall::Flush, Out::FlushToOutcome(id, decided))
        }
        Ready::Abort(intent, leaving) => {
            ask_coordinator(CoordinatorCall::Abort(intent), Out::Abort(leaving))
        }
        Ready::Inquire(leaving) => (
            NodeCall::Coordinator(CoordinatorCall::Inquire(leaving.id)),
            Out::Inquire(leaving),
        ),
        Ready::DropWrite(verdict, leaving, shard, held) => (
            NodeCall::Shard(shard, ShardCall::DropWrite(verdict, Some(held))),
            Out::DropWrite(leaving),
        ),
    }
}
