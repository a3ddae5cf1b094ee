// The turns of a check: its next call, and what the reply makes of it.
ghost use Rattle.std.specs.Prelude.{◌≡◌};
ghost use Rattle.calls.specs.Flows.{IfNext};
ghost use Rattle.calls.specs.Names.{name_of as name_of_call};
ghost use Rattle.names.specs.declared.call_name.CallName.TheVariants as names;
ghost use Rattle.answer_flow.specs.Checking.{Asks, Fits, GivesTo};
ghost use Rattle.answer_flow.specs.CheckViews.{IsOutOf, IsReadyOf, awaited_of, name_ready, view_of, view_out, view_ready};
ghost use Rattle.answer_flow.specs.declared.check_phase.Out.TheVariants as out_of;
ghost use Rattle.answer_flow.specs.declared.check_phase.Ready.TheVariants as ready_of;

use crate::check_phase::{AskedCheck, CheckEnd, Out, Question, Ready};
use crate::checking::{caught_up, flushed, have_read, shard_to_ask, told};
use crate::walk::Walk;
use calls::{CoordinatorCall, CoordinatorReply, NodeCall, Progress, Reply, ShardCall, ShardReply};
use catch_up::CatchUp;

fn call_of_catch_up(
    asked: &AskedCheck,
    place: u64,
    walk: Walk,
    catch_up: CatchUp,
) -> (NodeCall, Out)
    requires { IsReadyOf asked.now.shards asked.now.user (ready_of.CatchUp place walk catch_up) }
    ensures name { name_of_call result.0 ≡ catch_up.next }
    ensures asks { Asks asked.now.shards asked.now.user (view_ready (ready_of.CatchUp place walk catch_up)) result.0 (view_out result.1) }
    ensures kept { IsOutOf asked.now.shards result.1 }
{
    let _asked = asked;
    let (call, awaited) = catch_up.next_call();
    (call, Out::CatchUp(place, walk, awaited))
}

fn call_of_read(asked: &AskedCheck, place: u64, walk: Walk, question: Question) -> (NodeCall, Out)
    requires { IsReadyOf asked.now.shards asked.now.user (ready_of.Read place walk question) }
    ensures name { name_of_call result.0 ≡ names.Read }
    ensures asks { Asks asked.now.shards asked.now.user (view_ready (ready_of.Read place walk question)) result.0 (view_out result.1) }
    ensures kept { IsOutOf asked.now.shards result.1 }
{
    let Question { userset, user } = question;
    let shard = shard_to_ask(userset.get(), asked.shards);
    let call = ShardCall::ReadForCheck(place, userset, user);
    (NodeCall::Shard(shard, call), Out::Read(place, walk))
}

/// Its next call, and what stays here while that is out.
pub(crate) fn next(asked: &AskedCheck, ready: Ready) -> (NodeCall, Out)
    requires { IsReadyOf asked.now.shards asked.now.user ready }
    ensures name { name_of_call result.0 ≡ name_ready ready }
    ensures asks { Asks asked.now.shards asked.now.user (view_ready ready) result.0 (view_out result.1) }
    ensures kept { IsOutOf asked.now.shards result.1 }
{
    match ready {
        Ready::Heads(walk) => (
            NodeCall::Coordinator(CoordinatorCall::Heads),
            Out::Heads(walk),
        ),
        Ready::Flush(walk) => (
            NodeCall::Coordinator(CoordinatorCall::Flush),
            Out::Flush(walk),
        ),
        Ready::CatchUp(place, walk, catch_up) => call_of_catch_up(asked, place, walk, catch_up),
        Ready::Read(place, walk, question) => call_of_read(asked, place, walk, question),
    }
}

/// What a reply makes of it.
pub(crate) fn give(asked: &AskedCheck, out: Out, reply: Reply) -> Progress<Ready, CheckEnd>
    requires kept { IsOutOf asked.now.shards out }
    requires fits { Fits (awaited_of out) reply }
    ensures gives { GivesTo asked.now.freshness asked.now.user (view_out out) (awaited_of out) reply (view_of result) }
    ensures kept { IfNext result (IsReadyOf asked.now.shards asked.now.user) }
{
    match out {
        Out::Heads(walk) => match reply {
            Reply::Coordinator(CoordinatorReply::Heads(answer)) => told(asked, walk, answer),
            _ => unreachable!(),
        },
        Out::Flush(walk) => match reply {
            Reply::Coordinator(CoordinatorReply::Flush(answer)) => flushed(asked, walk, answer),
            _ => unreachable!(),
        },
        Out::CatchUp(place, walk, call) => caught_up(asked, place, walk, call, reply),
        Out::Read(place, walk) => match reply {
            Reply::Shard(ShardReply::ReadForCheck(userset, user, answer)) => {
                drop(userset);
                drop(user);
                have_read(asked, place, walk, answer)
            }
            _ => unreachable!(),
        },
    }
}
