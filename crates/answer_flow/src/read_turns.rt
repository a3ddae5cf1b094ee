// The turns of a read: its next call, and what the reply makes of it.
ghost use Rattle.std.specs.Prelude.{◌≡◌};
ghost use Rattle.calls.specs.Flows.{IfNext};
ghost use Rattle.calls.specs.Names.{name_of as name_of_call};
ghost use Rattle.names.specs.declared.call_name.CallName.TheVariants as names;
ghost use Rattle.answer_flow.specs.Reading.{Asks, Fits, GivesTo};
ghost use Rattle.answer_flow.specs.ReadViews.{IsNext, IsOutOf, IsReadyOf, awaited_of, name_ready, view_of, view_out, view_ready};
ghost use Rattle.answer_flow.specs.declared.read_phase.Out.TheVariants as out_of;
ghost use Rattle.answer_flow.specs.declared.read_phase.Ready.TheVariants as ready_of;

use crate::read_phase::{AskedRead, Gathered, Out, ReadEnd, Ready};
use crate::reading::{caught_up, flushed, have_read, shard_to_ask, told};
use calls::{
    Boxed, CoordinatorCall, CoordinatorReply, NodeCall, Progress, Reply, ShardCall, ShardReply,
};
use catch_up::CatchUp;
use tuples::Tupleset;

fn call_of_catch_up(
    asked: &AskedRead,
    gathered: Gathered,
    set: Boxed<Tupleset>,
    catch_up: CatchUp,
) -> (NodeCall, Out)
    requires { IsReadyOf asked.now.shards asked.now.sets.items (ready_of.CatchUp gathered set catch_up) }
    ensures name { name_of_call result.0 ≡ catch_up.next }
    ensures asks { Asks asked.now.shards asked.now.sets.items (view_ready (ready_of.CatchUp gathered set catch_up)) result.0 (view_out result.1) }
    ensures kept { IsOutOf asked.now.shards asked.now.sets.items result.1 }
{
    let _asked = asked;
    let (call, awaited) = catch_up.next_call();
    (call, Out::CatchUp(gathered, set, awaited))
}

fn call_of_read(asked: &AskedRead, gathered: Gathered, set: Boxed<Tupleset>) -> (NodeCall, Out)
    requires { IsNext asked.now.shards asked.now.sets.items gathered set }
    ensures name { name_of_call result.0 ≡ names.Read }
    ensures asks { Asks asked.now.shards asked.now.sets.items (view_ready (ready_of.Read gathered set)) result.0 (view_out result.1) }
    ensures kept { IsOutOf asked.now.shards asked.now.sets.items result.1 }
{
    let shard = shard_to_ask(&set, asked.shards, gathered.below);
    let call = ShardCall::Read(gathered.place, set);
    (NodeCall::Shard(shard, call), Out::Read(gathered))
}

/// Its next call, and what stays here while that is out.
pub(crate) fn next(asked: &AskedRead, ready: Ready) -> (NodeCall, Out)
    requires { IsReadyOf asked.now.shards asked.now.sets.items ready }
    ensures name { name_of_call result.0 ≡ name_ready ready }
    ensures asks { Asks asked.now.shards asked.now.sets.items (view_ready ready) result.0 (view_out result.1) }
    ensures kept { IsOutOf asked.now.shards asked.now.sets.items result.1 }
{
    match ready {
        Ready::Heads => (NodeCall::Coordinator(CoordinatorCall::Heads), Out::Heads),
        Ready::Flush => (NodeCall::Coordinator(CoordinatorCall::Flush), Out::Flush),
        Ready::CatchUp(gathered, set, catch_up) => {
            call_of_catch_up(asked, gathered, set, catch_up)
        }
        Ready::Read(gathered, set) => call_of_read(asked, gathered, set),
    }
}

/// What a reply makes of it.
pub(crate) fn give(asked: &AskedRead, out: Out, reply: Reply) -> Progress<Ready, ReadEnd>
    requires kept { IsOutOf asked.now.shards asked.now.sets.items out }
    requires fits { Fits asked.now.sets.items (view_out out) (awaited_of out) reply }
    ensures gives { GivesTo asked.now.shards asked.now.freshness asked.now.sets.items (view_out out) (awaited_of out) reply (view_of result) }
    ensures kept { IfNext result (IsReadyOf asked.now.shards asked.now.sets.items) }
{
    match out {
        Out::Heads => match reply {
            Reply::Coordinator(CoordinatorReply::Heads(answer)) => told(asked, answer),
            _ => unreachable!(),
        },
        Out::Flush => match reply {
            Reply::Coordinator(CoordinatorReply::Flush(answer)) => flushed(asked, answer),
            _ => unreachable!(),
        },
        Out::CatchUp(gathered, set, call) => caught_up(asked, gathered, set, call, reply),
        Out::Read(gathered) => match reply {
            Reply::Shard(ShardReply::Read(set, answer)) => {
                have_read(asked, gathered, set, answer)
            }
            _ => unreachable!(),
        },
    }
}
