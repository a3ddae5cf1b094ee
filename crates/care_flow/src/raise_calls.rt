// The next call of a raise.
ghost use Rattle.std.specs.Prelude.{◌≡◌, None};
ghost use Rattle.calls.specs.Asking.{MayBeMade};
ghost use Rattle.calls.specs.Names.{name_of as name_of_call};
ghost use Rattle.names.specs.declared.call_name.CallName.TheVariants as names;
ghost use Rattle.care_flow.specs.Raising.{Asks, catch_up as catching, raise as raising};
ghost use Rattle.care_flow.specs.RaisePhases.{IsOutOf, IsReadyOf, IsRoundOf, held_ready, name_ready, step_ready, view_out};

use crate::gathering::{Gathered, Gathering};
use crate::raise_phase::{Out, Ready};
use calls::{CoordinatorCall, NodeCall, ShardCall};
use catch_up::CatchUp;
use tuples::Shards;

fn catch_up(gathering: Gathering, catch_up: CatchUp) -> (NodeCall, Out)
    requires round { IsRoundOf gathering.shards gathering.place gathering }
    requires own { (catch_up.shard ≡ gathering.next) × (catch_up.to ≡ gathering.heads.kept) }
    ensures asks { Asks gathering.shards gathering.place (held_ready (Ready.CatchUp gathering catch_up)) (catching gathering.next None) result.0 (view_out result.1) }
    ensures owed { MayBeMade gathering.shards result.0 }
    ensures name { name_of_call result.0 ≡ catch_up.next }
    ensures kept { IsOutOf gathering.shards gathering.place result.1 }
{
    let (call, out) = catch_up.next_call();
    (call, Out::CatchUp(gathering, out))
}

fn raise(gathered: Gathered, is_again: bool) -> (NodeCall, Out)
    ensures asks { Asks gathered.shards gathered.place (held_ready (Ready.Raise gathered is_again)) (raising is_again) result.0 (view_out result.1) }
    ensures owed { MayBeMade gathered.shards result.0 }
    ensures name { name_of_call result.0 ≡ names.Raise }
    ensures kept { IsOutOf gathered.shards gathered.place result.1 }
{
    let (place, settled, heads) = gathered.into_parts();
    let call = NodeCall::Coordinator(CoordinatorCall::Raise(place, settled));
    (call, Out::Raise(heads, is_again))
}

fn flush_coordinator() -> NodeCall
    ensures { result ≡ NodeCall.Coordinator CoordinatorCall.Flush }
{
    NodeCall::Coordinator(CoordinatorCall::Flush)
}

/// The call of a phase, and the phase while it is out.
pub(crate) fn next(shards: Shards, place: u64, ready: Ready) -> (NodeCall, Out)
    requires { IsReadyOf shards place ready }
    ensures asks { Asks shards place (held_ready ready) (step_ready ready) result.0 (view_out result.1) }
    ensures owed { MayBeMade shards result.0 }
    ensures name { name_of_call result.0 ≡ name_ready ready }
    ensures kept { IsOutOf shards place result.1 }
{
    let _shards = shards;
    let _place = place;
    match ready {
        Ready::Ask => (NodeCall::Coordinator(CoordinatorCall::Heads), Out::Ask),
        Ready::FlushToAsk => (flush_coordinator(), Out::FlushToAsk),
        Ready::CatchUp(gathering, progress) => catch_up(gathering, progress),
        Ready::Flush(gathering) => {
            let call = NodeCall::Shard(gathering.next(), ShardCall::Flush);
            (call, Out::Flush(gathering))
        }
        Ready::Settle(gathering) => {
            let call = NodeCall::Shard(gathering.next(), ShardCall::Settle);
            (call, Out::Settle(gathering))
        }
        Ready::Raise(gathered, is_again) => raise(gathered, is_again),
        Ready::FlushToRaise(gathered) => (flush_coordinator(), Out::FlushToRaise(gathered)),
        Ready::FlushRaised(heads) => (flush_coordinator(), Out::FlushRaised(heads)),
    }
}
