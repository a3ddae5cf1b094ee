// One turn of a flow: its next call, at the node that the call names, and the reply.
ghost use Rattle.std.specs.Prelude.{◌↔◌, IsTrue};
ghost use Rattle.calls.specs.Flows.{IfNext};
ghost use Rattle.locked.specs.Turning.{AreBehind, HandsWhatIsSeen, TellsBehind, Turns};

use crate::{Caller, Gate, Store};
use calls::{Flow, Progress, Reply, ShardReply, Told};
use device::Device;
use shard::ReadReply;
use sides::Room;
use std::sync::Wait;
use tuples::Refusal;

// Whether these are no rows, since the shard has not learned so far.
fn are_behind(rows: &Result<ReadReply, Refusal>) -> bool
    ensures { IsTrue result ↔ AreBehind rows.now }
{
    match rows {
        Ok(rows) => matches!(rows, ReadReply::Behind),
        Err(_) => false,
    }
}

// Whether a shard that was to read has not learned so far.
fn is_behind(reply: &Reply) -> bool
    ensures { IsTrue result ↔ TellsBehind reply.now }
{
    let Reply::Shard(answer) = reply else {
        return false;
    };
    match answer {
        ShardReply::Read(_, rows) => are_behind(rows),
        ShardReply::ReadForCheck(_, _, rows) => are_behind(rows),
        _ => false,
    }
}

impl<D: Device, B: Room, G: Gate> Store<D, B, G> {
    /// Makes the next call of a flow, and gives it the reply. Whether that is of a shard that has not learned so far as it was to read. Others may call
    /// between two turns.
    pub(crate) fn turn<F: Flow, R: Wait>(
        &self,
        rt: &R,
        caller: &mut Caller<B>,
        told: &mut Told,
        flow: F,
    ) -> (Progress<F, F::End>, bool)
        requires of { F.is_of B.shards flow }
        requires hands { B.rests → HandsWhatIsSeen F.asks caller.old.pass flow }
        ensures turns { Turns F.asks B.rests F.gives B.shards caller.old.pass caller.new.pass caller.old.tried caller.new.tried told.old told.new flow result.0 }
        ensures of { IfNext result.0 (F.is_of B.shards) }
    {
        let (call, out) = flow.next_call();
        let reply = self.make(rt, caller, told, call);
        let is_behind = is_behind(&reply);
        (F::give(out, reply), is_behind)
    }
}
