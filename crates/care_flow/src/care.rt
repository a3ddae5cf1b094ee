// Any care.
ghost use Rattle.std.specs.Prelude.{◌≡◌};
ghost use Rattle.care_flow.specs.Cares.{AsksCare, Awaits, IsThere, MakesCare, Names, begun, while_out};

use crate::collecting::{CollectCall, CollectFlow};
use crate::end::CareEnd;
use crate::flushing::{FlushCall, FlushFlow};
use crate::learning::{LearnCall, LearnFlow};
use crate::raising::{RaiseCall, RaiseFlow};
use crate::resolving::{ResolveCall, ResolveFlow};
use calls::{Flow, NodeCall, Progress, Reply};
use names::{CallName, Care};
use std::alloc::Global;
use tuples::Shards;

/// A care that waits for its next turn. It can be dropped between two calls, and nothing is lost by that.
#[derive(Drop)]
#[must_use]
pub enum CareFlow {
    /// A checkpoint too.
    Flush(FlushFlow),
    Learn(LearnFlow),
    Resolve(ResolveFlow),
    Raise(RaiseFlow),
    Collect(CollectFlow),
}

/// A call of it is out.
#[derive(Drop)]
#[must_use]
pub enum CareCall {
    Flush(FlushCall),
    Learn(LearnCall),
    Resolve(ResolveCall),
    Raise(RaiseCall),
    Collect(CollectCall),
}

impl CareFlow {
    /// A flow for this care, in a store of this many shards; allocates nothing.
    pub fn new(alloc: Global, shards: Shards, care: Care) -> CareFlow
        ensures { result ≡ begun shards care }
    {
        match care {
            Care::Flush(node) => CareFlow::Flush(FlushFlow::new(node, false)),
            Care::Checkpoint(node) => CareFlow::Flush(FlushFlow::new(node, true)),
            Care::Learn(shard) => CareFlow::Learn(LearnFlow::new(shard)),
            Care::Resolve(shard) => CareFlow::Resolve(ResolveFlow::new(alloc, shard)),
            Care::Raise(place) => CareFlow::Raise(RaiseFlow::new(alloc, shards, place)),
            Care::Collect(shard) => CareFlow::Collect(CollectFlow::new(shard)),
        }
    }
}

impl Flow for CareFlow {
    type Out = CareCall;

    type End = CareEnd;

    ghost named = { Names };

    ghost is_of = { IsThere };

    ghost is_of_out = { λ shards out. IsThere shards (while_out out) };

    ghost asks = { λ f call out. AsksCare f call (while_out out) };

    ghost awaits = { λ out reply. Awaits (while_out out) reply };

    ghost gives = { MakesCare };

    fn next_name(&self) -> CallName {
        match self {
            CareFlow::Flush(flow) => flow.next_name(),
            CareFlow::Learn(flow) => flow.next_name(),
            CareFlow::Resolve(flow) => flow.next_name(),
            CareFlow::Raise(flow) => flow.next_name(),
            CareFlow::Collect(flow) => flow.next_name(),
        }
    }

    fn next_call(self) -> (NodeCall, CareCall) {
        match self {
            CareFlow::Flush(flow) => {
                let (call, out) = flow.next_call();
                (call, CareCall::Flush(out))
            }
            CareFlow::Learn(flow) => {
                let (call, out) = flow.next_call();
                (call, CareCall::Learn(out))
            }
            CareFlow::Resolve(flow) => {
                let (call, out) = flow.next_call();
                (call, CareCall::Resolve(out))
            }
            CareFlow::Raise(flow) => {
                let (call, out) = flow.next_call();
                (call, CareCall::Raise(out))
            }
            CareFlow::Collect(flow) => {
                let (call, out) = flow.next_call();
                (call, CareCall::Collect(out))
            }
        }
    }

    fn give(out: CareCall, reply: Reply) -> Progress<CareFlow, CareEnd> {
        match out {
            CareCall::Flush(call) => Progress::Ended(call.give(reply)),
            CareCall::Learn(call) => match call.give(reply) {
                Progress::Next(flow) => Progress::Next(CareFlow::Learn(flow)),
                Progress::Ended(end) => Progress::Ended(end),
            },
            CareCall::Resolve(call) => match call.give(reply) {
                Progress::Next(flow) => Progress::Next(CareFlow::Resolve(flow)),
                Progress::Ended(end) => Progress::Ended(end),
            },
            CareCall::Raise(call) => match call.give(reply) {
                Progress::Next(flow) => Progress::Next(CareFlow::Raise(flow)),
                Progress::Ended(end) => Progress::Ended(end),
            },
            CareCall::Collect(call) => match call.give(reply) {
                Progress::Next(flow) => Progress::Next(CareFlow::Collect(flow)),
                Progress::Ended(end) => Progress::Ended(end),
            },
        }
    }
}
