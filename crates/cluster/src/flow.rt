// The flows that run.
ghost use Rattle.std.specs.Prelude.{◌≡◌};
ghost use Rattle.calls.specs.Flows.{IfNext};
ghost use Rattle.cluster.specs.Cancels.{Cancels};
ghost use Rattle.cluster.specs.Flows.{IsNamed, IsOf, is_cancelled as is_cancelled_flow};
ghost use Rattle.cluster.specs.Steps.{Makes};

use crate::What;
use crate::calling::turn;
use crate::ending::{told_of_write, unless};
use answer_flow::{CheckFlow, ReadFlow, WatchFlow};
use calls::{Node, Progress, Told};
use care_flow::CareFlow;
use commit_flow::WriteFlow;
use device::Device;
use names::CallName;
use tuples::Shards;

/// A write on its way, and whether it was cancelled: then nothing more is reported of it.
pub struct Writing {
    pub(crate) flow: WriteFlow,
    pub(crate) is_cancelled: bool,
}

/// A flow that runs: it serves a request, or cares for the nodes.
#[derive(Drop)]
pub enum Flow {
    Write(Writing),
    Read(ReadFlow),
    Check(CheckFlow),
    Watch(WatchFlow),
    Care(CareFlow),
}

impl Writing {
    /// Its turn; it stays cancelled, or not.
    pub(crate) fn turn<D: Device>(
        self,
        shards: Shards,
        nodes: &mut [Node<D>],
        told: &mut Told,
    ) -> Progress<Flow, Option<What>>
        requires { IsOf shards (Flow.Write self) }
        ensures turns { Makes D.state D.honest D.moment D.left_since shards nodes.old (Flow.Write self) nodes.new result }
        ensures of { IfNext result (IsOf shards) }
    {
        let Writing { flow, is_cancelled } = self;
        match turn(shards, nodes, told, flow) {
            Progress::Next(flow) => Progress::Next(Flow::Write(Writing { flow, is_cancelled })),
            Progress::Ended(end) => Progress::Ended(unless(is_cancelled, told_of_write(end))),
        }
    }

    /// Cancels it: it goes out, or on to its end.
    fn cancel(self) -> Option<Flow>
        ensures { Cancels (Flow.Write self) result }
    {
        let Writing {
            flow,
            is_cancelled: _,
        } = self;
        match flow.cancel() {
            Progress::Next(flow) => Some(Flow::Write(Writing {
                flow,
                is_cancelled: true,
            })),
            Progress::Ended(_) => None,
        }
    }
}

// A store that is dropped spends what its writes hold: what is prepared stays in doubt, as after a stop.
impl Drop for Writing {
    fn drop(self) {
        let Writing {
            flow,
            is_cancelled: _,
        } = self;
        flow.leave();
    }
}

impl Flow {
    /// The name of its next call.
    pub(crate) fn next_name(&self) -> CallName
        ensures { IsNamed self.now result }
    {
        match self {
            Flow::Write(writing) => calls::Flow::next_name(&writing.flow),
            Flow::Read(flow) => calls::Flow::next_name(flow),
            Flow::Check(flow) => calls::Flow::next_name(flow),
            Flow::Watch(flow) => calls::Flow::next_name(flow),
            Flow::Care(flow) => calls::Flow::next_name(flow),
        }
    }

    /// Whether nothing more is reported of it.
    pub(crate) fn is_cancelled(&self) -> bool
        ensures { result ≡ is_cancelled_flow self.now }
    {
        match self {
            Flow::Write(writing) => writing.is_cancelled,
            Flow::Read(_) | Flow::Check(_) | Flow::Watch(_) | Flow::Care(_) => false,
        }
    }

    /// Cancels it. A begun write goes on, on its way out or, if it is decided, to its end; none is left of any other flow.
    pub(crate) fn cancel(self) -> Option<Flow>
        ensures { Cancels self result }
    {
        match self {
            Flow::Write(writing) => writing.cancel(),
            Flow::Read(_) | Flow::Check(_) | Flow::Watch(_) | Flow::Care(_) => None,
        }
    }
}
