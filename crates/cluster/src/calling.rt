// One turn of a flow: its next call, at the node that the call names, and the reply.
ghost use Rattle.calls.specs.Flows.{IfNext};
ghost use Rattle.cluster.specs.Flows.{IsOf};
ghost use Rattle.cluster.specs.Steps.{Makes};
ghost use Rattle.cluster.specs.Turns.{TurnsBy};

use crate::asking::ask_at;
use crate::ending::{told_of_care, told_of_check, told_of_read, told_of_watch};
use crate::{Flow, What};
use answer_flow::{CheckFlow, ReadFlow, WatchFlow};
use calls::{Node, Progress, Told};
use device::Device;
use tuples::Shards;

/// Makes the flow's next call, at the node that it names, and gives it the reply.
pub(crate) fn turn<F: calls::Flow, D: Device>(
    shards: Shards,
    nodes: &mut [Node<D>],
    told: &mut Told,
    flow: F,
) -> Progress<F, F::End>
    requires { F.is_of shards flow }
    ensures turns { TurnsBy D.state D.honest D.moment D.left_since F.asks F.gives shards nodes.old flow nodes.new result }
    ensures of { IfNext result (F.is_of shards) }
{
    let (call, out) = flow.next_call();
    let reply = ask_at(shards, nodes, call, told);
    F::give(out, reply)
}

fn turn_read<D: Device>(
    shards: Shards,
    nodes: &mut [Node<D>],
    told: &mut Told,
    flow: ReadFlow,
) -> Progress<Flow, Option<What>>
    requires { IsOf shards (Flow.Read flow) }
    ensures turns { Makes D.state D.honest D.moment D.left_since shards nodes.old (Flow.Read flow) nodes.new result }
    ensures of { IfNext result (IsOf shards) }
{
    match turn(shards, nodes, told, flow) {
        Progress::Next(flow) => Progress::Next(Flow::Read(flow)),
        Progress::Ended(done) => Progress::Ended(Some(told_of_read(done.end))),
    }
}

fn turn_check<D: Device>(
    shards: Shards,
    nodes: &mut [Node<D>],
    told: &mut Told,
    flow: CheckFlow,
) -> Progress<Flow, Option<What>>
    requires { IsOf shards (Flow.Check flow) }
    ensures turns { Makes D.state D.honest D.moment D.left_since shards nodes.old (Flow.Check flow) nodes.new result }
    ensures of { IfNext result (IsOf shards) }
{
    match turn(shards, nodes, told, flow) {
        Progress::Next(flow) => Progress::Next(Flow::Check(flow)),
        Progress::Ended(done) => Progress::Ended(Some(told_of_check(done.end))),
    }
}

fn turn_watch<D: Device>(
    shards: Shards,
    nodes: &mut [Node<D>],
    told: &mut Told,
    flow: WatchFlow,
) -> Progress<Flow, Option<What>>
    ensures turns { Makes D.state D.honest D.moment D.left_since shards nodes.old (Flow.Watch flow) nodes.new result }
    ensures of { IfNext result (IsOf shards) }
{
    match turn(shards, nodes, told, flow) {
        Progress::Next(flow) => Progress::Next(Flow::Watch(flow)),
        Progress::Ended(end) => Progress::Ended(Some(told_of_watch(end))),
    }
}

/// Makes the flow's next call, and gives it the reply. What is left of it, or what is reported of its end.
pub(crate) fn turn_flow<D: Device>(
    shards: Shards,
    nodes: &mut [Node<D>],
    told: &mut Told,
    flow: Flow,
) -> Progress<Flow, Option<What>>
    requires { IsOf shards flow }
    ensures turns { Makes D.state D.honest D.moment D.left_since shards nodes.old flow nodes.new result }
    ensures of { IfNext result (IsOf shards) }
{
    match flow {
        Flow::Write(writing) => writing.turn(shards, nodes, told),
        Flow::Read(flow) => turn_read(shards, nodes, told, flow),
        Flow::Check(flow) => turn_check(shards, nodes, told, flow),
        Flow::Watch(flow) => turn_watch(shards, nodes, told, flow),
        Flow::Care(flow) => match turn(shards, nodes, told, flow) {
            Progress::Next(flow) => Progress::Next(Flow::Care(flow)),
            Progress::Ended(end) => Progress::Ended(Some(told_of_care(end))),
        },
    }
}
