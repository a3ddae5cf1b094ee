// One call of the node that it names.
ghost use Rattle.calls.specs.Belonging.{IsOwed, IsReplyTo};
ghost use Rattle.calls.specs.Fitting.{FitsItsTypes, IsWhole};
ghost use Rattle.cluster.specs.Nodes.{Answers, Called};

use crate::naming::index_of;
use calls::{Node, NodeCall, Reply, Told, ask, refuse};
use device::Device;
use tuples::{Refusal, Shards};

// Makes the call of this node. Nobody calls a node that the call does not name, but what the call carries has to be spent.
fn ask_one<D: Device>(shards: Shards, node: &mut Node<D>, call: NodeCall, told: &mut Told) -> Reply
    requires { IsOwed shards call }
    ensures answers { Answers D.state D.honest D.moment D.left_since shards node.old call result node.new }
    ensures belongs { IsReplyTo call result }
{
    if node.is_node(shards, call.node()) {
        return ask(node, call, told);
    }
    refuse(Refusal::Damaged, call)
}

/// Makes the call, at the node that it names, if that is there.
pub(crate) fn ask_at<D: Device>(
    shards: Shards,
    nodes: &mut [Node<D>],
    call: NodeCall,
    told: &mut Told,
) -> Reply
    requires { IsOwed shards call }
    ensures called { Called D.state D.honest D.moment D.left_since shards nodes.old call result nodes.new }
    ensures belongs { IsReplyTo call result }
    ensures fits { FitsItsTypes call }
    ensures whole { IsWhole call }
{
    call.fits();
    let index = index_of(call.node());
    if index >= nodes.len() {
        return refuse(Refusal::Damaged, call);
    }
    ask_one(shards, &mut nodes[index], call, told)
}
