// A node is opened, or opened again.
ghost use Rattle.std.specs.Prelude.{◌≡◌, ◌≤◌, ◌<◌, ◌+◌, false, IsTrue, None, MatchOption};
ghost use Rattle.std.specs.List.{insert};
ghost use Rattle.std.specs.Vec.{vec_capacity, vec_len};
ghost use Rattle.cluster.specs.Begun.{IsNodeThere};
ghost use Rattle.refusal.specs.declared.refusal.Refusal.TheVariants.{Down};
ghost use Rattle.device.specs.Device.{Failed};
ghost use Rattle.calls.specs.Opening.{HasStopped};
ghost use Rattle.calls.specs.Views.{refused};
ghost use Rattle.cluster.specs.Nodes.{IsFound, IsRevived, Opens, Reopened};
ghost use Rattle.cluster.specs.Steps.{SlotRestarts, told_of_opening};
ghost use Rattle.cluster.specs.Worlds.{node_at};

use crate::What;
use crate::naming::index_of;
use calls::Node;
use device::Device;
use names::NodeName;
use records::Identity;
use std::alloc::Global;
use tuples::{Refusal, Shards};

// Revives a device: whether what a stop may have left of it was found. One that fails again answers only errors.
fn revive<D: Device>(device: &mut D) -> bool
    ensures revived { IsRevived D.state D.honest D.moment D.left_since device.old device.new }
    ensures found { IsTrue result → IsFound D.state D.honest D.moment D.left_since device.old device.new }
    ensures failed { result ≡ false → Failed (D.state device.old) (D.state device.new) }
{
    device.revive().is_ok()
}

// Opens the node of this name over two devices.
fn open<D: Device>(alloc: Global, store: u64, shards: Shards, name: NodeName, a: D, b: D) -> Node<D>
    requires there { IsNodeThere shards name }
    ensures { Opens D.state D.honest D.moment D.left_since store shards name a b result }
{
    match name {
        NodeName::Coordinator => {
            Node::open_coordinator(alloc, a, b, Identity::coordinator(store, shards))
        }
        NodeName::Shard(shard) => {
            Node::open_shard(alloc, a, b, Identity::shard(store, shards, shard))
        }
    }
}

fn stay_down<D: Device>(
    alloc: Global,
    store: u64,
    shards: Shards,
    name: NodeName,
    a: D,
    b: D,
) -> Node<D>
    requires there { IsNodeThere shards name }
    requires stopped { HasStopped D.state a b }
    ensures { result ≡ refused Down a b }
{
    let me = match name {
        NodeName::Coordinator => Identity::coordinator(store, shards),
        NodeName::Shard(shard) => Identity::shard(store, shards, shard),
    };
    Node::stay_down(alloc, a, b, me)
}

/// Revives both devices, and opens the node of this name over them. If one fails again the node is not opened, and is `Down`.
pub(crate) fn reopen_node<D: Device>(
    alloc: Global,
    store: u64,
    shards: Shards,
    name: NodeName,
    mut a: D,
    mut b: D,
) -> Node<D>
    requires there { IsNodeThere shards name }
    ensures { Reopened D.state D.honest D.moment D.left_since store shards name a b result }
{
    let is_found_a = revive(&mut a);
    let is_found_b = revive(&mut b);
    if is_found_a && is_found_b {
        return open(alloc, store, shards, name, a, b);
    }
    stay_down(alloc, store, shards, name, a, b)
}

fn told_of(refusal: Option<Refusal>) -> What
    ensures { result ≡ told_of_opening refusal }
{
    match refusal {
        Some(refusal) => What::Refused(refusal),
        None => What::Up,
    }
}

// There is room, since one was taken out.
fn put_back<D: Device>(nodes: &mut Vec<Node<D>>, index: usize, node: Node<D>)
    requires within { index ≤ vec_len nodes.old }
    requires room { vec_len nodes.old < vec_capacity nodes.old }
    ensures items { nodes.new.items ≡ insert nodes.old.items index node }
    ensures count { vec_len nodes.new ≡ vec_len nodes.old + 1 }
{
    let _ = nodes.insert(index, node);
}

/// Opens the node of this name again, if it is there, and reports whether it is up.
pub(crate) fn restart<D: Device>(
    alloc: Global,
    store: u64,
    shards: Shards,
    nodes: &mut Vec<Node<D>>,
    name: NodeName,
) -> Option<What>
    requires count { vec_len nodes.old ≡ shards + 1 }
    ensures restarts { MatchOption (node_at nodes.old.items name) ((result ≡ None) × (nodes.new.items ≡ nodes.old.items))
        (λ was. SlotRestarts D.state D.honest D.moment D.left_since store shards nodes.old.items name was result nodes.new.items) }
    ensures count { vec_len nodes.new ≡ shards + 1 }
{
    let index = index_of(name);
    if index >= nodes.len() {
        return None;
    }
    // The node's memory goes, and its devices stay.
    let (a, b) = nodes.remove(index).into_devices();
    let node = reopen_node(alloc, store, shards, name, a, b);
    let told = told_of(node.refusal());
    put_back(nodes, index, node);
    Some(told)
}
