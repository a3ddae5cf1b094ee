// A closed store is opened.
ghost use Rattle.std.specs.Prelude.{◌≡◌, ◌≤◌, ◌<◌, ◌+◌, ◌*◌, ◌∷◌, IfErr, IfOk, MatchResult, length};
ghost use Rattle.std.specs.Vec.{vec_capacity, vec_len};
ghost use Rattle.cluster.specs.Begun.{IsNodeThere};
ghost use Rattle.cluster.specs.Openings.{AreOpened, IsOpenedOver, OpensNext};

use crate::World;
use crate::restarting::reopen_node;
use calls::{Node, Told};
use device::Device;
use names::NodeName;
use slab::Slab;
use std::alloc::Global;
use tuples::Shards;

// The two devices of the next node.
fn take_two<D>(devices: &mut Vec<D>) -> (D, D)
    requires { 2 ≤ vec_len devices.old }
    ensures items { devices.old.items ≡ result.0 ∷ result.1 ∷ devices.new.items }
    ensures len { vec_len devices.new + 2 ≡ vec_len devices.old }
{
    let a = devices.remove(0);
    let b = devices.remove(0);
    (a, b)
}

// Opens the next node over the next two devices.
fn open_next<D: Device>(
    alloc: Global,
    store: u64,
    shards: Shards,
    name: NodeName,
    devices: &mut Vec<D>,
    nodes: &mut Vec<Node<D>>,
)
    requires there { IsNodeThere shards name }
    requires left { 2 ≤ vec_len devices.old }
    requires room { vec_len nodes.old < vec_capacity nodes.old }
    ensures opens { OpensNext D.state D.honest D.moment D.left_since store shards name devices.old.items nodes.old.items devices.new.items nodes.new.items }
    ensures left { vec_len devices.new + 2 ≡ vec_len devices.old }
    ensures opened { vec_len nodes.new ≡ vec_len nodes.old + 1 }
    ensures room { vec_capacity nodes.new ≡ vec_capacity nodes.old }
{
    let (a, b) = take_two(devices);
    nodes.push_reserved(reopen_node(alloc, store, shards, name, a, b));
}

// Opens each node over its own devices, the coordinator first.
fn open_all<D: Device>(
    alloc: Global,
    mut devices: Vec<D>,
    store: u64,
    shards: Shards,
) -> Result<Vec<Node<D>>, Vec<D>>
    requires count { vec_len devices ≡ 2 * (shards + 1) }
    ensures opened { IfOk result (λ nodes. AreOpened D.state D.honest D.moment D.left_since store shards 0 devices.items nodes.items) }
    ensures count { IfOk result (λ nodes. length nodes.items ≡ shards + 1) }
    ensures back { IfErr result (λ back. back.items ≡ devices.items) }
{
    let count = shards.count();
    let Ok(mut nodes) = Vec::with_capacity(alloc, usize::from(count) + 1) else {
        return Err(devices);
    };
    open_next(
        alloc,
        store,
        shards,
        NodeName::Coordinator,
        &mut devices,
        &mut nodes,
    );
    for shard in 0..count {
        open_next(
            alloc,
            store,
            shards,
            NodeName::Shard(shard),
            &mut devices,
            &mut nodes,
        );
    }
    Ok(nodes)
}

/// Opens the store of this number and of 1 to 64 shards over its devices: those of the coordinator, and then those of each shard, by rising number, bank a
/// before bank b. Both devices are revived, and each node is up, or holds the refusal of its opening. If memory is refused the devices come back
/// untouched.
pub fn reopen<D: Device>(
    alloc: Global,
    devices: Vec<D>,
    store: u64,
    shards: Shards,
) -> Result<World<D>, Vec<D>>
    requires count { vec_len devices ≡ 2 * (shards + 1) }
    ensures { MatchResult result (IsOpenedOver D.state D.honest D.moment D.left_since store shards devices.items) (λ back. back.items ≡ devices.items) }
{
    match open_all(alloc, devices, store, shards) {
        Ok(nodes) => Ok(World {
            alloc,
            store,
            shards,
            nodes,
            flows: Slab::new(alloc),
            told: Told::new(),
        }),
        Err(devices) => Err(devices),
    }
}
