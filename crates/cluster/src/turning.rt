// The turn of a flow in its slot.
ghost use Rattle.std.specs.Prelude.{◌≡◌, None, MatchOption};
ghost use Rattle.slab.specs.Slab.{HasRoomFor};
ghost use Rattle.cluster.specs.Flows.{IsOf};
ghost use Rattle.cluster.specs.Kept.{AreFlows};
ghost use Rattle.cluster.specs.Steps.{GoesOn, SlotTurns};
ghost use Rattle.cluster.specs.Worlds.{flow_at};

use crate::calling::turn_flow;
use crate::ending::unless;
use crate::{Flow, What};
use calls::{Node, Progress, Told};
use device::Device;
use slab::Slab;
use tuples::Shards;

// Puts a flow that was taken out back in its slot.
fn put_back(shards: Shards, flows: &mut Slab<Flow>, flow: Flow) -> Option<What>
    requires of { IsOf shards flow }
    requires room { HasRoomFor flows.old 1 }
    requires flows { AreFlows shards flows.old.slots }
    ensures goes_on { GoesOn flows.old.slots flows.old.vacant_key flow result flows.new.slots }
    ensures kept { AreFlows shards flows.new.slots }
{
    let (is_cancelled, name) = (flow.is_cancelled(), flow.next_name());
    // The slot that was freed last is taken next.
    let _slot = flows.insert_reserved(flow);
    unless(is_cancelled, Some(What::Next(name)))
}

/// The turn of the flow in the slot, and what is reported of it.
pub(crate) fn turn<D: Device>(
    shards: Shards,
    nodes: &mut [Node<D>],
    flows: &mut Slab<Flow>,
    told: &mut Told,
    slot: usize,
) -> Option<What>
    requires { AreFlows shards flows.old.slots }
    ensures turns { MatchOption (flow_at flows.old.slots slot) ((result ≡ None) × (nodes.new ≡ nodes.old) × (flows.new.slots ≡ flows.old.slots))
        (λ flow. SlotTurns D.state D.honest D.moment D.left_since shards nodes.old flows.old.slots slot flow result nodes.new flows.new.slots) }
    ensures kept { AreFlows shards flows.new.slots }
{
    let flow = flows.try_remove(slot)?;
    match turn_flow(shards, nodes, told, flow) {
        Progress::Next(flow) => put_back(shards, flows, flow),
        Progress::Ended(told) => told,
    }
}
