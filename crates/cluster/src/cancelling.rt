// A flow is cancelled.
ghost use Rattle.std.specs.Prelude.{◌≡◌, ℕ, MatchOption};
ghost use Rattle.cluster.specs.Kept.{AreFlows};
ghost use Rattle.cluster.specs.Steps.{SlotCancels};
ghost use Rattle.cluster.specs.Worlds.{flow_at};

use crate::Flow;
use slab::Slab;

/// Cancels the flow in the slot.
pub(crate) fn cancel(flows: &mut Slab<Flow>, slot: usize)
    ensures cancels { MatchOption (flow_at flows.old.slots slot) (flows.new.slots ≡ flows.old.slots) (λ flow. SlotCancels flows.old.slots slot flow flows.new.slots) }
    ensures kept { (shards : ℕ) → AreFlows shards flows.old.slots → AreFlows shards flows.new.slots }
{
    let Some(flow) = flows.try_remove(slot) else {
        return;
    };
    if let Some(later) = flow.cancel() {
        // The slot that was freed last is taken next.
        let _slot = flows.insert_reserved(later);
    }
}
