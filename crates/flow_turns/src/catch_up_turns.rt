// A shard is caught up for a write: laws of each call, the clause of a function with an empty body.
ghost use Rattle.std.specs.Prelude.{ℕ};
ghost use Rattle.decisions.specs.Values.{BatchValue};
ghost use Rattle.calls.specs.declared.call.NodeCall.TheVariants.{Coordinator, Shard};
ghost use Rattle.calls.specs.declared.call.CoordinatorCall.TheVariants.{Batch};
ghost use Rattle.calls.specs.declared.call.ShardCall.TheVariants.{Learn, Learned};
ghost use Rattle.flow_turns.specs.WriteTurns.{TurnsBy};

use device::Device;

/// To ask a shard how far it has learned is a turn of a run.
pub fn learned_takes_its_turn<D: Device>()
    ensures { (store shards s : ℕ) → TurnsBy D.state D.honest D.moment D.left_since store shards (Shard s Learned) }
{}

/// So is to ask the coordinator for decisions: those after the place up to which all was kept when the write was begun.
pub fn batch_takes_its_turn<D: Device>()
    ensures { (store shards from to : ℕ) → TurnsBy D.state D.honest D.moment D.left_since store shards (Coordinator (Batch from to)) }
{}

/// So is to let a shard learn them.
pub fn learn_takes_its_turn<D: Device>()
    ensures { (store shards s : ℕ) (batch : BatchValue) → TurnsBy D.state D.honest D.moment D.left_since store shards (Shard s (Learn batch)) }
{}
