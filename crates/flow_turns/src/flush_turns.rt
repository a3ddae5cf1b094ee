// A write flow flushes a node: laws of each call, the clause of a function with an empty body.
ghost use Rattle.std.specs.Prelude.{ℕ};
ghost use Rattle.calls.specs.declared.call.NodeCall.TheVariants.{Coordinator, Shard};
ghost use Rattle.calls.specs.declared.call.CoordinatorCall.TheVariants.{Flush as flush_coordinator};
ghost use Rattle.calls.specs.declared.call.ShardCall.TheVariants.{Flush as flush_shard};
ghost use Rattle.flow_turns.specs.WriteTurns.{TurnsBy};

use device::Device;

/// A flush of a shard is a turn of a run: for the catch-up, before a prepare that found it full, or before its vote.
pub fn shard_flush_takes_its_turn<D: Device>()
    ensures { (store shards s : ℕ) → TurnsBy D.state D.honest D.moment D.left_since store shards (Shard s flush_shard) }
{}

/// So is one of the coordinator, before a decision that found it full, or before its outcome.
pub fn coordinator_flush_takes_its_turn<D: Device>()
    ensures { (store shards : ℕ) → TurnsBy D.state D.honest D.moment D.left_since store shards (Coordinator flush_coordinator) }
{}
