// A write on its way out: laws of each call, the clause of a function with an empty body.
ghost use Rattle.std.specs.Prelude.{ℕ, Option};
ghost use Rattle.tuples.specs.declared.entry.WriteId.{WriteId};
ghost use Rattle.decisions.specs.Values.{IntentValue, VerdictValue};
ghost use Rattle.decisions.specs.declared.held.Held.{Held};
ghost use Rattle.calls.specs.declared.call.NodeCall.TheVariants.{Coordinator, Shard};
ghost use Rattle.calls.specs.declared.call.CoordinatorCall.TheVariants.{Abort, Inquire};
ghost use Rattle.calls.specs.declared.call.ShardCall.TheVariants.{DropWrite};
ghost use Rattle.flow_turns.specs.WriteTurns.{TurnsBy};

use device::Device;

/// To abort a write by its intent is a turn of a run: it goes on with a verdict, or ends with the refusal that it met.
pub fn abort_takes_its_turn<D: Device>()
    ensures { (store shards : ℕ) (intent : IntentValue) → TurnsBy D.state D.honest D.moment D.left_since store shards (Coordinator (Abort intent)) }
{}

/// So is to inquire what became of it, if the intent is spent.
pub fn inquire_takes_its_turn<D: Device>()
    ensures { (store shards : ℕ) (id : WriteId) → TurnsBy D.state D.honest D.moment D.left_since store shards (Coordinator (Inquire id)) }
{}

/// So is to drop it at a shard, whether or not that is up.
pub fn drop_takes_its_turn<D: Device>()
    ensures { (store shards s : ℕ) (verdict : VerdictValue) (held : Option Held) → TurnsBy D.state D.honest D.moment D.left_since store shards (Shard s (DropWrite verdict held)) }
{}
