// Shards prepare and vote for a write: laws of each call, the clause of a function with an empty body.
ghost use Rattle.std.specs.Prelude.{ℕ};
ghost use Rattle.decisions.specs.Values.{IntentValue, TicketValue};
ghost use Rattle.calls.specs.declared.call.NodeCall.TheVariants.{Shard};
ghost use Rattle.calls.specs.declared.call.ShardCall.TheVariants.{StagePrepare, Vote};
ghost use Rattle.flow_turns.specs.WriteTurns.{TurnsBy};

use device::Device;

/// To ask a shard to prepare its part is a turn of a run: the flow goes on with a ticket, waits for a flush if the shard is full for the first time, or
/// goes out with a refusal that has its cause.
pub fn prepare_takes_its_turn<D: Device>()
    ensures { (store shards s : ℕ) (intent : IntentValue) → TurnsBy D.state D.honest D.moment D.left_since store shards (Shard s (StagePrepare intent)) }
{}

/// To ask a shard for its vote is a turn of a run.
pub fn vote_takes_its_turn<D: Device>()
    ensures { (store shards s : ℕ) (ticket : TicketValue) → TurnsBy D.state D.honest D.moment D.left_since store shards (Shard s (Vote ticket)) }
{}
