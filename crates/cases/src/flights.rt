// Nodes that are flushed while their devices are elsewhere. By public contracts alone this is what their `flush` does: whatever `land` asks for, a
// flight that was flushed has.
ghost use Rattle.std.specs.Prelude.{◌≡◌, ◌++◌, [], OnOk};
ghost use Rattle.decisions.specs.Coordinators.{FlushesAll, IsRunning};
ghost use Rattle.shard.specs.Shards.{IsUp};

use coordinator::Coordinator;
use device::Device;
use journal::BatchRoom;
use shard::Shard;
use tuples::Refusal;

/// Flushes a coordinator in two steps, which does what its `flush` does.
pub fn fly_coordinator<D: Device>(
    coordinator: Coordinator<D>,
    room: BatchRoom,
) -> (Coordinator<D>, Result<(), Refusal>)
    ensures { IsRunning D.state D.honest coordinator → OnOk result.1 (IsRunning D.state D.honest result.0 × FlushesAll coordinator result.0) }
{
    let (lent, mut flight, flying) = coordinator.lend(room);
    let flushed = flight.flush();
    let (back, _room) = lent.land(flight, flying);
    (back, flushed)
}

/// Flushes a shard in two steps, which does what its `flush` does.
pub fn fly_shard<D: Device>(shard: Shard<D>, room: BatchRoom) -> (Shard<D>, Result<(), Refusal>)
    ensures { IsUp D.state D.honest shard → OnOk result.1 (IsUp D.state D.honest result.0 × (result.0.durable ≡ shard.durable ++ shard.staged) × (result.0.staged ≡ [])) }
{
    let (lent, mut flight, flying) = shard.lend(room);
    let flushed = flight.flush();
    let (back, _room) = lent.land(flight, flying);
    (back, flushed)
}
