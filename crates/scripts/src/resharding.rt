// A cluster becomes one of another number of shards.
ghost use Rattle.std.specs.Prelude.{◌≡◌, ◌≤◌, IfOk, MatchResult};
ghost use Rattle.cluster.specs.Steps.{Takes};
ghost use Rattle.scripts.specs.Cares.{Cares};
ghost use Rattle.scripts.specs.Resharding.{IsMoved, IsReady, IsUnready};

use crate::Supply;
use crate::supply::devices;
use cluster::World;
use device::Device;
use reshard::{are_up, reshard};
use std::alloc::Global;
use tuples::{Refusal, Shards};

/// Whether no flow runs and each node is up.
pub(crate) fn is_ready<D: Device>(world: &World<D>) -> Result<(), Refusal>
    ensures { MatchResult result (λ _. IsReady D.state D.honest world.now) (IsUnready D.state D.honest world.now) }
{
    if !world.is_quiet() {
        return Err(Refusal::BadRequest);
    }
    are_up(world)
}

/// Another store of this many shards, which has what this one has, over given devices.
pub(crate) fn carry<D: Device, P: Supply<D>>(
    alloc: Global,
    world: &mut World<D>,
    supply: &mut P,
    shards: Shards,
) -> Result<World<D>, Refusal>
    requires ready { IsReady D.state D.honest world.old }
    ensures cares { Cares (Takes D.state D.honest D.moment D.left_since) world.old world.new }
    ensures ok { IfOk result (IsMoved P.gives D.state D.honest D.moment D.left_since world.old world.new shards) }
{
    let devices = devices(alloc, supply, shards)?;
    match reshard(alloc, world, devices, shards) {
        Ok(new) => Ok(new),
        Err((refusal, _devices)) => Err(refusal),
    }
}
