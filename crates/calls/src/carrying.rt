// How far a node reaches, and what of it is carried over to a store of another number of shards.
ghost use Rattle.std.specs.Prelude.{◌≤◌};
ghost use Rattle.calls.specs.Carrying.{Carries, CoordinatorReaches, Reaches, ShardReaches};

use crate::Node;
use crate::node::Opened;
use coordinator::Coordinator;
use device::Device;
use journal::Begun;
use shard::Shard;
use tuples::{Refusal, Shards};

/// How far a node reaches.
#[derive(Clone, Copy, Debug, PartialEq, Eq)]
pub struct Reach {
    /// The place up to which a coordinator keeps all, or a shard has learned.
    pub place: u64,
    /// The place below which nothing is read.
    pub horizon: u64,
}

fn reach_of_coordinator<D: Device>(coordinator: &Coordinator<D>) -> Result<Reach, Refusal>
    ensures { CoordinatorReaches D.state D.honest coordinator.now result }
{
    if coordinator.is_down() {
        return Err(Refusal::Down);
    }
    Ok(Reach {
        place: coordinator.kept(),
        horizon: coordinator.horizon(),
    })
}

fn reach_of_shard<D: Device>(shard: &Shard<D>) -> Result<Reach, Refusal>
    ensures { ShardReaches D.state D.honest shard.now result }
{
    let place = shard.learned()?;
    let horizon = shard.horizon()?;
    Ok(Reach { place, horizon })
}

impl<D: Device> Node<D> {
    /// How far it reaches. Refused with `Down`, or with the refusal of its opening.
    pub fn reach(&self) -> Result<Reach, Refusal>
        ensures { Reaches D.state D.honest self.now result }
    {
        match &self.opened {
            Opened::Coordinator(coordinator) => reach_of_coordinator(coordinator),
            Opened::Shard(shard) => reach_of_shard(shard),
            Opened::Refused(refused) => Err(refused.refusal),
        }
    }

    /// Ends the first checkpoint of the coordinator of a store with the same id and this many shards, with what this coordinator knows. `Down` if a call of
    /// a device failed. A shard refuses with `BadRequest`, and a node whose opening was refused with that refusal.
    pub fn carry(&self, shards: Shards, begun: &mut Begun<D>) -> Result<(), Refusal>
        ensures { Carries D.state D.honest D.moment D.left_since shards self.now begun.old result begun.new }
    {
        match &self.opened {
            Opened::Coordinator(coordinator) => coordinator.carry(shards, begun),
            Opened::Shard(_) => Err(Refusal::BadRequest),
            Opened::Refused(refused) => Err(refused.refusal),
        }
    }
}
