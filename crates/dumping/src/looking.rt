// A store that was just opened is looked over, before its tuples are asked for.
ghost use Rattle.std.specs.Prelude.{◌≡◌, ◌↔◌, true, IfOk, OnOk};
ghost use Rattle.dumping.specs.Looking.{AreOfOneMoment, IsWithin, ReachesAt};

use calls::Reach;
use cluster::World;
use device::Device;
use names::NodeName;
use tuples::Refusal;

fn reach_of<D: Device>(world: &World<D>, name: NodeName) -> Result<Reach, Refusal>
    ensures { IfOk result (ReachesAt D.state D.honest world.now.nodes name) }
{
    match world.node(name) {
        Some(node) => node.reach(),
        None => Err(Refusal::BadRequest),
    }
}

// Whether a shard has learned no more than the coordinator keeps, and no less than that has forgotten.
fn is_within(shard: Reach, log: Reach) -> bool
    ensures { (result ≡ true) ↔ IsWithin shard log }
{
    log.horizon <= shard.place && shard.place <= log.place
}

/// Whether the nodes are all of one moment: `Damaged` if a shard has learned more than the coordinator keeps, or less than it has forgotten, since nobody
/// could tell it what is missing. Before that the refusal of a node, the coordinator first and then the shards by rising number.
pub(crate) fn look_over<D: Device>(world: &World<D>) -> Result<(), Refusal>
    ensures { OnOk result (AreOfOneMoment D.state D.honest world.now.nodes world.now.shards) }
{
    let log = reach_of(world, NodeName::Coordinator)?;
    for shard in 0..world.shards().count() {
        if !is_within(reach_of(world, NodeName::Shard(shard))?, log) {
            return Err(Refusal::Damaged);
        }
    }
    Ok(())
}
