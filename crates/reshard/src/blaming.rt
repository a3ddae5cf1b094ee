// Why a store that nobody has open is refused, for whoever is told so.
ghost use Rattle.std.specs.Prelude.{◌≡◌, ◌+◌, ◌*◌, vec_len};

use calls::Reach;
use cluster::{World, reopen};
use device::Device;
use files::Cause;
use names::NodeName;
use node_files::{About, Mode, Opened, Trouble, open_all};
use std::alloc::Global;
use tuples::{Refusal, Shards};

fn reach_of<D: Device>(world: &World<D>, name: NodeName) -> Result<Reach, Trouble> {
    match world.node(name) {
        Some(node) => match node.reach() {
            Ok(reach) => Ok(reach),
            Err(refusal) => Err(Trouble::of_node(refusal, name)),
        },
        None => Err(Trouble::from(Refusal::BadRequest)),
    }
}

// Sees that each node is there, the coordinator before the shards, and of one moment with it.
fn see<D: Device>(world: &World<D>) -> Result<(), Trouble> {
    let log = reach_of(world, NodeName::Coordinator)?;
    for shard in 0..world.shards().count() {
        let place = reach_of(world, NodeName::Shard(shard))?.place;
        if place < log.horizon || log.place < place {
            return Err(Trouble {
                refusal: Refusal::Damaged,
                about: Some(About::Apart(shard)),
            });
        }
    }
    Ok(())
}

fn see_over<D: Device>(
    alloc: Global,
    devices: Vec<D>,
    store: u64,
    shards: Shards,
) -> Result<(), Trouble>
    requires { vec_len devices ≡ 2 * (shards + 1) }
{
    match reopen(alloc, devices, store, shards) {
        Ok(world) => see(&world),
        Err(_) => Err(Trouble::from(Refusal::NoMemory)),
    }
}

/// Why whoever opened the store of the folder was refused, by looking at its files once more: that it is another store, or the first node that is refused or is
/// not of one moment with the others.
pub fn blamed(
    rt: &HostRuntime,
    folder: &str,
    store: u64,
    shards: Shards,
    refusal: Refusal,
) -> Trouble {
    if refusal != Refusal::Damaged {
        return Trouble::from(refusal);
    }
    let Ok(opened) = open_all(rt, folder, store, shards, Mode::Look) else {
        return Trouble::from(refusal);
    };
    if let Some(cause) = opened.other {
        return Trouble::of_folder(rt.alloc(), folder, refusal, cause);
    }
    match see_over(rt.alloc(), opened.devices, store, shards) {
        Err(trouble) if trouble.refusal == refusal => trouble,
        _ => Trouble::from(refusal),
    }
}
