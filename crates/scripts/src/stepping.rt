// A cluster that takes its steps one at a time.
ghost use Rattle.std.specs.Prelude.{◌≡◌};
ghost use Rattle.cluster.specs.Steps.{Takes};
ghost use Rattle.scripts.specs.Resharding.{Reshards};
ghost use Rattle.scripts.specs.Stepping.{IsNext, SetsScript, ShowsRows, shards_in};

use crate::resharding::{carry, is_ready};
use crate::{Store, Supply};
use cluster::{Step, What, World};
use device::{Device, Tear};
use journal::Bank;
use names::{CallName, NodeName};
use std::alloc::{AllocError, Global};
use std::marker::Model;
use std::mem;
use tuples::{Refusal, Shards, Version};

/// A cluster that takes its steps one at a time, and what gives the devices of new nodes.
#[derive(Drop)]
pub struct Stepping<D: Device, P: Supply<D>> {
    alloc: Global,
    world: World<D>,
    supply: P,
}

impl<D: Device, P: Supply<D>> Model for Stepping<D, P> {
    ghost use Rattle.cluster.specs.Worlds.{WorldView};

    ghost Value = { WorldView D };

    ghost view = { λ s. s.world };
}

impl<D: Device, P: Supply<D>> Stepping<D, P> {
    pub fn new(alloc: Global, world: World<D>, supply: P) -> Stepping<D, P>
        ensures { result ≡ world }
    {
        Stepping {
            alloc,
            world,
            supply,
        }
    }
}

impl<D: Device, P: Supply<D>> Store for Stepping<D, P> {
    ghost takes = { Takes D.state D.honest D.moment D.left_since };

    ghost nexts = { IsNext };

    ghost shows = { ShowsRows D.state D.honest };

    ghost sets = { SetsScript D.set_to_fail D.state D.honest D.moment D.left_since };

    ghost reshards = { Reshards P.gives D.state D.honest D.moment D.left_since };

    ghost shards_of = { shards_in };

    fn take(&mut self, step: Step) -> Result<Option<What>, AllocError> {
        let told = self.world.take(&step);
        drop(step);
        told
    }

    fn next(&self, slot: usize) -> Option<CallName> {
        self.world.next(slot)
    }

    fn rows(&self, shard: u8) -> Result<Vec<Version>, Refusal> {
        self.world.rows(shard)
    }

    fn fail(&mut self, node: NodeName, bank: Bank, n: u64, tear: Tear) {
        self.world.fail(node, bank, n, tear);
    }

    fn shards(&self) -> Shards {
        self.world.shards()
    }

    fn reshard(&mut self, shards: Shards) -> Result<(), Refusal> {
        is_ready(&self.world)?;
        let new = carry(self.alloc, &mut self.world, &mut self.supply, shards)?;
        drop(mem::replace(&mut self.world, new));
        Ok(())
    }
}
