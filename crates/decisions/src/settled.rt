// How far a shard has learned for good.
ghost use Rattle.std.specs.Prelude.{◌≡◌};
ghost use Rattle.decisions.specs.Values.{HasLearnedIn, IsOfNode};

use device::Device;
use journal::Journal;
use std::marker::Model;

/// Whatever a stop leaves of the shard has learned at least up to the place.
#[derive(Drop, Debug)]
pub struct Settled {
    shard: u8,
    place: u64,
}

impl Model for Settled {
    ghost use Rattle.decisions.specs.Values.{SettledValue};

    ghost Value = { SettledValue };

    ghost view = { λ s. record { shard = s.shard; place = s.place } };
}

impl Settled {
    /// Made by a shard whose journal shows that the place is learned for good, and which shard it is.
    pub fn new<D: Device>(journal: &Journal<D>, shard: u8, place: u64) -> Settled
        requires learned { HasLearnedIn D.state D.honest journal.now.a journal.now.b place }
        requires shard { IsOfNode D.honest journal.now shard }
        ensures { result ≡ record { shard = shard; place = place } }
    {
        let _journal = journal;
        Settled { shard, place }
    }

    pub fn shard(&self) -> u8
        ensures { result ≡ self.now.shard }
    {
        self.shard
    }

    /// The place that it has learned.
    pub fn place(&self) -> u64
        ensures { result ≡ self.now.place }
    {
        self.place
    }
}
