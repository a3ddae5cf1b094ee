// How far a coordinator is.
ghost use Rattle.std.specs.Prelude.{◌≡◌};
ghost use Rattle.decisions.specs.Values.{AreHeadsOf};

use device::Device;
use journal::Journal;
use std::marker::Model;

/// The three numbers of a coordinator: how many decisions there are, how many every stop leaves, and the durable horizon.
#[derive(Drop, Debug)]
pub struct Heads {
    length: u64,
    kept: u64,
    horizon: u64,
}

impl Model for Heads {
    ghost use Rattle.decisions.specs.Values.{HeadsValue};

    ghost Value = { HeadsValue };

    ghost view = { λ h. record { length = h.length; kept = h.kept; horizon = h.horizon } };
}

impl Heads {
    /// Made by a coordinator whose journal shows that every stop leaves what is durable, and that these are its numbers.
    pub fn new<D: Device>(journal: &Journal<D>, length: u64, kept: u64, horizon: u64) -> Heads
        requires heads { AreHeadsOf D.state D.honest journal.now (record { length = length; kept = kept; horizon = horizon }) }
        ensures { result ≡ record { length = length; kept = kept; horizon = horizon } }
    {
        let _journal = journal;
        Heads {
            length,
            kept,
            horizon,
        }
    }

    /// The number of decisions, including staged ones.
    pub fn length(&self) -> u64
        ensures { result ≡ self.now.length }
    {
        self.length
    }

    /// The number of decisions that every stop leaves.
    pub fn kept(&self) -> u64
        ensures { result ≡ self.now.kept }
    {
        self.kept
    }

    /// The place below which nothing is read.
    pub fn horizon(&self) -> u64
        ensures { result ≡ self.now.horizon }
    {
        self.horizon
    }
}
