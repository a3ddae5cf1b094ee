// A decision that was staged, and why there is none.
ghost use Rattle.std.specs.Prelude.{◌≡◌};

use decisions::{Intent, Vote};
use std::marker::Model;
use tuples::Refusal;

/// A decision was staged at a place, by a coordinator in this epoch of it. It has no `Drop`, so it has to be handed to `outcome` or left.
#[must_use]
#[derive(Debug)]
pub struct Decided {
    pub(crate) place: u64,
    pub(crate) epoch: u64,
}

impl Model for Decided {
    ghost use Rattle.decisions.specs.Standing.{DecidedValue};

    ghost Value = { DecidedValue };

    ghost view = { λ d. record { place = d.place; epoch = d.epoch } };
}

impl Decided {
    /// The place at which it was staged.
    pub fn place(&self) -> u64
        ensures { result ≡ self.now.place }
    {
        self.place
    }

    /// How often the coordinator was opened when it was staged.
    pub fn epoch(&self) -> u64
        ensures { result ≡ self.now.epoch }
    {
        self.epoch
    }

    /// Only spends it: what became of it is not known.
    pub fn leave(self) {
        let Decided { place: _, epoch: _ } = self;
    }
}

/// Why there is no decision, with what comes back: the votes always, the intent after `NoMemory` and `Full`.
#[must_use]
pub struct NotDecided {
    pub refusal: Refusal,
    pub intent: Option<Intent>,
    pub votes: Vec<Vote>,
}

impl NotDecided {
    /// Only spends it: the write stays in doubt if it is prepared.
    pub fn leave(self) {
        let NotDecided {
            refusal: _,
            intent,
            votes,
        } = self;
        if let Some(intent) = intent {
            intent.leave();
        }
        leave_votes(votes);
    }
}

/// Only spends the votes.
pub(crate) fn leave_votes(mut votes: Vec<Vote>) {
    while let Some(vote) = votes.pop() {
        vote.leave();
    }
    votes.destroy_empty();
}
