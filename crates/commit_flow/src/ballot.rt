// All votes of a write.
ghost use Rattle.std.specs.Prelude.{◌≡◌};
ghost use Rattle.decisions.specs.Coordinators.{HaveVoted};

use crate::load::leave_votes;
use decisions::{Intent, Vote};
use std::marker::Model;
use tuples::Shards;

/// An intent with the votes of all participants.
pub(crate) struct Ballot {
    shards: Shards,
    intent: Intent,
    votes: Vec<Vote>,
}

impl Model for Ballot {
    ghost use Rattle.decisions.specs.Coordinators.{HaveVoted};
    ghost use Rattle.commit_flow.specs.Phases.{BallotValue};

    ghost Value = { BallotValue };

    ghost view = { λ b. record { shards = b.shards; intent = b.intent; votes = b.votes.items } };

    ghost invariant = { λ b. HaveVoted b.shards b.intent.write b.votes.items };
}

impl Ballot {
    pub(crate) fn new(shards: Shards, intent: Intent, votes: Vec<Vote>) -> Ballot
        requires { HaveVoted shards intent.write votes.items }
        ensures { result ≡ record { shards = shards; intent = intent; votes = votes.items } }
    {
        Ballot {
            shards,
            intent,
            votes,
        }
    }

    /// What is handed to the decision.
    pub(crate) fn into_parts(self) -> (Shards, Intent, Vec<Vote>)
        ensures values { (result.0 ≡ self.shards) × (result.1 ≡ self.intent) × (result.2.items ≡ self.votes) }
        ensures whole { HaveVoted self.shards self.intent.write self.votes }
    {
        let Ballot {
            shards,
            intent,
            votes,
        } = self;
        (shards, intent, votes)
    }

    /// Only spends it.
    pub(crate) fn leave(self) {
        let Ballot {
            shards: _,
            intent,
            votes,
        } = self;
        intent.leave();
        leave_votes(votes);
    }
}
