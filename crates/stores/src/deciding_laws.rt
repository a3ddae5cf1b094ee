// Laws of a decision, each the clause of a function with an empty body.
ghost use Rattle.std.specs.Prelude.{ℕ};
ghost use Rattle.stores.specs.DecidingLaws.{DecidersStand, DecisionsStand, VotesPrepare};

use laws::Leavings;

/// A decision that the coordinator stages leaves what the store stands for, with one more write, except for the flow that decides.
pub fn decisions_leave_the_store_standing<W: Leavings>()
    ensures { (store shards : ℕ) → DecisionsStand store shards W.left }
{}

/// Votes of all participants of an open write say that it is prepared whatever a stop leaves, and that its conditions hold.
pub fn votes_prepare<W: Leavings>()
    ensures { (store shards : ℕ) → VotesPrepare store shards W.left }
{}

/// What the flow that decides holds after it is right as well: its write stands at the decision's place.
pub fn deciders_hold_what_is_right<W: Leavings>()
    ensures { (store shards : ℕ) → DecidersStand store shards W.left }
{}
