// A check at a place that is known.
ghost use Rattle.std.specs.Prelude.{◌≡◌, ◌≤◌, Some, IfOk};
ghost use Rattle.decisions.specs.Flows.{exact};
ghost use Rattle.names.specs.declared.call_name.CallName.TheVariants as names;
ghost use Rattle.answer_flow.specs.CheckViews.{begins_at, catch_up as to_catch_up};

use crate::check_flow::CheckFlow;
use crate::check_phase::{AskedCheck, Ready};
use crate::checking::shard_to_ask;
use crate::walk::Walk;
use catch_up::CatchUp;
use std::alloc::{AllocError, Global};
use tuples::{Freshness, Shards, User, Userset};

impl CheckFlow {
    /// To ask whether the user is in the userset at a place that is known to be kept. It asks the coordinator for nothing: the userset's shard is brought
    /// up to the place.
    pub fn at(
        alloc: Global,
        shards: Shards,
        place: u64,
        userset: &Userset,
        user: User,
    ) -> Result<CheckFlow, AllocError>
        ensures { IfOk result (λ f. f ≡ record { shards = shards; fresh = exact place; user = user; next = to_catch_up; holds = record (begins_at userset.now) { place = Some place }; next_name = names.Learned }) }
    {
        let walk = Walk::new(alloc, userset)?;
        let shard = shard_to_ask(userset, shards);
        let catch_up = CatchUp::new(shard, place);
        Ok(CheckFlow {
            asked: AskedCheck {
                alloc,
                shards,
                freshness: Freshness::Exact(place),
                user,
            },
            ready: Ready::CatchUp(place, walk, catch_up),
        })
    }
}
