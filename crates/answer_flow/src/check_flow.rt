// A check: one call a turn.
ghost use Rattle.std.specs.Prelude.{◌≡◌, ◌≤◌, IfOk};
ghost use Rattle.names.specs.declared.call_name.CallName.TheVariants as names;
ghost use Rattle.answer_flow.specs.CheckViews.{begins_at, heads};
ghost use Rattle.answer_flow.specs.Running.{AsksCheck, AwaitsCheck, GivesCheck};

use crate::check_phase::{AskedCheck, CheckDone, Out, Ready};
use crate::check_turns::{give, next};
use crate::walk::Walk;
use calls::{Flow, NodeCall, Progress, Reply};
use names::CallName;
use std::alloc::{AllocError, Global};
use std::marker::Model;
use tuples::{Freshness, Shards, User, Userset};

/// A check on its way: `heads`, until it has its place; then breadth first from the asked userset, each userset once: its shard is brought up to the
/// place, and read. It holds nothing that has to be spent, so who cancels it drops it.
#[derive(Drop)]
#[must_use]
pub struct CheckFlow {
    pub(crate) asked: AskedCheck,
    pub(crate) ready: Ready,
}

impl Model for CheckFlow {
    ghost use Rattle.answer_flow.specs.CheckViews.{CheckFlowValue};

    ghost Value = { CheckFlowValue };

    ghost use Rattle.answer_flow.specs.CheckViews.{IsReadyOf, holds_ready, name_ready, step_ready};

    ghost view = { λ f. record { shards = f.asked.shards; fresh = f.asked.freshness; user = f.asked.user; next = step_ready f.ready; holds = holds_ready f.ready; next_name = name_ready f.ready } };

    ghost invariant = { λ f. IsReadyOf f.asked.shards f.asked.user f.ready };
}

/// A check whose call is out: the reply has to come back here.
#[derive(Drop)]
#[must_use]
pub struct CheckCall {
    asked: AskedCheck,
    out: Out,
}

impl Model for CheckCall {
    ghost use Rattle.answer_flow.specs.CheckViews.{CheckCallValue};

    ghost Value = { CheckCallValue };

    ghost use Rattle.answer_flow.specs.CheckViews.{IsOutOf, awaited_of, holds_out, step_out};

    ghost view = { λ c. record { shards = c.asked.shards; fresh = c.asked.freshness; user = c.asked.user; step = step_out c.out; awaited = awaited_of c.out; holds = holds_out c.out } };

    ghost invariant = { λ c. IsOutOf c.asked.shards c.out };
}

impl CheckFlow {
    /// To ask whether the user is in the userset, in a store of so many shards.
    pub fn new(
        alloc: Global,
        shards: Shards,
        freshness: Freshness,
        userset: &Userset,
        user: User,
    ) -> Result<CheckFlow, AllocError>
        ensures { IfOk result (λ f. f ≡ record { shards = shards; fresh = freshness; user = user; next = heads; holds = begins_at userset.now; next_name = names.Heads }) }
    {
        let walk = Walk::new(alloc, userset)?;
        Ok(CheckFlow {
            asked: AskedCheck {
                alloc,
                shards,
                freshness,
                user,
            },
            ready: Ready::Heads(walk),
        })
    }
}

/// If memory is refused it ends with `NoMemory`.
impl Flow for CheckFlow {
    type Out = CheckCall;

    type End = CheckDone;

    ghost named = { λ f name. name ≡ f.next_name };

    ghost is_of = { λ shards f. f.shards ≡ shards };

    ghost is_of_out = { λ shards out. out.shards ≡ shards };

    ghost asks = { AsksCheck };

    ghost awaits = { AwaitsCheck };

    ghost gives = { GivesCheck };

    fn next_name(&self) -> CallName {
        self.ready.name()
    }

    fn next_call(self) -> (NodeCall, CheckCall) {
        let CheckFlow { asked, ready } = self;
        let (call, out) = next(&asked, ready);
        (call, CheckCall { asked, out })
    }

    fn give(out: CheckCall, reply: Reply) -> Progress<CheckFlow, CheckDone> {
        let CheckCall { asked, out } = out;
        match give(&asked, out, reply) {
            Progress::Next(ready) => Progress::Next(CheckFlow { asked, ready }),
            Progress::Ended(end) => Progress::Ended(CheckDone {
                end,
                user: asked.user,
            }),
        }
    }
}
