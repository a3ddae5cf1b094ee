// A watch: one call a turn.
ghost use Rattle.std.specs.Prelude.{◌≡◌};
ghost use Rattle.decisions.specs.Flows.{no_heads};
ghost use Rattle.answer_flow.specs.Running.{AsksWatch, AwaitsWatch, GivesWatch};
ghost use Rattle.answer_flow.specs.WatchViews.{heads, name_of};

use crate::watch_phase::{AskedWatch, Out, Ready, WatchEnd};
use crate::watching::{give, next};
use calls::{Flow, NodeCall, Progress, Reply};
use names::CallName;
use std::alloc::Global;
use std::marker::Model;
use tuples::Namespace;

/// A watch on its way: `heads`, until the cursor is kept, and the decisions after it. It holds nothing that has to be spent, so who cancels it drops it.
#[derive(Drop)]
#[must_use]
pub struct WatchFlow {
    asked: AskedWatch,
    ready: Ready,
}

impl Model for WatchFlow {
    ghost use Rattle.answer_flow.specs.WatchViews.{WatchFlowValue};

    ghost Value = { WatchFlowValue };

    ghost use Rattle.answer_flow.specs.WatchViews.{IsReadyOf, holds_ready, step_ready};

    ghost view = { λ f. record { cursor = f.asked.cursor; limit = f.asked.limit; namespaces = f.asked.namespaces.items; next = step_ready f.ready; holds = holds_ready f.ready } };

    ghost invariant = { λ f. IsReadyOf f.asked.cursor f.ready };
}

/// A watch whose call is out: the reply has to come back here.
#[derive(Drop)]
#[must_use]
pub struct WatchCall {
    asked: AskedWatch,
    out: Out,
}

impl Model for WatchCall {
    ghost use Rattle.answer_flow.specs.WatchViews.{WatchCallValue};

    ghost Value = { WatchCallValue };

    ghost use Rattle.answer_flow.specs.WatchViews.{IsOutOf, awaited_of, held_by};

    ghost view = { λ c. record { cursor = c.asked.cursor; limit = c.asked.limit; namespaces = c.asked.namespaces.items; awaited = awaited_of c.out; holds = held_by c.out } };

    ghost invariant = { λ c. IsOutOf c.asked.cursor c.out };
}

impl WatchFlow {
    /// The changes in these namespaces after a place, of so many places at most.
    pub fn new(alloc: Global, cursor: u64, limit: u64, namespaces: Vec<Namespace>) -> WatchFlow
        ensures { result ≡ record { cursor = cursor; limit = limit; namespaces = namespaces.items; next = heads; holds = no_heads } }
    {
        WatchFlow {
            asked: AskedWatch {
                alloc,
                cursor,
                limit,
                namespaces,
            },
            ready: Ready::Heads,
        }
    }
}

/// If memory is refused it ends with `NoMemory`.
impl Flow for WatchFlow {
    type Out = WatchCall;

    type End = WatchEnd;

    ghost named = { λ f name. name ≡ name_of f.next };

    ghost is_of = { λ shards f. Unit {0} };

    ghost is_of_out = { λ shards out. Unit {0} };

    ghost asks = { AsksWatch };

    ghost awaits = { AwaitsWatch };

    ghost gives = { GivesWatch };

    fn next_name(&self) -> CallName {
        self.ready.name()
    }

    fn next_call(self) -> (NodeCall, WatchCall) {
        let WatchFlow { asked, ready } = self;
        let (call, out) = next(&asked, ready);
        (call, WatchCall { asked, out })
    }

    fn give(out: WatchCall, reply: Reply) -> Progress<WatchFlow, WatchEnd> {
        let WatchCall { asked, out } = out;
        match give(&asked, out, reply) {
            Progress::Next(ready) => Progress::Next(WatchFlow { asked, ready }),
            Progress::Ended(end) => Progress::Ended(end),
        }
    }
}
