// The horizon is raised.
ghost use Rattle.std.specs.Prelude.{◌≡◌, Some, is_some, true};
ghost use Rattle.calls.specs.Asking.{MayBeMade};
ghost use Rattle.calls.specs.Names.{name_of as name_of_call};
ghost use Rattle.names.specs.declared.call_name.CallName.TheVariants as names;
ghost use Rattle.decisions.specs.Flows.{nothing_raised};
ghost use Rattle.care_flow.specs.Raising.{Awaits, Makes, NextCall, ask};
ghost use Rattle.care_flow.specs.Views.{ready};

use crate::end::CareEnd;
use crate::raise_calls::next;
use crate::raise_phase::{Out, Ready};
use crate::raise_replies::give;
use calls::{NodeCall, Progress, Reply};
use names::CallName;
use std::alloc::Global;
use std::marker::Model;
use tuples::Shards;

/// Raises the horizon to a place, once each shard has learned up to it for good.
#[derive(Drop)]
#[must_use]
pub struct RaiseFlow {
    alloc: Global,
    shards: Shards,
    place: u64,
    ready: Ready,
}

impl Model for RaiseFlow {
    ghost use Rattle.std.specs.Prelude.{Some};
    ghost use Rattle.care_flow.specs.Raising.{RaiseFlowValue};

    ghost Value = { RaiseFlowValue };

    ghost use Rattle.care_flow.specs.RaisePhases.{IsReadyOf, name_ready, view_ready};

    ghost view = { λ f. record { shards = f.shards; place = f.place; seen = view_ready f.ready; next_name = Some (name_ready f.ready) } };

    ghost invariant = { λ f. IsReadyOf f.shards f.place f.ready };
}

/// A call of it is out.
#[derive(Drop)]
#[must_use]
pub struct RaiseCall {
    alloc: Global,
    shards: Shards,
    place: u64,
    out: Out,
}

impl Model for RaiseCall {
    ghost use Rattle.std.specs.Prelude.{None};
    ghost use Rattle.care_flow.specs.Raising.{RaiseFlowValue};

    ghost Value = { RaiseFlowValue };

    ghost use Rattle.care_flow.specs.RaisePhases.{IsOutOf, view_out};

    ghost view = { λ c. record { shards = c.shards; place = c.place; seen = view_out c.out; next_name = None } };

    ghost invariant = { λ c. IsOutOf c.shards c.place c.out };
}

impl RaiseFlow {
    /// A raise to this place, in a store of this many shards.
    pub fn new(alloc: Global, shards: Shards, place: u64) -> RaiseFlow
        ensures { result ≡ record { shards = shards; place = place; seen = ready nothing_raised ask; next_name = Some names.Heads } }
    {
        RaiseFlow {
            alloc,
            shards,
            place,
            ready: Ready::Ask,
        }
    }

    /// The name of its next call.
    pub fn next_name(&self) -> CallName
        ensures name { self.now.next_name ≡ Some result }
        ensures comes { is_some self.now.seen.next ≡ true }
    {
        match &self.ready {
            Ready::Ask => CallName::Heads,
            Ready::CatchUp(_, catch_up) => catch_up.next_name(),
            Ready::Settle(_) => CallName::Settle,
            Ready::Raise(_, _) => CallName::Raise,
            Ready::FlushToAsk | Ready::Flush(_) | Ready::FlushToRaise(_) | Ready::FlushRaised(_) =>
                CallName::Flush,
        }
    }

    /// Its next call, which has to be made, and what waits for the reply.
    pub fn next_call(self) -> (NodeCall, RaiseCall)
        ensures same { (result.1.shards ≡ self.shards) × (result.1.place ≡ self.place) }
        ensures call { NextCall self (Some result.0) result.1 }
        ensures name { self.next_name ≡ Some (name_of_call result.0) }
        ensures comes { is_some self.seen.next ≡ true }
        ensures owed { MayBeMade self.shards result.0 }
    {
        let RaiseFlow {
            alloc,
            shards,
            place,
            ready,
        } = self;
        let (call, out) = next(shards, place, ready);
        let out = RaiseCall {
            alloc,
            shards,
            place,
            out,
        };
        (call, out)
    }
}

impl RaiseCall {
    /// What the reply makes of it. It takes memory for what the shards have settled once the heads reach the place.
    pub fn give(self, reply: Reply) -> Progress<RaiseFlow, CareEnd>
        requires { Awaits self reply }
        ensures { Makes self reply result }
    {
        let RaiseCall {
            alloc,
            shards,
            place,
            out,
        } = self;
        match give(alloc, shards, place, out, reply) {
            Progress::Next(ready) => Progress::Next(RaiseFlow {
                alloc,
                shards,
                place,
                ready,
            }),
            Progress::Ended(end) => Progress::Ended(end),
        }
    }
}
