// A read: one call a turn.
ghost use Rattle.std.specs.Prelude.{◌≡◌, ◌≤◌};
ghost use Rattle.calls.specs.Flows.{IfNext};
ghost use Rattle.names.specs.declared.call_name.CallName.TheVariants as names;
ghost use Rattle.decisions.specs.Flows.{nothing_read};
ghost use Rattle.answer_flow.specs.ReadViews.{IsAsked, IsReadyOf, heads, seen_after, view_of};
ghost use Rattle.answer_flow.specs.Running.{AsksRead, AwaitsRead, GivesRead};

use crate::read_phase::{AskedRead, Out, ReadDone, ReadEnd, Ready};
use crate::read_turns::{give, next};
use calls::{Flow, NodeCall, Progress, Reply};
use names::CallName;
use std::alloc::Global;
use std::marker::Model;
use tuples::{Freshness, Shards, Tupleset};

/// A read on its way: `heads`, until it has its place; then for each tupleset each shard that it needs is brought up to the place, and reads. It holds
/// nothing that has to be spent, so who cancels it drops it.
#[derive(Drop)]
#[must_use]
pub struct ReadFlow {
    pub(crate) asked: AskedRead,
    pub(crate) ready: Ready,
}

impl Model for ReadFlow {
    ghost use Rattle.answer_flow.specs.ReadViews.{ReadFlowValue};

    ghost Value = { ReadFlowValue };

    ghost use Rattle.answer_flow.specs.ReadViews.{IsReadyOf, holds_ready, name_ready, step_ready};

    ghost view = { λ f. record { shards = f.asked.shards; fresh = f.asked.freshness; sets = f.asked.sets.items; next = step_ready f.ready; holds = holds_ready f.ready; next_name = name_ready f.ready } };

    ghost invariant = { λ f. IsReadyOf f.asked.shards f.asked.sets.items f.ready };
}

/// A read whose call is out: the reply has to come back here.
#[derive(Drop)]
#[must_use]
pub struct ReadCall {
    asked: AskedRead,
    out: Out,
}

impl Model for ReadCall {
    ghost use Rattle.answer_flow.specs.ReadViews.{ReadCallValue};

    ghost Value = { ReadCallValue };

    ghost use Rattle.answer_flow.specs.ReadViews.{IsOutOf, awaited_of, holds_out, step_out};

    ghost view = { λ c. record { shards = c.asked.shards; fresh = c.asked.freshness; sets = c.asked.sets.items; step = step_out c.out; awaited = awaited_of c.out; holds = holds_out c.out } };

    ghost invariant = { λ c. IsOutOf c.asked.shards c.asked.sets.items c.out };
}

/// What was made of it, with what it is asked.
pub(crate) fn with_asked(
    asked: AskedRead,
    made: Progress<Ready, ReadEnd>,
) -> Progress<ReadFlow, ReadDone>
    requires { IfNext made (IsReadyOf asked.shards asked.sets.items) }
    ensures asked { IsAsked asked.shards asked.freshness asked.sets.items result }
    ensures seen { seen_after result ≡ view_of made }
{
    match made {
        Progress::Next(ready) => Progress::Next(ReadFlow { asked, ready }),
        Progress::Ended(end) => Progress::Ended(ReadDone {
            end,
            sets: asked.sets,
        }),
    }
}

impl ReadFlow {
    /// To read these tuplesets in a store of so many shards.
    pub fn new(alloc: Global, shards: Shards, freshness: Freshness, sets: Vec<Tupleset>) -> ReadFlow
        ensures { result ≡ record { shards = shards; fresh = freshness; sets = sets.items; next = heads; holds = nothing_read; next_name = names.Heads } }
    {
        ReadFlow {
            asked: AskedRead {
                alloc,
                shards,
                freshness,
                sets,
            },
            ready: Ready::Heads,
        }
    }
}

/// If memory is refused it ends with `NoMemory`.
impl Flow for ReadFlow {
    type Out = ReadCall;

    type End = ReadDone;

    ghost named = { λ f name. name ≡ f.next_name };

    ghost is_of = { λ shards f. f.shards ≡ shards };

    ghost is_of_out = { λ shards out. out.shards ≡ shards };

    ghost asks = { AsksRead };

    ghost awaits = { AwaitsRead };

    ghost gives = { GivesRead };

    fn next_name(&self) -> CallName {
        self.ready.name()
    }

    fn next_call(self) -> (NodeCall, ReadCall) {
        let ReadFlow { asked, ready } = self;
        let (call, out) = next(&asked, ready);
        (call, ReadCall { asked, out })
    }

    fn give(out: ReadCall, reply: Reply) -> Progress<ReadFlow, ReadDone> {
        let ReadCall { asked, out } = out;
        let made = give(&asked, out, reply);
        with_asked(asked, made)
    }
}
