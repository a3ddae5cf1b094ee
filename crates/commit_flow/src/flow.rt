// A write flow: one call a turn.
ghost use Rattle.std.specs.Prelude.{◌≡◌, Some, None, false, IfOk, IfErr};
ghost use Rattle.calls.specs.Flows.{IfNext};
ghost use Rattle.names.specs.declared.call_name.CallName.TheVariants as names;
ghost use Rattle.commit_flow.specs.Cancelling.{Cancels};
ghost use Rattle.commit_flow.specs.Flows.{seen_after, seen_of};
ghost use Rattle.commit_flow.specs.Running.{AsksWrite, AwaitsWrite, GivesWrite};
ghost use Rattle.commit_flow.specs.WriteHolds.{nothing_begun};

use crate::cancelling::cancel;
use crate::end::WriteEnd;
use crate::giving::give;
use crate::load::Load;
use crate::next::next;
use crate::phase::{Out, Ready};
use calls::{Flow, NodeCall, Progress, Reply};
use names::CallName;
use std::alloc::Global;
use std::marker::Model;
use tuples::{Refusal, Shards, Write};

/// A write on its way: `begin`; each participant is caught up to the intent's place and prepares; each votes; `decide`; `outcome`. A refusal before the
/// decision takes it out: `abort`, or `inquire` if the intent is spent, and with a verdict `drop_write` at each shard that gave something.
///
/// It has no `Drop`, since it holds what has to be spent: `leave` spends it.
#[must_use]
pub struct WriteFlow {
    alloc: Global,
    shards: Shards,
    ready: Ready,
}

impl Model for WriteFlow {
    ghost use Rattle.commit_flow.specs.Flows.{WriteFlowValue};

    ghost Value = { WriteFlowValue };

    ghost use Rattle.commit_flow.specs.Kept.{IsReadyOf};
    ghost use Rattle.commit_flow.specs.Views.{caught_of, flushed_of, holds_ready, name_ready, write_of};

    ghost view = { λ f. record { shards = f.shards; write = write_of f.ready; holds = holds_ready f.ready; caught = caught_of f.ready; flushed = flushed_of f.ready; next_name = name_ready f.ready } };

    ghost invariant = { λ f. IsReadyOf f.shards f.ready };
}

/// A write whose call is out: the reply has to come back here.
#[must_use]
pub struct WriteCall {
    alloc: Global,
    shards: Shards,
    out: Out,
}

impl Model for WriteCall {
    ghost use Rattle.commit_flow.specs.Flows.{WriteCallValue};

    ghost Value = { WriteCallValue };

    ghost use Rattle.commit_flow.specs.Kept.{IsOutOf};
    ghost use Rattle.commit_flow.specs.Views.{awaited_of, caught_out, flushed_out, holds_out};

    ghost view = { λ c. record { shards = c.shards; holds = holds_out c.out; caught = caught_out c.out; flushed = flushed_out c.out; awaited = awaited_of c.out } };

    ghost invariant = { λ c. IsOutOf c.shards c.out };
}

impl WriteFlow {
    /// A flow for this write, in a store of this many shards. It takes all the room that it will need; `NoMemory`.
    pub fn new(alloc: Global, shards: Shards, write: Write) -> Result<WriteFlow, Refusal>
        ensures ok { IfOk result (λ f. f ≡ record { shards = shards; write = Some write; holds = nothing_begun; caught = None; flushed = false; next_name = names.Begin }) }
        ensures err { IfErr result (λ e. e ≡ Refusal.NoMemory) }
    {
        let load = Load::new(alloc, shards)?;
        Ok(WriteFlow {
            alloc,
            shards,
            ready: Ready::Begin(write, load),
        })
    }

    /// Takes it out before its decision. Later nothing changes.
    pub fn cancel(self) -> Progress<WriteFlow, WriteEnd>
        ensures of { IfNext result (λ later. later.shards ≡ self.shards) }
        ensures cancels { Cancels (seen_of self) (seen_after result) }
    {
        let WriteFlow {
            alloc,
            shards,
            ready,
        } = self;
        match cancel(alloc, ready) {
            Progress::Next(ready) => Progress::Next(WriteFlow {
                alloc,
                shards,
                ready,
            }),
            Progress::Ended(end) => Progress::Ended(end),
        }
    }

    /// Only spends what it holds. A write that was begun and not decided stays open, and a prepared one stays in doubt.
    pub fn leave(self) {
        let WriteFlow {
            alloc: _,
            shards: _,
            ready,
        } = self;
        ready.leave();
    }
}

/// It allocates nothing.
impl Flow for WriteFlow {
    type Out = WriteCall;

    type End = WriteEnd;

    ghost named = { λ f name. name ≡ f.next_name };

    ghost is_of = { λ shards f. f.shards ≡ shards };

    ghost is_of_out = { λ shards out. out.shards ≡ shards };

    ghost asks = { AsksWrite };

    ghost awaits = { AwaitsWrite };

    ghost gives = { GivesWrite };

    fn next_name(&self) -> CallName {
        self.ready.name()
    }

    fn next_call(self) -> (NodeCall, WriteCall) {
        let WriteFlow {
            alloc,
            shards,
            ready,
        } = self;
        let (call, out) = next(shards, ready);
        (call, WriteCall { alloc, shards, out })
    }

    fn give(out: WriteCall, reply: Reply) -> Progress<WriteFlow, WriteEnd> {
        let WriteCall { alloc, shards, out } = out;
        match give(alloc, shards, out, reply) {
            Progress::Next(ready) => Progress::Next(WriteFlow {
                alloc,
                shards,
                ready,
            }),
            Progress::Ended(end) => Progress::Ended(end),
        }
    }
}
