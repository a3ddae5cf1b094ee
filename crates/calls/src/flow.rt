// What runs over the nodes of a store, one call a turn.
ghost use Rattle.std.specs.Prelude.{ℕ};
ghost use Rattle.names.specs.declared.call_name.CallName.{CallName as AnyName};
ghost use Rattle.calls.specs.Belonging.{IsOwed, IsReplyTo};
ghost use Rattle.calls.specs.Flows.{IfNext};
ghost use Rattle.calls.specs.Names.{name_of};
ghost use Rattle.calls.specs.declared.call.NodeCall.{NodeCall as AnyCall};
ghost use Rattle.calls.specs.declared.progress.Progress.{Progress as AnyProgress};
ghost use Rattle.calls.specs.declared.reply.Reply.{Reply as AnyReply};

use crate::{NodeCall, Progress, Reply};
use names::CallName;

/// A request, or a care of the nodes, that waits for its next turn. Each turn spends it: it asks for a call, somebody makes it, and the reply makes the
/// flow of the next turn or the end.
pub trait Flow: Sized {
    /// What it is while its call is out.
    type Out;

    /// How it ends.
    type End;

    /// Its next call has this name.
    ghost named: { Self → AnyName → Type 0 };

    /// It is one of a store of this many shards.
    ghost is_of: { ℕ → Self → Type 0 };

    /// And so it is while its call is out.
    ghost is_of_out: { ℕ → Self.Out → Type 0 };

    /// It asks for this call, and is that while the call is out.
    ghost asks: { Self → AnyCall → Self.Out → Type 0 };

    /// This may be the reply to the call that is out.
    ghost awaits: { Self.Out → AnyReply → Type 0 };

    /// That is what the reply makes of it.
    ghost gives: { Self.Out → AnyReply → AnyProgress Self Self.End → Type 0 };

    /// The name of its next call.
    fn next_name(&self) -> CallName
        ensures { named self.now result };

    /// Its next call, which has to be made, and what waits for the reply.
    fn next_call(self) -> (NodeCall, Self::Out)
        ensures name { named self (name_of result.0) }
        ensures asks { asks self result.0 result.1 }
        ensures owed { (shards : ℕ) → is_of shards self → IsOwed shards result.0 }
        ensures awaits { (reply : AnyReply) → IsReplyTo result.0 reply → awaits result.1 reply }
        ensures of { (shards : ℕ) → is_of shards self → is_of_out shards result.1 };

    /// What the reply to its call makes of it.
    fn give(out: Self::Out, reply: Reply) -> Progress<Self, Self::End>
        requires { awaits out reply }
        ensures gives { gives out reply result }
        ensures of { (shards : ℕ) → is_of_out shards out → IfNext result (is_of shards) };
}
