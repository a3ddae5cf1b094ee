// The decision of a write, and what became of it.
ghost use Rattle.std.specs.Prelude.{◌≡◌, [], Some, None, true, ℕ};
ghost use Rattle.calls.specs.Flows.{IfNext};
ghost use Rattle.decisions.specs.Coordinators.{HaveVoted};
ghost use Rattle.commit_flow.specs.Answering.{ComesNext, DecideGives, FlushGives, NotDecidedGives, OutcomeGives, RefusedBack};
ghost use Rattle.commit_flow.specs.Kept.{IsReadyOf};
ghost use Rattle.commit_flow.specs.Views.{at_rest, holds_onward, name_ready, view_of, view_out, view_ready};
ghost use Rattle.commit_flow.specs.WriteHolds as awaits;
ghost use Rattle.commit_flow.specs.WriteHolds.{outward};
ghost use Rattle.calls.specs.declared.reply.Reply.TheVariants as replies;
ghost use Rattle.calls.specs.declared.reply.CoordinatorReply.TheVariants as coordinator_replies;
ghost use Rattle.commit_flow.specs.declared.phase.Out.TheVariants.{Decide as decide_out, FlushToDecide as flush_decide_out, Outcome as outcome_out};

use crate::ballot::Ballot;
use crate::end::WriteEnd;
use crate::phase::{Leaving, Ready};
use calls::Progress;
use coordinator::{Decided, NotDecided, Outcome};
use decisions::{Intent, Vote};
use std::alloc::Global;
use tuples::{Refusal, Shards, WriteId};

// The write goes out with all of its votes.
pub(crate) fn go_out_voted(
    alloc: Global,
    met: Option<Refusal>,
    intent: Intent,
    votes: Vec<Vote>,
) -> Ready
    ensures goes { view_ready result ≡ at_rest (record (holds_onward intent.write.id (Some intent) [] votes.items None) { way = outward met }) }
    ensures kept { (shards : ℕ) → IsReadyOf shards result }
{
    let id = intent.id();
    let leaving = Leaving {
        id,
        met,
        votes,
        hand: None,
        tickets: Vec::new(alloc),
    };
    Ready::Abort(intent, leaving)
}

// The write is not decided, and its intent has come back; a full coordinator is flushed once.
fn come_back(
    alloc: Global,
    shards: Shards,
    is_again: bool,
    refusal: Refusal,
    intent: Intent,
    votes: Vec<Vote>,
) -> Ready
    requires voted { HaveVoted shards intent.write votes.items }
    ensures gives { NotDecidedGives (view_out (decide_out intent.write.id is_again)) is_again refusal (Some intent) votes.items (view_ready result) }
    ensures kept { IsReadyOf shards result }
{
    if refusal != Refusal::Full || is_again {
        return go_out_voted(alloc, Some(refusal), intent, votes);
    }
    Ready::FlushToDecide(Ballot::new(shards, intent, votes))
}

/// The decision is staged, or not.
pub(crate) fn decided(
    alloc: Global,
    shards: Shards,
    id: WriteId,
    is_again: bool,
    answer: Result<Decided, NotDecided>,
) -> Ready
    requires back { RefusedBack shards id answer }
    ensures gives { DecideGives (view_out (decide_out id is_again)) is_again answer (view_ready result) }
    ensures kept { IsReadyOf shards result }
{
    match answer {
        Ok(decided) => Ready::Outcome(id, decided),
        Err(refused) => {
            let NotDecided {
                refusal,
                intent,
                votes,
            } = refused;
            match intent {
                Some(intent) => come_back(alloc, shards, is_again, refusal, intent, votes),
                None => Ready::Inquire(Leaving {
                    id,
                    met: Some(refusal),
                    votes,
                    hand: None,
                    tickets: Vec::new(alloc),
                }),
            }
        }
    }
}

/// The coordinator was flushed, and is asked again to decide.
pub(crate) fn flushed_to_decide(alloc: Global, ballot: Ballot, answer: Result<(), Refusal>) -> Ready
    ensures gives { FlushGives (view_out (flush_decide_out ballot)) true answer (view_ready result) }
    ensures kept { IsReadyOf ballot.shards result }
{
    match answer {
        Ok(()) => Ready::Decide(ballot, true),
        Err(refusal) => {
            let (_shards, intent, votes) = ballot.into_parts();
            go_out_voted(alloc, Some(refusal), intent, votes)
        }
    }
}

/// What became of the decision: it is kept, or has to be flushed first, or it is unknown.
pub(crate) fn told(id: WriteId, outcome: Outcome) -> Progress<Ready, WriteEnd>
    ensures gives { OutcomeGives (view_out (outcome_out id)) outcome (view_of result) }
    ensures next { IfNext result (λ ready. ComesNext awaits.outcome (replies.Coordinator (coordinator_replies.Outcome outcome)) (name_ready ready)) }
    ensures kept { (shards : ℕ) → IfNext result (IsReadyOf shards) }
{
    match outcome {
        Outcome::Kept(place) => Progress::Ended(WriteEnd::Wrote(place)),
        Outcome::Later(decided) => Progress::Next(Ready::FlushToOutcome(id, decided)),
        Outcome::Unsure => Progress::Ended(WriteEnd::Refused(Refusal::Unsure)),
    }
}
