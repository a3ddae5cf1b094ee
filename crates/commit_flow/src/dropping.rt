// A write that was refused or cancelled, on its way out.
ghost use Rattle.std.specs.Prelude.{◌≡◌, Some, None, ℕ};
ghost use Rattle.calls.specs.Flows.{IfNext};
ghost use Rattle.commit_flow.specs.Answering.{AbortGives, GoesToDrop, InquireGives, end_of};
ghost use Rattle.commit_flow.specs.Kept.{IsReadyOf};
ghost use Rattle.commit_flow.specs.Views.{view_ended, view_of, view_out};
ghost use Rattle.commit_flow.specs.WriteHolds.{outward};
ghost use Rattle.commit_flow.specs.declared.phase.Out.TheVariants.{Abort as abort_out, DropWrite as drop_out, Inquire as inquire_out};

use crate::end::WriteEnd;
use crate::load::take_first;
use crate::phase::{Leaving, Ready};
use calls::Progress;
use coordinator::Inquiry;
use decisions::{Held, Verdict};
use tuples::Refusal;

/// How a write that goes out ends.
pub(crate) fn end_by(met: Option<Refusal>) -> WriteEnd
    ensures { result ≡ end_of (outward met) }
{
    match met {
        Some(refusal) => WriteEnd::Refused(refusal),
        None => WriteEnd::Cancelled,
    }
}

/// It has ended: what the shards gave is left to later verdicts.
pub(crate) fn end(leaving: Leaving) -> Progress<Ready, WriteEnd>
    ensures gives { view_of result ≡ view_ended (end_of (outward leaving.met)) }
    ensures kept { (shards : ℕ) → IfNext result (IsReadyOf shards) }
{
    let met = leaving.met;
    leaving.leave();
    Progress::Ended(end_by(met))
}

/// The verdict goes to the next shard that gave something, votes first, since their shards come first.
fn drop_next(verdict: Verdict, mut leaving: Leaving) -> Progress<Ready, WriteEnd>
    ensures gives { GoesToDrop (view_out (drop_out leaving)) verdict.id (view_of result) }
    ensures kept { (shards : ℕ) → IfNext result (IsReadyOf shards) }
{
    if let Some(vote) = take_first(&mut leaving.votes) {
        let shard = vote.shard();
        return Progress::Next(Ready::DropWrite(verdict, leaving, shard, Held::Vote(vote)));
    }
    if let Some((shard, ticket)) = leaving.hand.take() {
        return Progress::Next(Ready::DropWrite(verdict, leaving, shard, Held::Ticket(ticket)));
    }
    if let Some((shard, ticket)) = take_first(&mut leaving.tickets) {
        return Progress::Next(Ready::DropWrite(verdict, leaving, shard, Held::Ticket(ticket)));
    }
    end(leaving)
}

/// The coordinator has aborted the write, or not.
pub(crate) fn aborted(
    leaving: Leaving,
    answer: Result<Verdict, Refusal>,
) -> Progress<Ready, WriteEnd>
    ensures gives { AbortGives (view_out (abort_out leaving)) answer (view_of result) }
    ensures kept { (shards : ℕ) → IfNext result (IsReadyOf shards) }
{
    match answer {
        Ok(verdict) => drop_next(verdict, leaving),
        Err(_) => end(leaving),
    }
}

/// What the coordinator knows of a write whose intent is spent.
pub(crate) fn inquired(
    leaving: Leaving,
    answer: Result<Inquiry, Refusal>,
) -> Progress<Ready, WriteEnd>
    ensures gives { InquireGives (view_out (inquire_out leaving)) answer (view_of result) }
    ensures kept { (shards : ℕ) → IfNext result (IsReadyOf shards) }
{
    match answer {
        Ok(Inquiry::Abort(verdict)) => drop_next(verdict, leaving),
        Ok(Inquiry::Commit(_)) => end(leaving),
        Ok(Inquiry::Undecided) => end(leaving),
        Err(_) => end(leaving),
    }
}

/// A shard has dropped the write, or is down: the next one's turn has come.
pub(crate) fn dropped(leaving: Leaving, verdict: Verdict) -> Progress<Ready, WriteEnd>
    ensures gives { GoesToDrop (view_out (drop_out leaving)) verdict.id (view_of result) }
    ensures kept { (shards : ℕ) → IfNext result (IsReadyOf shards) }
{
    drop_next(verdict, leaving)
}
