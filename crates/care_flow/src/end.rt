// How a care ends.
ghost use Rattle.std.specs.Prelude.{◌≡◌};
ghost use Rattle.care_flow.specs.Ends.{ended_by};

use tuples::{Refusal, WriteId};

/// What became of a write that was in doubt.
#[derive(Clone, Copy, Debug, PartialEq, Eq)]
pub enum Resolved {
    /// It is decided at this place, and the shard has learned up to it.
    Committed(WriteId, u64),
    /// No place above the horizon has it, now or later: it was aborted, or is forgotten below the horizon. It is in doubt no longer, or stays so if
    /// the shard's batch is full.
    Aborted(WriteId),
    /// It is open, or its decision is staged, so it stays in doubt.
    Undecided(WriteId),
}

/// How a care ended.
#[derive(Drop, Debug)]
pub enum CareEnd {
    Done,
    /// What became of each write that was in doubt, in their order.
    Resolved(Vec<Resolved>),
    Refused(Refusal),
}

/// How a care ends by the answer to its last call.
pub(crate) fn end_by(answer: Result<(), Refusal>) -> CareEnd
    ensures { result ≡ ended_by answer }
{
    match answer {
        Ok(()) => CareEnd::Done,
        Err(refusal) => CareEnd::Refused(refusal),
    }
}
