// What a call answered, with what comes back.
ghost use Rattle.std.specs.Prelude.{◌≡◌};
ghost use Rattle.calls.specs.Refusing.{coordinator_error, error_of as error, refused_by, shard_error};

use crate::Boxed;
use coordinator::{Decided, Inquiry, NotDecided, NotRaised, Outcome};
use decisions::{Batch, Heads, Intent, Settled, Ticket, Verdict};
use shard::{ReadReply, VoteReply};
use tuples::{Refusal, Tupleset, User, Userset, WriteId};

/// The answer of the coordinator.
#[must_use]
pub enum CoordinatorReply {
    Begin(Result<Intent, Refusal>),
    Heads(Result<Heads, Refusal>),
    Batch(Result<Batch, Refusal>),
    Decide(Result<Decided, NotDecided>),
    Outcome(Outcome),
    Abort(Result<Verdict, Refusal>),
    Inquire(Result<Inquiry, Refusal>),
    Raise(Result<(), NotRaised>),
    Flush(Result<(), Refusal>),
    Checkpoint(Result<(), Refusal>),
}

/// The answer of a shard, after what was only lent.
#[must_use]
pub enum ShardReply {
    Learned(Result<u64, Refusal>),
    Learn(Batch, Result<bool, Refusal>),
    StagePrepare(Intent, Result<Ticket, Refusal>),
    Vote(VoteReply),
    DropWrite(Verdict, Result<(), Refusal>),
    InDoubt(Result<Vec<WriteId>, Refusal>),
    Read(Boxed<Tupleset>, Result<ReadReply, Refusal>),
    ReadForCheck(Boxed<Userset>, Boxed<User>, Result<ReadReply, Refusal>),
    Settle(Result<Settled, Refusal>),
    Collect(Heads, Result<(), Refusal>),
    Flush(Result<(), Refusal>),
    Checkpoint(Result<(), Refusal>),
}

/// The answer to a call. It may carry values that have to be spent, so it has to go to the flow that asked.
#[must_use]
pub enum Reply {
    Coordinator(CoordinatorReply),
    Shard(ShardReply),
}

// The refusal of an answer, if it is one.
fn error_of<T>(answer: &Result<T, Refusal>) -> Option<Refusal>
    ensures { result ≡ error answer.now }
{
    match answer {
        Ok(_) => None,
        Err(refusal) => Some(*refusal),
    }
}

fn leave_begun(answer: Result<Intent, Refusal>) {
    if let Ok(intent) = answer {
        intent.leave();
    }
}

fn leave_decided(answer: Result<Decided, NotDecided>) {
    match answer {
        Ok(decided) => decided.leave(),
        Err(refused) => refused.leave(),
    }
}

fn leave_prepared(answer: Result<Ticket, Refusal>) {
    if let Ok(ticket) = answer {
        ticket.leave();
    }
}

fn leave_vote(answer: VoteReply) {
    match answer {
        VoteReply::Yes(vote) => vote.leave(),
        VoteReply::Later(ticket) => ticket.leave(),
        VoteReply::No(_) => {}
    }
}

impl CoordinatorReply {
    fn refusal(&self) -> Option<Refusal>
        ensures { result ≡ coordinator_error self.now }
    {
        match self {
            CoordinatorReply::Begin(answer) => error_of(answer),
            CoordinatorReply::Heads(answer) => error_of(answer),
            CoordinatorReply::Batch(answer) => error_of(answer),
            CoordinatorReply::Decide(Ok(_)) => None,
            CoordinatorReply::Decide(Err(refused)) => Some(refused.refusal),
            CoordinatorReply::Outcome(Outcome::Unsure) => Some(Refusal::Unsure),
            CoordinatorReply::Outcome(Outcome::Kept(_) | Outcome::Later(_)) => None,
            CoordinatorReply::Abort(answer) => error_of(answer),
            CoordinatorReply::Inquire(answer) => error_of(answer),
            CoordinatorReply::Raise(Ok(())) => None,
            CoordinatorReply::Raise(Err(refused)) => Some(refused.refusal),
            CoordinatorReply::Flush(answer) => error_of(answer),
            CoordinatorReply::Checkpoint(answer) => error_of(answer),
        }
    }

    fn leave(self) {
        match self {
            CoordinatorReply::Begin(answer) => leave_begun(answer),
            CoordinatorReply::Decide(answer) => leave_decided(answer),
            CoordinatorReply::Outcome(outcome) => outcome.leave(),
            CoordinatorReply::Heads(_)
            | CoordinatorReply::Batch(_)
            | CoordinatorReply::Abort(_)
            | CoordinatorReply::Inquire(_)
            | CoordinatorReply::Raise(_)
            | CoordinatorReply::Flush(_)
            | CoordinatorReply::Checkpoint(_) => {}
        }
    }
}

impl ShardReply {
    fn refusal(&self) -> Option<Refusal>
        ensures { result ≡ shard_error self.now }
    {
        match self {
            ShardReply::Learned(answer) => error_of(answer),
            ShardReply::Learn(_, answer) => error_of(answer),
            ShardReply::StagePrepare(_, answer) => error_of(answer),
            ShardReply::Vote(VoteReply::No(refusal)) => Some(*refusal),
            ShardReply::Vote(VoteReply::Yes(_) | VoteReply::Later(_)) => None,
            ShardReply::DropWrite(_, answer) => error_of(answer),
            ShardReply::InDoubt(answer) => error_of(answer),
            ShardReply::Read(_, answer) => error_of(answer),
            ShardReply::ReadForCheck(_, _, answer) => error_of(answer),
            ShardReply::Settle(answer) => error_of(answer),
            ShardReply::Collect(_, answer) => error_of(answer),
            ShardReply::Flush(answer) => error_of(answer),
            ShardReply::Checkpoint(answer) => error_of(answer),
        }
    }

    fn leave(self) {
        match self {
            ShardReply::StagePrepare(intent, answer) => {
                intent.leave();
                leave_prepared(answer);
            }
            ShardReply::Vote(answer) => leave_vote(answer),
            ShardReply::Learn(batch, _) => drop(batch),
            ShardReply::DropWrite(verdict, _) => drop(verdict),
            ShardReply::InDoubt(answer) => drop(answer),
            ShardReply::Read(set, answer) => {
                drop(set);
                drop(answer);
            }
            ShardReply::ReadForCheck(userset, user, answer) => {
                drop(userset);
                drop(user);
                drop(answer);
            }
            ShardReply::Settle(answer) => drop(answer),
            ShardReply::Collect(heads, _) => drop(heads),
            ShardReply::Learned(_) | ShardReply::Flush(_) | ShardReply::Checkpoint(_) => {}
        }
    }
}

impl Reply {
    /// The refusal that it carries.
    pub fn refusal(&self) -> Option<Refusal>
        ensures { result ≡ refused_by self.now }
    {
        match self {
            Reply::Coordinator(reply) => reply.refusal(),
            Reply::Shard(reply) => reply.refusal(),
        }
    }

    /// Only spends what it carries: a write that was begun stays open, and one that is prepared stays in doubt.
    pub fn leave(self) {
        match self {
            Reply::Coordinator(reply) => reply.leave(),
            Reply::Shard(reply) => reply.leave(),
        }
    }
}
