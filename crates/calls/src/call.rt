// The calls of nodes, with what is handed in.
use crate::Boxed;
use coordinator::Decided;
use decisions::{Batch, Heads, Held, Intent, Settled, Ticket, Verdict, Vote};
use names::{CallName, NodeName};
use tuples::{Tupleset, User, Userset, Write, WriteId};

/// A call of the coordinator.
#[must_use]
pub enum CoordinatorCall {
    Begin(Write),
    Heads,
    /// The decisions after the first place, up to the second.
    Batch(u64, u64),
    Decide(Intent, Vec<Vote>),
    Outcome(Decided),
    Abort(Intent),
    Inquire(WriteId),
    Raise(u64, Vec<Settled>),
    Flush,
    Checkpoint,
}

/// A call of a shard.
#[must_use]
pub enum ShardCall {
    Learned,
    Learn(Batch),
    StagePrepare(Intent),
    Vote(Ticket),
    DropWrite(Verdict, Option<Held>),
    InDoubt,
    Read(u64, Boxed<Tupleset>),
    /// What a check asks of a userset, about a user.
    ReadForCheck(u64, Boxed<Userset>, Boxed<User>),
    Settle,
    Collect(Heads),
    Flush,
    Checkpoint,
}

/// A call of one node of the store. It carries values that have to be spent, so it has to be made.
#[must_use]
pub enum NodeCall {
    Coordinator(CoordinatorCall),
    /// For the shard with this number.
    Shard(u8, ShardCall),
}

impl CoordinatorCall {
    ghost use Rattle.std.specs.Prelude.{◌≡◌};
    ghost use Rattle.calls.specs.Names.{name_at_coordinator};

    /// Its name.
    pub fn name(&self) -> CallName
        ensures { result ≡ name_at_coordinator self.now }
    {
        match self {
            CoordinatorCall::Begin(_) => CallName::Begin,
            CoordinatorCall::Heads => CallName::Heads,
            CoordinatorCall::Batch(_, _) => CallName::Batch,
            CoordinatorCall::Decide(_, _) => CallName::Decide,
            CoordinatorCall::Outcome(_) => CallName::Outcome,
            CoordinatorCall::Abort(_) => CallName::Abort,
            CoordinatorCall::Inquire(_) => CallName::Inquire,
            CoordinatorCall::Raise(_, _) => CallName::Raise,
            CoordinatorCall::Flush => CallName::Flush,
            CoordinatorCall::Checkpoint => CallName::Checkpoint,
        }
    }
}

impl ShardCall {
    ghost use Rattle.std.specs.Prelude.{◌≡◌};
    ghost use Rattle.calls.specs.Names.{name_at_shard};
    ghost use Rattle.calls.specs.Reading.{is_read};

    /// Whether it reads tuples, and leaves the shard as it is.
    pub fn is_read(&self) -> bool
        ensures { result ≡ is_read self.now }
    {
        matches!(
            self,
            ShardCall::Read(_, _) | ShardCall::ReadForCheck(_, _, _)
        )
    }

    /// Its name.
    pub fn name(&self) -> CallName
        ensures { result ≡ name_at_shard self.now }
    {
        match self {
            ShardCall::Learned => CallName::Learned,
            ShardCall::Learn(_) => CallName::Learn,
            ShardCall::StagePrepare(_) => CallName::StagePrepare,
            ShardCall::Vote(_) => CallName::Vote,
            ShardCall::DropWrite(_, _) => CallName::DropWrite,
            ShardCall::InDoubt => CallName::InDoubt,
            ShardCall::Read(_, _) => CallName::Read,
            ShardCall::ReadForCheck(_, _, _) => CallName::Read,
            ShardCall::Settle => CallName::Settle,
            ShardCall::Collect(_) => CallName::Collect,
            ShardCall::Flush => CallName::Flush,
            ShardCall::Checkpoint => CallName::Checkpoint,
        }
    }
}

impl NodeCall {
    ghost use Rattle.std.specs.Prelude.{◌≡◌};
    ghost use Rattle.calls.specs.Names.{name_of, node_of};

    /// The node that is called.
    pub fn node(&self) -> NodeName
        ensures { result ≡ node_of self.now }
    {
        match self {
            NodeCall::Coordinator(_) => NodeName::Coordinator,
            NodeCall::Shard(shard, _) => NodeName::Shard(*shard),
        }
    }

    /// Its name.
    pub fn name(&self) -> CallName
        ensures { result ≡ name_of self.now }
    {
        match self {
            NodeCall::Coordinator(call) => call.name(),
            NodeCall::Shard(_, call) => call.name(),
        }
    }
}
