// Where a check is between two of its calls, and while one is out.
ghost use Rattle.std.specs.Prelude.{◌≡◌, ◌≤◌};
ghost use Rattle.answer_flow.specs.CheckViews.{name_ready};

use crate::walk::Walk;
use calls::Boxed;
use catch_up::{CatchUp, CatchUpCall};
use names::CallName;
use std::alloc::Global;
use tuples::{Freshness, Refusal, Shards, User, Userset};

/// About whom a check is asked, in a store of so many shards.
#[derive(Drop)]
pub(crate) struct AskedCheck {
    pub(crate) alloc: Global,
    pub(crate) shards: Shards,
    pub(crate) freshness: Freshness,
    pub(crate) user: User,
}

/// How a check ended.
#[derive(Clone, Copy, Debug, PartialEq, Eq)]
pub enum CheckEnd {
    /// The place, and whether the user is a member there.
    Answered(u64, bool),
    Refused(Refusal),
}

/// A check that has ended.
#[derive(Drop)]
pub struct CheckDone {
    pub end: CheckEnd,
    /// About whom it was asked.
    pub user: User,
}

/// What a shard is asked of a userset, about a user.
#[derive(Drop)]
pub(crate) struct Question {
    pub(crate) userset: Boxed<Userset>,
    pub(crate) user: Boxed<User>,
}

/// Its next call.
#[derive(Drop)]
pub(crate) enum Ready {
    Heads(Walk),
    Flush(Walk),
    CatchUp(u64, Walk, CatchUp),
    Read(u64, Walk, Question),
}

impl Ready {
    pub(crate) fn name(&self) -> CallName
        ensures { result ≡ name_ready self.now }
    {
        match self {
            Ready::Heads(_) => CallName::Heads,
            Ready::Flush(_) => CallName::Flush,
            Ready::CatchUp(_, _, catch_up) => catch_up.next_name(),
            Ready::Read(_, _, _) => CallName::Read,
        }
    }
}

/// The call that is out, with what stays here.
#[derive(Drop)]
pub(crate) enum Out {
    Heads(Walk),
    Flush(Walk),
    CatchUp(u64, Walk, CatchUpCall),
    Read(u64, Walk),
}
