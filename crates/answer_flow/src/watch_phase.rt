// Where a watch is between two of its calls, and while one is out.
ghost use Rattle.std.specs.Prelude.{◌≡◌};
ghost use Rattle.answer_flow.specs.WatchViews.{name_of, step_ready};

use decisions::Heads;
use names::CallName;
use std::alloc::Global;
use tuples::{Namespace, Refusal, Version};

/// What a watch is asked.
#[derive(Drop)]
pub(crate) struct AskedWatch {
    pub(crate) alloc: Global,
    pub(crate) cursor: u64,
    pub(crate) limit: u64,
    pub(crate) namespaces: Vec<Namespace>,
}

/// How a watch ended.
#[derive(Drop)]
pub enum WatchEnd {
    /// The place up to which the events are all, and these, in the order of the log.
    Answered(u64, Vec<Version>),
    Refused(Refusal),
}

/// Its next call.
#[derive(Drop)]
pub(crate) enum Ready {
    Heads,
    Flush,
    /// By these heads the cursor is kept.
    Batch(Heads),
}

impl Ready {
    pub(crate) fn name(&self) -> CallName
        ensures { result ≡ name_of (step_ready self.now) }
    {
        match self {
            Ready::Heads => CallName::Heads,
            Ready::Flush => CallName::Flush,
            Ready::Batch(_) => CallName::Batch,
        }
    }
}

/// The call that is out, with what stays here.
#[derive(Drop)]
pub(crate) enum Out {
    Heads,
    Flush,
    Batch(Heads),
}
