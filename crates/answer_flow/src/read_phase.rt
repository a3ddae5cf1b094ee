// Where a read is between two of its calls, and while one is out.
ghost use Rattle.std.specs.Prelude.{◌≡◌, ◌≤◌};
ghost use Rattle.answer_flow.specs.ReadViews.{name_ready};

use calls::Boxed;
use catch_up::{CatchUp, CatchUpCall};
use names::CallName;
use std::alloc::Global;
use tuples::{Freshness, Refusal, Shards, Tuple, Tupleset};

/// What a read is asked, in a store of so many shards.
#[derive(Drop)]
pub(crate) struct AskedRead {
    pub(crate) alloc: Global,
    pub(crate) shards: Shards,
    pub(crate) freshness: Freshness,
    pub(crate) sets: Vec<Tupleset>,
}

/// What was gathered at the place: the rows of each tupleset that is done, and of the next one those of the shards below a number.
#[derive(Drop)]
pub(crate) struct Gathered {
    pub(crate) place: u64,
    pub(crate) done: Vec<Vec<Tuple>>,
    pub(crate) below: u8,
    pub(crate) rows: Vec<Tuple>,
}

/// How a read ended.
#[derive(Drop)]
pub enum ReadEnd {
    /// The place, and the rows of each tupleset there.
    Answered(u64, Vec<Vec<Tuple>>),
    Refused(Refusal),
}

/// A read that has ended.
#[derive(Drop)]
pub struct ReadDone {
    pub end: ReadEnd,
    /// Those that it was asked for.
    pub sets: Vec<Tupleset>,
}

/// Its next call.
#[derive(Drop)]
pub(crate) enum Ready {
    Heads,
    Flush,
    CatchUp(Gathered, Boxed<Tupleset>, CatchUp),
    Read(Gathered, Boxed<Tupleset>),
}

impl Ready {
    pub(crate) fn name(&self) -> CallName
        ensures { result ≡ name_ready self.now }
    {
        match self {
            Ready::Heads => CallName::Heads,
            Ready::Flush => CallName::Flush,
            Ready::CatchUp(_, _, catch_up) => catch_up.next_name(),
            Ready::Read(_, _) => CallName::Read,
        }
    }
}

/// The call that is out, with what stays here.
#[derive(Drop)]
pub(crate) enum Out {
    Heads,
    Flush,
    CatchUp(Gathered, Boxed<Tupleset>, CatchUpCall),
    Read(Gathered),
}
