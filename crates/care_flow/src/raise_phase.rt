// The phases of a raise: between two of its calls, and while one is out.
use crate::gathering::{Gathered, Gathering};
use catch_up::{CatchUp, CatchUpCall};
use decisions::Heads;

/// Its next call.
#[derive(Drop)]
pub(crate) enum Ready {
    /// Is the place kept?
    Ask,
    /// It is decided, and not kept yet.
    FlushToAsk,
    /// One shard after another.
    CatchUp(Gathering, CatchUp),
    Flush(Gathering),
    Settle(Gathering),
    /// Whether the coordinator was flushed for it already.
    Raise(Gathered, bool),
    /// The coordinator has no room for the record.
    FlushToRaise(Gathered),
    /// The horizon counts once it is durable.
    FlushRaised(Heads),
}

/// The call that is out, with what stays here.
#[derive(Drop)]
pub(crate) enum Out {
    Ask,
    FlushToAsk,
    CatchUp(Gathering, CatchUpCall),
    Flush(Gathering),
    Settle(Gathering),
    Raise(Heads, bool),
    FlushToRaise(Gathered),
    FlushRaised(Heads),
}
