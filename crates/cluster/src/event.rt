// What steps report.
use care_flow::Resolved;
use names::CallName;
use tuples::{Refusal, Tuple, Version};

/// How a flow ended that was not refused.
#[derive(Drop)]
pub enum Answer {
    /// The write has this place.
    Wrote(u64),
    /// The place of a read, and the rows of each tupleset there.
    Selected(u64, Vec<Vec<Tuple>>),
    /// The place of a check, and whether the user is a member there.
    Checked(u64, bool),
    /// The place up to which the changes of a watch are complete, and these.
    Listed(u64, Vec<Version>),
    /// What became of each write that was in doubt.
    Resolved(Vec<Resolved>),
    /// A care that reports nothing more.
    Done,
}

/// What a step reports.
#[derive(Drop)]
pub enum What {
    /// A flow has begun in this slot.
    Began(usize),
    /// The flow goes on, and makes this call next.
    Next(CallName),
    /// The flow has ended, and its slot is free.
    Ended(Answer),
    /// The node is up.
    Up,
    /// The flow has ended, with its slot free, or a flow could not begin, or a node could not be opened.
    Refused(Refusal),
}

/// What the step of this number reported, in the list of steps that was run.
#[derive(Drop)]
pub struct Event {
    pub step: usize,
    pub what: What,
}
