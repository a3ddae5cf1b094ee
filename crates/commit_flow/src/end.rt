// How a write ends.
use tuples::Refusal;

/// How a write ended.
#[derive(Clone, Copy, Debug, PartialEq, Eq)]
pub enum WriteEnd {
    /// It has this place, which every stop leaves.
    Wrote(u64),
    Refused(Refusal),
    /// It was cancelled before its decision.
    Cancelled,
}
