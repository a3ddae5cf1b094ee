// At which place an answer is wanted.

/// At which place an answer is wanted. Its place may lie above or below those that the store can answer at.
#[derive(Clone, Copy, Debug, PartialEq, Eq)]
pub enum Freshness {
    /// The latest place that is kept.
    Latest,
    /// A kept place that is not below this one.
    AtLeast(u64),
    /// This place alone.
    Exact(u64),
}
