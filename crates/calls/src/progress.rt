// What a reply made of a flow.
/// What the reply to its call made of a flow.
#[must_use]
pub enum Progress<F, E> {
    /// It waits for its next turn.
    Next(F),
    /// It has ended.
    Ended(E),
}
