// What a caller has of the one state.
use tuples::Entry;

/// A write that a caller began, and whether it gave its intent up for a decision. A caller's goods are a list of these. No value of it is made.
pub struct Begun {
    pub write: Entry,
    pub is_decided: bool,
}
