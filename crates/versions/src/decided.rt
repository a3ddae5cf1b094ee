// The changes of a write that has a place.
use tuples::Change;

/// The changes of a write, and its place.
#[derive(Clone, Copy)]
pub struct PlacedChanges<'a> {
    pub place: u64,
    pub changes: &'a [Change],
}
