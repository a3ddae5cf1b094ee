// What a client asks a store for.
use crate::{Freshness, Namespace, Tuple, Tupleset, Write};

/// What a client asks a store for. Its places may lie above or below those that the store can answer at.
#[derive(Drop)]
pub enum Request {
    /// That the changes are made, if the conditions hold.
    Write(Write),
    /// The tuples that 1 to 16 tuplesets select.
    Read {
        freshness: Freshness,
        sets: Vec<Tupleset>,
    },
    /// Whether the user is in the userset of object and relation.
    Check {
        freshness: Freshness,
        tuple: Tuple,
    },
    /// The changes after a place, of up to so many places, 1 to 256, in 1 to 16 namespaces.
    Watch {
        from: u64,
        limit: u16,
        namespaces: Vec<Namespace>,
    },
}
