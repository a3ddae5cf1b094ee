// A change with the place of its write.
use crate::Change;

/// A change with the place of its write in the log, from 1 on.
#[derive(Clone, Drop, PartialEq, Eq)]
pub struct Version {
    pub place: u64,
    pub change: Change,
}
