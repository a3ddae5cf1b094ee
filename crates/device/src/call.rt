// The calls that change what a stop of a disk in memory may leave.
use crate::Tear;

/// A call that was made, with all that is needed to make it again.
#[derive(Drop)]
pub(crate) enum Call {
    Write { at: usize, bytes: Vec<u8> },
    Sync,
    Revive(Tear),
}
