// The numbers of the format of a batch.

/// The version that is written. Version 1 is read too: its conditions are places alone.
pub const VERSION: u8 = 2;

/// The version that has no kinds of conditions.
pub(crate) const FIRST_VERSION: u8 = 1;

/// The most records of a batch; each has at least one.
pub const MAX_RECORDS: usize = 65_535;

/// The most placed ids of one `Learned` record.
pub const MAX_PLACED_IDS: usize = 256;

/// The kind of a `Prepare` record.
pub(crate) const PREPARE: u8 = 1;

/// The kind of a `Learned` record.
pub(crate) const LEARNED: u8 = 2;

/// The kind of a `Dropped` record.
pub(crate) const DROPPED: u8 = 3;

/// The kind of an `Epoch` record.
pub(crate) const EPOCH: u8 = 4;

/// The kind of a `Decision` record.
pub(crate) const DECISION: u8 = 5;

/// The kind of a `Horizon` record.
pub(crate) const HORIZON: u8 = 6;

/// The kind of a record that marks a checkpoint.
pub(crate) const CHECKPOINT: u8 = 7;

/// The kind of a mark with which a checkpoint begins.
pub(crate) const BEGINS: u8 = 0;

/// The kind of a mark that is a version.
pub(crate) const ROW: u8 = 1;

/// The kind of a mark with which a checkpoint ends.
pub(crate) const ENDS: u8 = 2;

/// The kind of a user that is one id.
pub(crate) const USER_ID: u8 = 1;

/// The kind of a user that is a userset.
pub(crate) const USER_SET: u8 = 2;

/// The kind of a change after which the tuple is there.
pub(crate) const TOUCH: u8 = 1;

/// The kind of a change after which the tuple is not there.
pub(crate) const DELETE: u8 = 2;

/// The kind of a condition that a tuple was not changed after a place.
pub(crate) const NOT_AFTER: u8 = 1;

/// The kind of a condition that a tuple is there.
pub(crate) const EXISTS: u8 = 2;

/// The kind of a condition that a tuple is not there.
pub(crate) const ABSENT: u8 = 3;
