// The limits of the store.

/// The most changes of one write; each has at least one.
pub const MAX_CHANGES: usize = 64;

/// The most conditions of one write.
pub const MAX_CONDITIONS: usize = 16;

/// The most shards of a store; each store has at least one.
pub const MAX_SHARDS: u8 = 64;

/// The greatest place, epoch, number of a write and generation.
pub const MAX_NUMBER: u64 = (1 << 63) - 1;

/// The most tuplesets of a read, and the most namespaces of a watch; each has at least one.
pub const MAX_ASKED: usize = 16;

/// The most places whose changes a watch asks for; it asks for at least one.
pub const MAX_WATCHED: u64 = 256;

/// The most usersets that one check walks.
pub const MAX_WALKED: usize = 4_096;

/// The most bytes of a line, of a session or of a script, without its line feed.
pub const MAX_LINE: usize = 262_144;

/// The most flows that run at a time in one store.
pub const MAX_FLOWS: usize = 1_024;

/// The most writes that are begun and not decided in one store.
pub const MAX_OPEN: usize = 1_024;

/// The most decisions that a coordinator tells at once.
pub const MAX_BATCH: usize = 256;
