// Laws of what a stop may leave, each the clause of a function with an empty body.
ghost use Rattle.laws.specs.StopLaws.{EmptyRests, FlushesLeaveLess, HorizonRises, LessRests, WholeRests};

use crate::contents::Contents;

/// If a stop leaves less, all nodes stay at rest.
pub fn less_leaves_all_at_rest<W: Contents>()
    ensures { LessRests W.coordinator W.coordinator_after W.shard W.shard_after }
{}

/// What a stop leaves after a flush, whatever the flush answered, it could leave before, with what was staged or without.
pub fn flushes_leave_less<W: Contents>()
    ensures { FlushesLeaveLess W.coordinator W.coordinator_after W.shard W.shard_after }
{}

/// The horizon of the whole store may rise as far as the coordinator's in whatever a stop leaves of it.
pub fn the_horizon_may_rise<W: Contents>()
    ensures { HorizonRises W.coordinator W.coordinator_after W.shard W.shard_after }
{}

/// Records mean the whole log if, left alone, they rest with all of it kept: so what leaves nodes at rest leaves that too.
pub fn the_whole_log_rests<W: Contents>()
    ensures { WholeRests W.coordinator W.coordinator_after W.shard W.shard_after }
{}

/// Unmade nodes, or nodes that were opened once, rest for the empty log.
pub fn an_empty_store_rests<W: Contents>()
    ensures { EmptyRests W.coordinator W.coordinator_after W.shard W.shard_after }
{}
