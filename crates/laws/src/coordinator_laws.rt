// Laws of the coordinator's steps, each the clause of a function with an empty body.
ghost use Rattle.laws.specs.CoordinatorLaws.{DecisionsRest, FlushesRest, HorizonsRest, OpeningsRest, RestartsRest};

use crate::contents::Contents;

/// A decision leaves all nodes at rest, over the log with its write, if that write may be listed.
pub fn decisions_leave_all_at_rest<W: Contents>()
    ensures { DecisionsRest W.coordinator W.coordinator_after W.shard }
{}

/// A horizon that each shard has learned up to leaves all nodes at rest, and that of the whole store as it was.
pub fn horizons_leave_all_at_rest<W: Contents>()
    ensures { HorizonsRest W.coordinator W.coordinator_after W.shard }
{}

/// An opening of the coordinator leaves all nodes at rest, while a stop may still leave what it could leave before.
pub fn openings_of_the_coordinator_leave_all_at_rest<W: Contents>()
    ensures { OpeningsRest W.coordinator W.coordinator_after W.shard }
{}

/// Once a stop leaves only what an opening found, the log is cut to that, and holds all that was kept.
pub fn restarts_of_the_coordinator_cut_the_log<W: Contents>()
    ensures { RestartsRest W.coordinator W.coordinator_after W.shard }
{}

/// Once a stop leaves only the records that mean the whole log, all of it is kept.
pub fn flushes_of_the_coordinator_keep_all<W: Contents>()
    ensures { FlushesRest W.coordinator W.coordinator_after W.shard }
{}
