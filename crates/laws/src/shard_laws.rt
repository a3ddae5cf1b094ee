// Laws of a shard's steps, each the clause of a function with an empty body.
ghost use Rattle.laws.specs.ShardLaws.{CollectsRest, DropsRest, LearnsRest, PreparesRest, ShardOpeningsRest};

use crate::contents::Contents;

/// A prepare of a write that is not listed leaves all nodes at rest.
pub fn prepares_leave_all_at_rest<W: Contents>()
    ensures { PreparesRest W.coordinator W.shard W.shard_after }
{}

/// So does a drop of a write that is not listed above the horizon.
pub fn drops_leave_all_at_rest<W: Contents>()
    ensures { DropsRest W.coordinator W.shard W.shard_after }
{}

/// So does the record of learning writes that are kept.
pub fn learned_writes_leave_all_at_rest<W: Contents>()
    ensures { LearnsRest W.coordinator W.shard W.shard_after }
{}

/// So does a horizon at or below that of the whole store.
pub fn collected_rows_leave_all_at_rest<W: Contents>()
    ensures { CollectsRest W.coordinator W.shard W.shard_after }
{}

/// So does an opening.
pub fn openings_of_shards_leave_all_at_rest<W: Contents>()
    ensures { ShardOpeningsRest W.coordinator W.shard W.shard_after }
{}
