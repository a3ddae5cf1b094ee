// Laws of the steps of nodes that agree, each the clause of a function with an empty body.
ghost use Rattle.accord.specs.Agreeing.{UnmadeNodesAgree};
ghost use Rattle.accord.specs.Coordinators.{DecisionsAgree, LandingsAgree, OpeningsAgree, VotesStayAtDecisions};
ghost use Rattle.accord.specs.Shards.{BatchesAreLearnable, PreparesAgree, VotesStayAtPrepares};

/// Nodes that were never made agree on the empty list.
pub fn unmade_nodes_agree()
    ensures { UnmadeNodesAgree }
{}

/// A decision of an open write for which each of its shards has voted leaves all nodes in agreement, over the list with that write.
pub fn decisions_agree()
    ensures { DecisionsAgree }
{}

/// What was voted for stays prepared when another write is decided.
pub fn votes_stay_at_decisions()
    ensures { VotesStayAtDecisions }
{}

/// A landing of the coordinator leaves all nodes in agreement, whatever was staged since. What is durable now is kept, and the horizon follows.
pub fn landings_agree()
    ensures { LandingsAgree }
{}

/// An opening of the coordinator cuts the list to what was found, and leaves all nodes in agreement.
pub fn openings_agree()
    ensures { OpeningsAgree }
{}

/// A prepare of a write that is not listed leaves all nodes in agreement.
pub fn prepares_agree()
    ensures { PreparesAgree }
{}

/// What was voted for stays prepared when another write is prepared.
pub fn votes_stay_at_prepares()
    ensures { VotesStayAtPrepares }
{}

/// A shard is never damaged by what it is to learn of the list.
pub fn batches_are_learnable()
    ensures { BatchesAreLearnable }
{}
