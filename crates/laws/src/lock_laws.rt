// Laws of writes in doubt, each the clause of a function with an empty body.
ghost use Rattle.laws.specs.LockLaws.{ConditionsHoldAsKnown, ConditionsHoldByParts, DecisionsLeaveConditions, DoubtsAreApart, MetConditionsAreMetHere, PreparableConditionsHold};

/// No two writes in doubt at a shard name one tuple, whatever its records are.
pub fn writes_in_doubt_are_apart()
    ensures { DoubtsAreApart }
{}

/// A decision leaves the conditions of another write's part as they are, at a shard that has both in doubt.
pub fn decisions_leave_conditions()
    ensures { DecisionsLeaveConditions }
{}

/// The conditions of a write hold if those of each participant's part do.
pub fn conditions_hold_by_parts()
    ensures { ConditionsHoldByParts }
{}

/// A condition that holds after the log holds as far as the coordinator's decisions tell.
pub fn conditions_hold_as_known()
    ensures { ConditionsHoldAsKnown }
{}

/// What a shard tests of its part before it prepares it holds after the whole log, including decisions that it has not learned.
pub fn preparable_conditions_hold()
    ensures { PreparableConditionsHold }
{}

/// A condition that is met after the whole log is met by the rows of its tuple's shard, if no write in doubt there names the tuple.
pub fn met_conditions_are_met_here()
    ensures { MetConditionsAreMetHere }
{}
