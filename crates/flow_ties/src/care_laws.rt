// Laws of a care, each the clause of a function with an empty body.
ghost use Rattle.flow_ties.specs.Cares.{CaresBegin, CaresGoOn, CaresHandOverWhatIsSeen, CaresStaySeen};

/// A care that begins holds nothing.
pub fn cares_begin()
    ensures { CaresBegin }
{}

/// What a care holds is also of each longer list, and of each later horizon.
pub fn cares_stay_seen()
    ensures { CaresStaySeen }
{}

/// A batch that a care hands to a shard is a part of the list, and a shard collects up to a horizon that was seen.
pub fn cares_hand_over_what_is_seen()
    ensures { CaresHandOverWhatIsSeen }
{}

/// If the reply to its call tells what is of the list and of the horizon, a care still holds what is of them.
pub fn cares_go_on()
    ensures { CaresGoOn }
{}
