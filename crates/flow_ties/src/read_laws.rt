// Laws of a read, each the clause of a function with an empty body.
ghost use Rattle.flow_ties.specs.Reads.{ReadsAnswerWhatIsSeen, ReadsAtRestHaveReason, ReadsBegin, ReadsBeginAtPlaces, ReadsBeginForAReason, ReadsHandOverWhatIsSeen, ReadsRefuseForAReason, ReadsStaySeen};

/// A read that has no place yet holds nothing.
pub fn reads_begin()
    ensures { ReadsBegin }
{}

/// A read that begins at a place of the list holds nothing of it yet.
pub fn reads_begin_at_places()
    ensures { ReadsBeginAtPlaces }
{}

/// What a read holds is also of each longer list.
pub fn reads_stay_seen()
    ensures { ReadsStaySeen }
{}

/// A batch that a read hands to a shard is a part of the list.
pub fn reads_hand_over_what_is_seen()
    ensures { ReadsHandOverWhatIsSeen }
{}

/// If the reply to its call tells what is of the list, a read still holds what is of the list; and what it answers is what its tuplesets select there.
pub fn reads_answer_what_is_seen()
    ensures { ReadsAnswerWhatIsSeen }
{}

/// A read between two calls has not been refused.
pub fn reads_at_rest_have_reason()
    ensures { ReadsAtRestHaveReason }
{}

/// A read that begins at a place of the list is refused only for lack of memory.
pub fn reads_begin_for_a_reason()
    ensures { ReadsBeginForAReason }
{}

/// A read is refused only if a reply has told it, memory is refused, or the place that was asked for is not there.
pub fn reads_refuse_for_a_reason()
    ensures { ReadsRefuseForAReason }
{}
