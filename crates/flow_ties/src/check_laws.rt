// Laws of a check, each the clause of a function with an empty body.
ghost use Rattle.flow_ties.specs.Checks.{ChecksAnswerWhatIsSeen, ChecksAtRestHaveReason, ChecksBegin, ChecksBeginAtPlaces, ChecksHandOverWhatIsSeen, ChecksRefuseForAReason, ChecksStaySeen};

/// A check that has no place yet has met the asked userset alone.
pub fn checks_begin()
    ensures { ChecksBegin }
{}

/// A check that begins at a place of the list has met the asked userset alone.
pub fn checks_begin_at_places()
    ensures { ChecksBeginAtPlaces }
{}

/// What a check holds is also of each longer list.
pub fn checks_stay_seen()
    ensures { ChecksStaySeen }
{}

/// A batch that a check hands to a shard is a part of the list.
pub fn checks_hand_over_what_is_seen()
    ensures { ChecksHandOverWhatIsSeen }
{}

/// If the reply to its call tells what is of the list, a check still holds what is of the list; and it answers whether the user is a member there.
pub fn checks_answer_what_is_seen()
    ensures { ChecksAnswerWhatIsSeen }
{}

/// A check between two calls has not been refused.
pub fn checks_at_rest_have_reason()
    ensures { ChecksAtRestHaveReason }
{}

/// A check is refused only if a reply has told it, memory is refused, the place that was asked for is not there, or more usersets can be reached than it
/// may walk.
pub fn checks_refuse_for_a_reason()
    ensures { ChecksRefuseForAReason }
{}
