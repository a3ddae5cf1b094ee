// Laws of a watch, each the clause of a function with an empty body.
ghost use Rattle.flow_ties.specs.Watches.{WatchesAtRestHaveReason, WatchesBegin, WatchesListWhatIsSeen, WatchesRefuseForAReason, WatchesStaySeen};

/// A watch that begins holds nothing.
pub fn watches_begin()
    ensures { WatchesBegin }
{}

/// What a watch holds is also of each longer list.
pub fn watches_stay_seen()
    ensures { WatchesStaySeen }
{}

/// If the reply to its call tells what is of the list, a watch still holds what is of the list; and what it lists is all that there is between its cursor
/// and the place that it tells.
pub fn watches_list_what_is_seen()
    ensures { WatchesListWhatIsSeen }
{}

/// A watch between two calls has not been refused.
pub fn watches_at_rest_have_reason()
    ensures { WatchesAtRestHaveReason }
{}

/// A watch is refused only if a reply has told it, memory is refused, or its cursor is not there.
pub fn watches_refuse_for_a_reason()
    ensures { WatchesRefuseForAReason }
{}
