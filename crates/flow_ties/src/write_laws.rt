// Laws of a write, each the clause of a function with an empty body.
ghost use Rattle.flow_ties.specs.Writes.{WritesAreRelinked, WritesBegin, WritesBeginUntold, WritesHandOverWhatIsSeen, WritesRefuseAsTold, WritesStaySeen, WritesTellWhatStands};

/// Which decision is of which write, as the coordinator alone knows.
pub trait Links {
    ghost use Rattle.flow_ties.specs.Writes.{Linking};

    ghost links: { Linking };
}

/// A write that is not begun has nothing yet.
pub fn writes_begin<L: Links>()
    ensures { WritesBegin L.links }
{}

/// What a write holds is also of each longer list.
pub fn writes_stay_seen<L: Links>()
    ensures { WritesStaySeen L.links }
{}

/// Which decision is of which write may be known in another way.
pub fn writes_are_relinked<L: Links, M: Links>()
    ensures { WritesAreRelinked L.links M.links }
{}

/// A batch that a write hands to a shard is a part of the list.
pub fn writes_hand_over_what_is_seen<L: Links>()
    ensures { WritesHandOverWhatIsSeen L.links }
{}

/// If the reply to its call tells what is so, a write still holds what is of the write that was asked for; and the place that it tells is above what
/// had been seen, and has just that write, its id once in the list.
pub fn writes_tell_what_stands<L: Links>()
    ensures { WritesTellWhatStands L.links }
{}

/// Nothing refuses a write that is not begun.
pub fn writes_begin_untold()
    ensures { WritesBeginUntold }
{}

/// The refusal of a write is one that a reply to one of its calls has carried.
pub fn writes_refuse_as_told()
    ensures { WritesRefuseAsTold }
{}
