// What is reported of a flow that has ended.
ghost use Rattle.std.specs.Prelude.{◌≡◌, Some};
ghost use Rattle.answer_flow.specs.ReadViews.{ending_of as read_ending};
ghost use Rattle.answer_flow.specs.CheckViews.{ending_of as check_ending};
ghost use Rattle.answer_flow.specs.WatchViews.{ending_of as watch_ending};
ghost use Rattle.cluster.specs.Ends.{TellsCare, TellsCheck, TellsRead, TellsWatch, TellsWrite};
ghost use Rattle.cluster.specs.Steps.{unless as unless_cancelled};

use crate::{Answer, What};
use answer_flow::{CheckEnd, ReadEnd, WatchEnd};
use care_flow::CareEnd;
use commit_flow::WriteEnd;

/// Nothing is reported of a flow that was cancelled.
pub(crate) fn unless(is_cancelled: bool, told: Option<What>) -> Option<What>
    ensures { result ≡ unless_cancelled is_cancelled told }
{
    if is_cancelled {
        return None;
    }
    told
}

/// What is reported of a write that has ended; nothing of its cancel.
pub(crate) fn told_of_write(end: WriteEnd) -> Option<What>
    ensures { TellsWrite end result }
{
    match end {
        WriteEnd::Wrote(place) => Some(What::Ended(Answer::Wrote(place))),
        WriteEnd::Refused(refusal) => Some(What::Refused(refusal)),
        WriteEnd::Cancelled => None,
    }
}

/// What is reported of a read that has ended.
pub(crate) fn told_of_read(end: ReadEnd) -> What
    ensures { TellsRead (read_ending end) (Some result) }
{
    match end {
        ReadEnd::Answered(place, sets) => What::Ended(Answer::Selected(place, sets)),
        ReadEnd::Refused(refusal) => What::Refused(refusal),
    }
}

/// What is reported of a check that has ended.
pub(crate) fn told_of_check(end: CheckEnd) -> What
    ensures { TellsCheck (check_ending end) (Some result) }
{
    match end {
        CheckEnd::Answered(place, is_member) => What::Ended(Answer::Checked(place, is_member)),
        CheckEnd::Refused(refusal) => What::Refused(refusal),
    }
}

/// What is reported of a watch that has ended.
pub(crate) fn told_of_watch(end: WatchEnd) -> What
    ensures { TellsWatch (watch_ending end) (Some result) }
{
    match end {
        WatchEnd::Answered(place, events) => What::Ended(Answer::Listed(place, events)),
        WatchEnd::Refused(refusal) => What::Refused(refusal),
    }
}

/// What is reported of a care that has ended.
pub(crate) fn told_of_care(end: CareEnd) -> What
    ensures { TellsCare end (Some result) }
{
    match end {
        CareEnd::Done => What::Ended(Answer::Done),
        CareEnd::Resolved(found) => What::Ended(Answer::Resolved(found)),
        CareEnd::Refused(refusal) => What::Refused(refusal),
    }
}
