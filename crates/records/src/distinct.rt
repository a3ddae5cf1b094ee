// Whether no tuple stands twice, and whether places rise.
ghost use Rattle.std.specs.Prelude.{◌≡◌};
ghost use Rattle.tuples.specs.Changes.{changed, conditioned};
ghost use Rattle.records.specs.Reading.{are_distinct, are_rising_to};

use crate::PlacedId;
use tuples::{Change, Condition};

/// Whether no two changes name one tuple.
pub(crate) fn are_changes_distinct(changes: &[Change]) -> bool
    ensures { result ≡ are_distinct (changed changes.now) }
{
    tuples::are_changes_distinct(changes)
}

/// Whether no two conditions name one tuple.
pub(crate) fn are_conditions_distinct(conditions: &[Condition]) -> bool
    ensures { result ≡ are_distinct (conditioned conditions.now) }
{
    tuples::are_conditions_distinct(conditions)
}

/// Whether places rise strictly, and end at most at `to`.
pub(crate) fn are_rising_to(to: u64, placed_ids: &[PlacedId]) -> bool
    ensures { result ≡ are_rising_to to placed_ids.now }
{
    for (i, placed_id) in placed_ids.iter().enumerate() {
        let rises = match placed_ids.get(i + 1) {
            Some(next) => placed_id.place < next.place,
            None => placed_id.place <= to,
        };
        if !rises {
            return false;
        }
    }
    true
}
