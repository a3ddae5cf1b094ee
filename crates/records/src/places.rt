// The places that conditions ask about, and those of a Learned record.
ghost use Rattle.std.specs.Prelude.{◌↔◌, IsTrue};
ghost use Rattle.records.specs.Format.{AreRisingTo};
ghost use Rattle.records.specs.Replays.{AskOfLog, AsksOfLog};

use crate::PlacedId;
use crate::distinct::are_rising_to;
use tuples::{Condition, MAX_NUMBER, Want};

/// Whether each place that the conditions ask about is one that a log can have, including 0.
pub fn ask_of_log(conditions: &[Condition]) -> bool
    ensures { IsTrue result ↔ AskOfLog conditions.now }
{
    conditions
        .iter()
        .all(|condition| asks_of_log(&condition.want))
}

fn asks_of_log(want: &Want) -> bool
    ensures { IsTrue result ↔ AsksOfLog want.now }
{
    match want {
        Want::NotAfter(place) => *place <= MAX_NUMBER,
        Want::Exists | Want::Absent => true,
    }
}

/// Whether places rise strictly, and end at most at `to`.
pub fn places_rise(to: u64, placed_ids: &[PlacedId]) -> bool
    ensures { IsTrue result ↔ AreRisingTo to placed_ids.now }
{
    are_rising_to(to, placed_ids)
}
