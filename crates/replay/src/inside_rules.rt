// Which record may come next at a shard within a checkpoint.
ghost use Rattle.std.specs.Prelude.{◌≡◌, ◌⊎◌, ◌↔◌, IsTrue};
ghost use Rattle.records.specs.Replays.{MayEnd, MayTakeLearned, MayTakePrepare, MayTakeRow};

use crate::Memory;
use crate::rules::{is_own, may_learn, may_prepare};
use records::{Identity, Inside, PlacedId, Stage};
use tuples::{Change, Entry};

/// The place learned, without parts.
pub fn may_take_learned(inside: Inside, memory: &Memory, to: u64, placed_ids: &[PlacedId]) -> bool
    ensures { IsTrue result ↔ MayTakeLearned inside memory.now to placed_ids.now }
{
    inside.stage == Stage::Bounded && placed_ids.is_empty() && may_learn(memory, to, placed_ids)
}

/// A version of a tuple of this shard, no older than those of the tuple so far, at a place that is learned.
pub fn may_take_row(
    me: Identity,
    inside: Inside,
    memory: &Memory,
    place: u64,
    change: &Change,
) -> bool
    ensures { IsTrue result ↔ MayTakeRow me inside memory.now place change.now }
{
    let tuple = change.tuple();
    if inside.stage != Stage::Listed || place > memory.learned() {
        return false;
    }
    1 <= place && memory.last(tuple) <= place && is_own(me, tuple)
}

/// A write in doubt, after the versions.
pub fn may_take_prepare(me: Identity, inside: Inside, memory: &Memory, entry: &Entry) -> bool
    ensures { IsTrue result ↔ MayTakePrepare me inside memory.now entry.now }
{
    is_behind_rows(inside.stage) && may_prepare(me, memory, entry)
}

/// The end of this very checkpoint, whose horizon lies within what is learned.
pub fn may_end(inside: Inside, memory: &Memory, generation: u64) -> bool
    ensures { IsTrue result ↔ MayEnd inside memory.now generation }
{
    if !is_behind_rows(inside.stage) || generation != inside.generation {
        return false;
    }
    memory.horizon() <= memory.learned()
}

fn is_behind_rows(stage: Stage) -> bool
    ensures { IsTrue result ↔ ((stage ≡ Stage.Listed) ⊎ (stage ≡ Stage.Doubted)) }
{
    stage == Stage::Listed || stage == Stage::Doubted
}
