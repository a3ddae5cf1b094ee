// Which record may come next at a shard.
ghost use Rattle.std.specs.Prelude.{◌≡◌, ◌↔◌, ◌≤◌, ◌<◌, IsTrue, All};
ghost use Rattle.std.specs.List.{list_all};
ghost use Rattle.records.specs.declared.record.PlacedId.{PlacedId as AnyPlacedId};
ghost use Rattle.records.specs.Replays.{MayCollect, MayDrop, MayLearn, MayOpen, MayPrepare, greatest_number, named};
ghost use Rattle.tuples.specs.Changes.{changed, conditioned};
ghost use Rattle.replay.specs.Rules.{are_prepared as are_placed_ids_prepared, has_placed_id as is_placed_id_there, is_own as is_own_tuple};

use crate::Memory;
use holds::{Holds, is_same};
use records::{Identity, PlacedId, ask_of_log, places_rise};
use tuples::{Change, Condition, Entry, MAX_NUMBER, Tuple, WriteId, shard_of};

/// Its id is not in doubt, its tuples are this shard's and free, and its conditions ask about places of a log.
pub fn may_prepare(me: Identity, memory: &Memory, entry: &Entry) -> bool
    ensures { IsTrue result ↔ MayPrepare me memory.now entry.now }
{
    // Only an opening comes first.
    if memory.epoch() == 0 {
        return false;
    }
    if !is_number(entry.id.epoch) || !is_number(entry.id.number) {
        return false;
    }
    if !memory.is_free(entry) || !ask_of_log(entry.conditions.as_slice()) {
        return false;
    }
    are_tuples_own(me, entry)
}

/// Places only rise, up to the one learned to, and each placed id is of a different write in doubt.
pub fn may_learn(memory: &Memory, to: u64, placed_ids: &[PlacedId]) -> bool
    ensures { IsTrue result ↔ MayLearn memory.now to placed_ids.now }
{
    if memory.epoch() == 0 {
        return false;
    }
    if to < memory.learned() || to > MAX_NUMBER {
        return false;
    }
    if !are_above(memory.learned(), placed_ids) || !places_rise(to, placed_ids) {
        return false;
    }
    are_prepared(placed_ids, memory.held())
}

/// The write is in doubt.
pub fn may_drop(memory: &Memory, id: WriteId) -> bool
    ensures { IsTrue result ↔ MayDrop memory.now id }
{
    memory.epoch() != 0 && memory.find(id).is_some()
}

/// The next opening, of this very shard.
pub fn may_open(me: Identity, memory: &Memory, epoch: u64, store: u64, shards: u8, node: u8) -> bool
    ensures { IsTrue result ↔ MayOpen me memory.now epoch store shards node }
{
    // Nothing follows the greatest number.
    if memory.epoch() >= MAX_NUMBER {
        return false;
    }
    if epoch != memory.epoch() + 1 {
        return false;
    }
    me.is(store, shards, node)
}

/// The horizon only rises, and stays within what is learned.
pub fn may_collect(memory: &Memory, place: u64) -> bool
    ensures { IsTrue result ↔ MayCollect memory.now place }
{
    memory.epoch() != 0 && memory.horizon() <= place && place <= memory.learned()
}

// epochs and numbers of writes begin at 1
fn is_number(number: u64) -> bool
    ensures { IsTrue result ↔ ((1 ≤ number) × (number ≤ greatest_number)) }
{
    number >= 1 && number <= MAX_NUMBER
}

fn are_tuples_own(me: Identity, entry: &Entry) -> bool
    ensures { result ≡ list_all (is_own_tuple me) (named entry.now) }
{
    are_changes_own(me, entry.changes.as_slice())
        && are_conditions_own(me, entry.conditions.as_slice())
}

fn are_changes_own(me: Identity, changes: &[Change]) -> bool
    ensures { result ≡ list_all (is_own_tuple me) (changed changes.now) }
{
    for change in changes {
        if !is_own(me, change.tuple()) {
            return false;
        }
    }
    true
}

fn are_conditions_own(me: Identity, conditions: &[Condition]) -> bool
    ensures { result ≡ list_all (is_own_tuple me) (conditioned conditions.now) }
{
    for condition in conditions {
        if !is_own(me, &condition.tuple) {
            return false;
        }
    }
    true
}

pub(crate) fn is_own(me: Identity, tuple: &Tuple) -> bool
    ensures { result ≡ is_own_tuple me tuple.now }
{
    shard_of(&tuple.object, me.shards()) == me.node()
}

fn are_above(place: u64, placed_ids: &[PlacedId]) -> bool
    ensures { IsTrue result ↔ All (λ (p : AnyPlacedId). place < p.place) placed_ids.now }
{
    placed_ids.iter().all(|placed_id| placed_id.place > place)
}

fn are_prepared(placed_ids: &[PlacedId], holds: &Holds) -> bool
    ensures { result ≡ are_placed_ids_prepared placed_ids.now holds.now }
{
    for (i, placed_id) in placed_ids.iter().enumerate() {
        if holds.find(placed_id.id).is_none() || has_placed_id(placed_id.id, &placed_ids[i + 1..]) {
            return false;
        }
    }
    true
}

fn has_placed_id(id: WriteId, placed_ids: &[PlacedId]) -> bool
    ensures { result ≡ is_placed_id_there id placed_ids.now }
{
    for placed_id in placed_ids {
        if is_same(placed_id.id, id) {
            return true;
        }
    }
    false
}
