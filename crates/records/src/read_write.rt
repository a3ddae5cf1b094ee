// writes and what is learned of them at the front of bytes, each with the bytes after it.
ghost use Rattle.records.specs.Giving.{Gives};
ghost use Rattle.records.specs.Reading.{change_at, change_of_kind_at, changes_at, condition_at, conditions_at, entry_at, list_at, not_after_at, placed_id_at, placed_ids_at, want_at, want_of_kind_at, write_id_at};

use crate::distinct::{are_changes_distinct, are_conditions_distinct};
use crate::format::{ABSENT, DELETE, EXISTS, MAX_PLACED_IDS, NOT_AFTER, TOUCH};
use crate::read_text::{byte_of, positive_of, u16_of, u64_of};
use crate::read_tuple::tuple_of;
use crate::unread::Unread;
use crate::{PlacedId, PlacedIds};
use std::alloc::Global;
use tuples::{
    Change, Changes, Condition, Conditions, Entry, MAX_CHANGES, MAX_CONDITIONS, Want, WriteId,
};

#[tactic(auto, unfolding(crate::specs::Reading::write_id_at))]
pub(crate) fn write_id_of(bytes: &[u8]) -> Result<(WriteId, &[u8]), Unread>
    ensures { Gives (λ x. (x.0, x.1.now)) result (write_id_at bytes.now) }
{
    let (epoch, rest) = positive_of(bytes)?;
    let (number, rest) = positive_of(rest)?;
    Ok((WriteId { epoch, number }, rest))
}

#[tactic(auto, unfolding(crate::specs::Reading::change_of_kind_at))]
fn change_of_kind(alloc: Global, kind: u8, bytes: &[u8]) -> Result<(Change, &[u8]), Unread>
    ensures { Gives (λ x. (x.0, x.1.now)) result (change_of_kind_at kind bytes.now) }
{
    match kind {
        TOUCH => {
            let (tuple, rest) = tuple_of(alloc, bytes)?;
            Ok((Change::Touch(tuple), rest))
        }
        DELETE => {
            let (tuple, rest) = tuple_of(alloc, bytes)?;
            Ok((Change::Delete(tuple), rest))
        }
        _ => Err(Unread::Damaged),
    }
}

#[tactic(auto, unfolding(crate::specs::Reading::change_at))]
pub(crate) fn change_of(alloc: Global, bytes: &[u8]) -> Result<(Change, &[u8]), Unread>
    ensures { Gives (λ x. (x.0, x.1.now)) result (change_at bytes.now) }
{
    let (kind, rest) = byte_of(bytes)?;
    change_of_kind(alloc, kind, rest)
}

#[tactic(auto, unfolding(crate::specs::Reading::not_after_at))]
fn not_after_of(bytes: &[u8]) -> Result<(Want, &[u8]), Unread>
    ensures { Gives (λ x. (x.0, x.1.now)) result (not_after_at bytes.now) }
{
    let (place, rest) = u64_of(bytes)?;
    Ok((Want::NotAfter(place), rest))
}

#[tactic(auto, unfolding(crate::specs::Reading::want_of_kind_at))]
fn want_of_kind(kind: u8, bytes: &[u8]) -> Result<(Want, &[u8]), Unread>
    ensures { Gives (λ x. (x.0, x.1.now)) result (want_of_kind_at kind bytes.now) }
{
    match kind {
        NOT_AFTER => not_after_of(bytes),
        EXISTS => Ok((Want::Exists, bytes)),
        ABSENT => Ok((Want::Absent, bytes)),
        _ => Err(Unread::Damaged),
    }
}

#[tactic(auto, unfolding(crate::specs::Reading::want_at))]
fn want_of(first: bool, bytes: &[u8]) -> Result<(Want, &[u8]), Unread>
    ensures { Gives (λ x. (x.0, x.1.now)) result (want_at first bytes.now) }
{
    if first {
        return not_after_of(bytes);
    }
    let (kind, rest) = byte_of(bytes)?;
    want_of_kind(kind, rest)
}

#[tactic(auto, unfolding(crate::specs::Reading::condition_at))]
fn condition_of(alloc: Global, first: bool, bytes: &[u8]) -> Result<(Condition, &[u8]), Unread>
    ensures { Gives (λ x. (x.0, x.1.now)) result (condition_at first bytes.now) }
{
    let (tuple, rest) = tuple_of(alloc, bytes)?;
    let (want, rest) = want_of(first, rest)?;
    Ok((Condition { tuple, want }, rest))
}

fn so_many_changes_of(
    alloc: Global,
    count: u8,
    bytes: &[u8],
) -> Result<(Vec<Change>, &[u8]), Unread>
    ensures { Gives (λ x. (x.0.items, x.1.now)) result (list_at change_at count bytes.now) }
{
    let mut changes = Vec::with_capacity(alloc, usize::from(count))?;
    let mut rest = bytes;
    for _ in 0..count {
        let (change, after) = change_of(alloc, rest)?;
        changes.push(change)?;
        rest = after;
    }
    Ok((changes, rest))
}

fn so_many_conditions_of(
    alloc: Global,
    first: bool,
    count: u8,
    bytes: &[u8],
) -> Result<(Vec<Condition>, &[u8]), Unread>
    ensures { Gives (λ x. (x.0.items, x.1.now)) result (list_at (condition_at first) count bytes.now) }
{
    let mut conditions = Vec::with_capacity(alloc, usize::from(count))?;
    let mut rest = bytes;
    for _ in 0..count {
        let (condition, after) = condition_of(alloc, first, rest)?;
        conditions.push(condition)?;
        rest = after;
    }
    Ok((conditions, rest))
}

#[tactic(auto, unfolding(crate::specs::Reading::changes_at))]
fn changes_of(alloc: Global, bytes: &[u8]) -> Result<(Changes, &[u8]), Unread>
    ensures { Gives (λ x. (x.0, x.1.now)) result (changes_at bytes.now) }
{
    let (count, rest) = byte_of(bytes)?;
    if usize::from(count) > MAX_CHANGES {
        return Err(Unread::Damaged);
    }
    let (changes, rest) = so_many_changes_of(alloc, count, rest)?;
    if !are_changes_distinct(&changes) {
        return Err(Unread::Damaged);
    }
    Ok((Changes::from_vec(changes), rest))
}

#[tactic(auto, unfolding(crate::specs::Reading::conditions_at))]
fn conditions_of(alloc: Global, first: bool, bytes: &[u8]) -> Result<(Conditions, &[u8]), Unread>
    ensures { Gives (λ x. (x.0, x.1.now)) result (conditions_at first bytes.now) }
{
    let (count, rest) = byte_of(bytes)?;
    if usize::from(count) > MAX_CONDITIONS {
        return Err(Unread::Damaged);
    }
    let (conditions, rest) = so_many_conditions_of(alloc, first, count, rest)?;
    if !are_conditions_distinct(&conditions) {
        return Err(Unread::Damaged);
    }
    Ok((Conditions::from_vec(conditions), rest))
}

#[tactic(auto, unfolding(crate::specs::Reading::entry_at))]
pub(crate) fn entry_of(alloc: Global, first: bool, bytes: &[u8]) -> Result<(Entry, &[u8]), Unread>
    ensures { Gives (λ x. (x.0, x.1.now)) result (entry_at first bytes.now) }
{
    let (id, rest) = write_id_of(bytes)?;
    let (changes, rest) = changes_of(alloc, rest)?;
    let (conditions, rest) = conditions_of(alloc, first, rest)?;
    Ok((
        Entry {
            id,
            changes,
            conditions,
        },
        rest,
    ))
}

#[tactic(auto, unfolding(crate::specs::Reading::placed_id_at))]
fn placed_id_of(bytes: &[u8]) -> Result<(PlacedId, &[u8]), Unread>
    ensures { Gives (λ x. (x.0, x.1.now)) result (placed_id_at bytes.now) }
{
    let (id, rest) = write_id_of(bytes)?;
    let (place, rest) = u64_of(rest)?;
    Ok((PlacedId { id, place }, rest))
}

fn so_many_placed_ids_of(
    alloc: Global,
    count: u16,
    bytes: &[u8],
) -> Result<(Vec<PlacedId>, &[u8]), Unread>
    ensures { Gives (λ x. (x.0.items, x.1.now)) result (list_at placed_id_at count bytes.now) }
{
    let mut placed_ids = Vec::with_capacity(alloc, usize::from(count))?;
    let mut rest = bytes;
    for _ in 0..count {
        let (placed_id, after) = placed_id_of(rest)?;
        placed_ids.push(placed_id)?;
        rest = after;
    }
    Ok((placed_ids, rest))
}

#[tactic(auto, unfolding(crate::specs::Reading::placed_ids_at))]
pub(crate) fn placed_ids_of(alloc: Global, bytes: &[u8]) -> Result<(PlacedIds, &[u8]), Unread>
    ensures { Gives (λ x. (x.0, x.1.now)) result (placed_ids_at bytes.now) }
{
    let (count, rest) = u16_of(bytes)?;
    if usize::from(count) > MAX_PLACED_IDS {
        return Err(Unread::Damaged);
    }
    let (placed_ids, rest) = so_many_placed_ids_of(alloc, count, rest)?;
    Ok((PlacedIds::from_vec(placed_ids), rest))
}
