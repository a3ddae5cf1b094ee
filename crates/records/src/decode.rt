// Bytes as records.
ghost use Rattle.std.specs.Prelude.{◌≡◌, ◌⊎◌, List, Some, None, IfOk, IfErr, IsErrOf};
ghost use Rattle.records.specs.declared.record.Record.{Record as AnyRecord};
ghost use Rattle.records.specs.Format.{IsBatch};
ghost use Rattle.records.specs.Giving.{Gives};
ghost use Rattle.records.specs.Reading.{batch, checkpoint_at, decision_at, epoch_at, learned_at, list_at, mark_at, mark_of_kind_at, prepare_at, record_at, record_of_kind_at, records_at};

use crate::distinct::are_rising_to;
use crate::format::{
    BEGINS, CHECKPOINT, DECISION, DROPPED, ENDS, EPOCH, FIRST_VERSION, HORIZON, LEARNED, PREPARE,
    ROW, VERSION,
};
use crate::read_text::{byte_of, u16_of, u64_of};
use crate::read_write::{change_of, entry_of, placed_ids_of, write_id_of};
use crate::unread::Unread;
use crate::{Mark, Record};
use std::alloc::Global;
use tuples::{MAX_SHARDS, Refusal};

#[tactic(auto, unfolding(crate::specs::Reading::prepare_at))]
fn prepare_of(alloc: Global, first: bool, bytes: &[u8]) -> Result<(Record, &[u8]), Unread>
    ensures { Gives (λ x. (x.0, x.1.now)) result (prepare_at first bytes.now) }
{
    let (entry, rest) = entry_of(alloc, first, bytes)?;
    if entry.changes.as_slice().is_empty() && entry.conditions.as_slice().is_empty() {
        return Err(Unread::Damaged);
    }
    Ok((Record::Prepare(entry), rest))
}

#[tactic(auto, unfolding(crate::specs::Reading::learned_at))]
fn learned_of(alloc: Global, bytes: &[u8]) -> Result<(Record, &[u8]), Unread>
    ensures { Gives (λ x. (x.0, x.1.now)) result (learned_at bytes.now) }
{
    let (to, rest) = u64_of(bytes)?;
    let (placed_ids, rest) = placed_ids_of(alloc, rest)?;
    if !are_rising_to(to, placed_ids.as_slice()) {
        return Err(Unread::Damaged);
    }
    Ok((Record::Learned { to, placed_ids }, rest))
}

#[tactic(auto, unfolding(crate::specs::Reading::epoch_at))]
fn epoch_of(bytes: &[u8]) -> Result<(Record, &[u8]), Unread>
    ensures { Gives (λ x. (x.0, x.1.now)) result (epoch_at bytes.now) }
{
    let (epoch, rest) = u64_of(bytes)?;
    let (store, rest) = u64_of(rest)?;
    let (shards, rest) = byte_of(rest)?;
    let (node, rest) = byte_of(rest)?;
    if shards < 1 || shards > MAX_SHARDS {
        return Err(Unread::Damaged);
    }
    Ok((
        Record::Epoch {
            epoch,
            store,
            shards,
            node,
        },
        rest,
    ))
}

#[tactic(auto, unfolding(crate::specs::Reading::decision_at))]
fn decision_of(alloc: Global, first: bool, bytes: &[u8]) -> Result<(Record, &[u8]), Unread>
    ensures { Gives (λ x. (x.0, x.1.now)) result (decision_at first bytes.now) }
{
    let (place, rest) = u64_of(bytes)?;
    let (entry, rest) = entry_of(alloc, first, rest)?;
    if entry.changes.as_slice().is_empty() {
        return Err(Unread::Damaged);
    }
    Ok((Record::Decision { place, entry }, rest))
}

#[tactic(auto, unfolding(crate::specs::Reading::mark_of_kind_at))]
fn mark_of_kind(alloc: Global, kind: u8, bytes: &[u8]) -> Result<(Mark, &[u8]), Unread>
    ensures { Gives (λ x. (x.0, x.1.now)) result (mark_of_kind_at kind bytes.now) }
{
    match kind {
        BEGINS => {
            let (generation, rest) = u64_of(bytes)?;
            Ok((Mark::Begins(generation), rest))
        }
        ROW => {
            let (place, rest) = u64_of(bytes)?;
            let (change, rest) = change_of(alloc, rest)?;
            Ok((Mark::Row { place, change }, rest))
        }
        ENDS => {
            let (generation, rest) = u64_of(bytes)?;
            Ok((Mark::Ends(generation), rest))
        }
        _ => Err(Unread::Damaged),
    }
}

#[tactic(auto, unfolding(crate::specs::Reading::mark_at))]
fn mark_of(alloc: Global, bytes: &[u8]) -> Result<(Mark, &[u8]), Unread>
    ensures { Gives (λ x. (x.0, x.1.now)) result (mark_at bytes.now) }
{
    let (kind, rest) = byte_of(bytes)?;
    mark_of_kind(alloc, kind, rest)
}

#[tactic(auto, unfolding(crate::specs::Reading::checkpoint_at))]
fn checkpoint_of(alloc: Global, bytes: &[u8]) -> Result<(Record, &[u8]), Unread>
    ensures { Gives (λ x. (x.0, x.1.now)) result (checkpoint_at bytes.now) }
{
    let (mark, rest) = mark_of(alloc, bytes)?;
    Ok((Record::Checkpoint(mark), rest))
}

#[tactic(auto, unfolding(crate::specs::Reading::record_of_kind_at, crate::specs::Reading::dropped_at, crate::specs::Reading::horizon_at))]
fn record_of_kind(
    alloc: Global,
    first: bool,
    kind: u8,
    bytes: &[u8],
) -> Result<(Record, &[u8]), Unread>
    ensures { Gives (λ x. (x.0, x.1.now)) result (record_of_kind_at first kind bytes.now) }
{
    match kind {
        PREPARE => prepare_of(alloc, first, bytes),
        LEARNED => learned_of(alloc, bytes),
        DROPPED => {
            let (id, rest) = write_id_of(bytes)?;
            Ok((Record::Dropped(id), rest))
        }
        EPOCH => epoch_of(bytes),
        DECISION => decision_of(alloc, first, bytes),
        HORIZON => {
            let (place, rest) = u64_of(bytes)?;
            Ok((Record::Horizon(place), rest))
        }
        CHECKPOINT => checkpoint_of(alloc, bytes),
        _ => Err(Unread::Damaged),
    }
}

#[tactic(auto, unfolding(crate::specs::Reading::record_at))]
fn record_of(alloc: Global, first: bool, bytes: &[u8]) -> Result<(Record, &[u8]), Unread>
    ensures { Gives (λ x. (x.0, x.1.now)) result (record_at first bytes.now) }
{
    let (kind, rest) = byte_of(bytes)?;
    record_of_kind(alloc, first, kind, rest)
}

fn so_many_records_of(
    alloc: Global,
    first: bool,
    count: u16,
    bytes: &[u8],
) -> Result<(Vec<Record>, &[u8]), Unread>
    ensures { Gives (λ x. (x.0.items, x.1.now)) result (list_at (record_at first) count bytes.now) }
{
    let mut records = Vec::new(alloc);
    let mut rest = bytes;
    for _ in 0..count {
        let (record, after) = record_of(alloc, first, rest)?;
        records.push(record)?;
        rest = after;
    }
    Ok((records, rest))
}

#[tactic(auto, unfolding(crate::specs::Reading::records_at))]
fn records_of(alloc: Global, first: bool, bytes: &[u8]) -> Result<Vec<Record>, Unread>
    ensures { Gives (λ rs. rs.items) result (records_at first bytes.now) }
{
    let (count, rest) = u16_of(bytes)?;
    let (records, rest) = so_many_records_of(alloc, first, count, rest)?;
    if count < 1 || !rest.is_empty() {
        return Err(Unread::Damaged);
    }
    Ok(records)
}

#[tactic(auto, unfolding(crate::specs::Reading::batch, crate::specs::Reading::version_of))]
fn batch_of(alloc: Global, bytes: &[u8]) -> Result<Vec<Record>, Unread>
    ensures { Gives (λ rs. rs.items) result (batch bytes.now) }
{
    let (version, rest) = byte_of(bytes)?;
    match version {
        FIRST_VERSION => records_of(alloc, true, rest),
        VERSION => records_of(alloc, false, rest),
        _ => Err(Unread::Damaged),
    }
}

/// The records of a batch, in their order; `Damaged` if the bytes are not a batch, `NoMemory`.
pub fn decode_batch(alloc: Global, bytes: &[u8]) -> Result<Vec<Record>, Refusal>
    // The bytes spell what is read.
    ensures found { IfOk result (λ rs. IsBatch bytes.now rs.items) }
    // Nothing that is spelled is refused.
    ensures only { IsErrOf result Refusal.Damaged → (rs : List AnyRecord) → IsBatch bytes.now rs → ⊥ }
    // As a function of the bytes.
    ensures exact { IfOk result (λ rs. batch bytes.now ≡ Some rs.items) }
    ensures none { IsErrOf result Refusal.Damaged → batch bytes.now ≡ None }
    ensures err { IfErr result (λ e. (e ≡ Refusal.Damaged) ⊎ (e ≡ Refusal.NoMemory)) }
{
    match batch_of(alloc, bytes) {
        Ok(records) => Ok(records),
        Err(unread) => Err(unread.refusal()),
    }
}
