// Records as bytes.
ghost use Rattle.std.specs.Prelude.{◌≡◌, ◌≤◌, ◌<◌, ◌+◌, [], ◌∷◌, ◌++◌, false, length, vec_len, vec_capacity, OnOk, OnErr};
ghost use Rattle.std.specs.Int.{w16, w64, to_be_bytes};
ghost use Rattle.std.specs.List.{flat_map};
ghost use Rattle.records.specs.Format.{IsPrepared, IsRecord, mark_bytes, max_placed_ids, placed_id_bytes, record_bytes};
ghost use Rattle.records.specs.Putting.{Puts};
ghost use Rattle.records.specs.declared.record.Record.TheVariants.{Decision as decision_record, Prepare as prepare_record};
ghost use Rattle.records.specs.Checkpoints.{row_record};
ghost use Rattle.tuples.specs.Limits.{max_changes, max_conditions};

use crate::format::{
    BEGINS, CHECKPOINT, DECISION, DELETE, DROPPED, ENDS, EPOCH, HORIZON, LEARNED, PREPARE, ROW,
    TOUCH,
};
use crate::put::{put_byte, put_bytes, put_u64};
use crate::put_tuple::put_tuple;
use crate::put_write::{put_change, put_entry, put_placed_ids, put_write_id};
use crate::{Mark, PlacedIds, Record};
use std::alloc::AllocError;
use tuples::{Entry, Packed};

impl Record {
    /// Appends the bytes of the record, in the version that is written. It allocates nothing if the vector has room for them; if
    /// it has none and memory is refused, nothing is written.
    pub fn encode(&self, out: &mut Vec<u8>) -> Result<(), AllocError>
        requires { IsRecord self.now }
        ensures ok { OnOk result (out.new.items ≡ out.old.items ++ record_bytes false self.now) }
        ensures err { OnErr result ((out.new.items ≡ out.old.items) × (vec_capacity out.old < vec_len out.old + length (record_bytes false self.now))) }
        ensures room { vec_capacity out.old ≤ vec_capacity out.new }
    {
        let len = out.len();
        let put = put_record(out, self);
        if put.is_err() {
            // Part of the record may stand there.
            out.truncate(len);
        }
        put
    }
}

/// Appends the bytes of the record that prepares a part, without a copy of the part. Memory is as in `Record::encode`.
pub fn encode_prepare(part: &Entry, out: &mut Vec<u8>) -> Result<(), AllocError>
    requires { IsPrepared part.now }
    ensures ok { OnOk result (out.new.items ≡ out.old.items ++ record_bytes false (prepare_record part.now)) }
    ensures err { OnErr result ((out.new.items ≡ out.old.items) × (vec_capacity out.old < vec_len out.old + length (record_bytes false (prepare_record part.now)))) }
    ensures room { vec_capacity out.old ≤ vec_capacity out.new }
{
    let before = out.len();
    let done = put_prepare(out, part);
    if done.is_err() {
        // Some of its bytes may stand there.
        out.truncate(before);
    }
    done
}

/// Appends the bytes of the record that marks a version at a place: a touch of the tuple, or else a delete. The tuple is not copied.
/// Memory is as in `Record::encode`.
pub fn encode_row(
    place: u64,
    tuple: &Packed,
    is_touch: bool,
    out: &mut Vec<u8>,
) -> Result<(), AllocError>
    ensures ok { OnOk result (out.new.items ≡ out.old.items ++ record_bytes false (row_record place is_touch tuple.now)) }
    ensures err { OnErr result ((out.new.items ≡ out.old.items) × (vec_capacity out.old < vec_len out.old + length (record_bytes false (row_record place is_touch tuple.now)))) }
    ensures room { vec_capacity out.old ≤ vec_capacity out.new }
{
    let before = out.len();
    let done = put_row(out, place, tuple, is_touch);
    if done.is_err() {
        // Some of its bytes may stand there.
        out.truncate(before);
    }
    done
}

/// Appends the bytes of the record that decides a write at a place. The write is not copied. Memory is as in `Record::encode`.
pub fn encode_decision(place: u64, write: &Entry, out: &mut Vec<u8>) -> Result<(), AllocError>
    requires few_changes { length write.now.changes ≤ max_changes }
    requires few_conditions { length write.now.conditions ≤ max_conditions }
    ensures ok { OnOk result (out.new.items ≡ out.old.items ++ record_bytes false (decision_record place write.now)) }
    ensures err { OnErr result ((out.new.items ≡ out.old.items) × (vec_capacity out.old < vec_len out.old + length (record_bytes false (decision_record place write.now)))) }
    ensures room { vec_capacity out.old ≤ vec_capacity out.new }
{
    let before = out.len();
    let done = put_decision(out, place, write);
    if done.is_err() {
        // Some of its bytes may stand there.
        out.truncate(before);
    }
    done
}

#[tactic(auto, unfolding(crate::specs::Format::record_bytes))]
fn put_record(out: &mut Vec<u8>, item: &Record) -> Result<(), AllocError>
    requires { IsRecord item.now }
    ensures { Puts out.old out.new (record_bytes false item.now) result }
{
    match item {
        Record::Prepare(entry) => put_prepare(out, entry),
        Record::Learned { to, placed_ids } => put_learned(out, *to, placed_ids),
        Record::Dropped(id) => {
            put_byte(out, DROPPED)?;
            put_write_id(out, id)
        }
        Record::Epoch {
            epoch,
            store,
            shards,
            node,
        } => put_epoch(out, *epoch, *store, *shards, *node),
        Record::Decision { place, entry } => put_decision(out, *place, entry),
        Record::Horizon(place) => {
            put_byte(out, HORIZON)?;
            put_u64(out, *place)
        }
        Record::Checkpoint(mark) => {
            put_byte(out, CHECKPOINT)?;
            put_mark(out, mark)
        }
    }
}

fn put_mark(out: &mut Vec<u8>, mark: &Mark) -> Result<(), AllocError>
    ensures { Puts out.old out.new (mark_bytes mark.now) result }
{
    match mark {
        Mark::Begins(generation) => {
            put_byte(out, BEGINS)?;
            put_u64(out, *generation)
        }
        Mark::Row { place, change } => {
            put_byte(out, ROW)?;
            put_u64(out, *place)?;
            put_change(out, change)
        }
        Mark::Ends(generation) => {
            put_byte(out, ENDS)?;
            put_u64(out, *generation)
        }
    }
}

#[tactic(auto, unfolding(crate::specs::Format::record_bytes))]
fn put_row(out: &mut Vec<u8>, place: u64, tuple: &Packed, is_touch: bool) -> Result<(), AllocError>
    ensures { Puts out.old out.new (record_bytes false (row_record place is_touch tuple.now)) result }
{
    let kind = if is_touch { TOUCH } else { DELETE };
    put_bytes(out, &[CHECKPOINT, ROW])?;
    put_u64(out, place)?;
    put_byte(out, kind)?;
    put_tuple(out, &tuple.parts())
}

#[tactic(auto, unfolding(crate::specs::Format::record_bytes))]
fn put_prepare(out: &mut Vec<u8>, entry: &Entry) -> Result<(), AllocError>
    requires few_changes { length entry.now.changes ≤ max_changes }
    requires few_conditions { length entry.now.conditions ≤ max_conditions }
    ensures { Puts out.old out.new (record_bytes false (prepare_record entry.now)) result }
{
    put_byte(out, PREPARE)?;
    put_entry(out, entry)
}

fn put_learned(out: &mut Vec<u8>, to: u64, placed_ids: &PlacedIds) -> Result<(), AllocError>
    requires { length placed_ids.now ≤ max_placed_ids }
    ensures { Puts out.old out.new (2 ∷ to_be_bytes w64 to ++ to_be_bytes w16 (length placed_ids.now) ++ flat_map placed_id_bytes placed_ids.now) result }
{
    put_byte(out, LEARNED)?;
    put_u64(out, to)?;
    put_placed_ids(out, placed_ids.as_slice())
}

fn put_epoch(
    out: &mut Vec<u8>,
    epoch: u64,
    store: u64,
    shards: u8,
    node: u8,
) -> Result<(), AllocError>
    ensures { Puts out.old out.new (4 ∷ to_be_bytes w64 epoch ++ to_be_bytes w64 store ++ shards ∷ node ∷ []) result }
{
    put_byte(out, EPOCH)?;
    put_u64(out, epoch)?;
    put_u64(out, store)?;
    put_bytes(out, &[shards, node])
}

#[tactic(auto, unfolding(crate::specs::Format::record_bytes))]
fn put_decision(out: &mut Vec<u8>, place: u64, entry: &Entry) -> Result<(), AllocError>
    requires few_changes { length entry.now.changes ≤ max_changes }
    requires few_conditions { length entry.now.conditions ≤ max_conditions }
    ensures { Puts out.old out.new (record_bytes false (decision_record place entry.now)) result }
{
    put_byte(out, DECISION)?;
    put_u64(out, place)?;
    put_entry(out, entry)
}
