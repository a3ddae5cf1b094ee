// Bytes of batches that were worked out by hand.
ghost use Rattle.records.specs.Format.{AreRecords};

use crate::disks::changed;
use records::{Record, decode_batch};
use refusal::Refusal;
use std::alloc::{AllocError, Global};

/// The first opening of node 1 of two shards, store 1.
const OPENING: [u8; 22] = [
    1, 0, 1, 4, 0, 0, 0, 0, 0, 0, 0, 1, 0, 0, 0, 0, 0, 0, 0, 1, 2, 1,
];

/// Write 1.1 touches `doc:a#viewer@u1`, without a condition.
const TOUCHING: [u8; 40] = [
    1, 0, 1, 1, 0, 0, 0, 0, 0, 0, 0, 1, 0, 0, 0, 0, 0, 0, 0, 1, 1, 1, 3, 0x64, 0x6f, 0x63, 1, 0x61,
    6, 0x76, 0x69, 0x65, 0x77, 0x65, 0x72, 1, 2, 0x75, 0x31, 0,
];

/// The same if the tuple is absent, in version 2.
const WHERE_ABSENT: [u8; 58] = [
    2, 0, 1, 1, 0, 0, 0, 0, 0, 0, 0, 1, 0, 0, 0, 0, 0, 0, 0, 1, 1, 1, 3, 0x64, 0x6f, 0x63, 1, 0x61,
    6, 0x76, 0x69, 0x65, 0x77, 0x65, 0x72, 1, 2, 0x75, 0x31, 1, 3, 0x64, 0x6f, 0x63, 1, 0x61, 6,
    0x76, 0x69, 0x65, 0x77, 0x65, 0x72, 1, 2, 0x75, 0x31, 3,
];

/// Learned to 1 with write 1.1 there, and then a horizon of 1.
const LEARNING: [u8; 47] = [
    1, 0, 2, 2, 0, 0, 0, 0, 0, 0, 0, 1, 0, 1, 0, 0, 0, 0, 0, 0, 0, 1, 0, 0, 0, 0, 0, 0, 0, 1, 0, 0,
    0, 0, 0, 0, 0, 1, 6, 0, 0, 0, 0, 0, 0, 0, 1,
];

/// A part of write 1.1 that has one condition alone, not changed after 7, in version 1.
const WHERE_UNCHANGED: [u8; 47] = [
    1, 0, 1, 1, 0, 0, 0, 0, 0, 0, 0, 1, 0, 0, 0, 0, 0, 0, 0, 1, 0, 1, 3, 0x64, 0x6f, 0x63, 1, 0x61,
    6, 0x76, 0x69, 0x65, 0x77, 0x65, 0x72, 1, 2, 0x75, 0x31, 0, 0, 0, 0, 0, 0, 0, 7,
];

/// The same in version 2.
const WHERE_UNCHANGED_LATER: [u8; 48] = [
    2, 0, 1, 1, 0, 0, 0, 0, 0, 0, 0, 1, 0, 0, 0, 0, 0, 0, 0, 1, 0, 1, 3, 0x64, 0x6f, 0x63, 1, 0x61,
    6, 0x76, 0x69, 0x65, 0x77, 0x65, 0x72, 1, 2, 0x75, 0x31, 1, 0, 0, 0, 0, 0, 0, 0, 7,
];

/// Write 1.1 touches `doc:a#viewer@u1` and `doc:a#viewer@u2`.
const TOUCHING_TWO: [u8; 58] = [
    1, 0, 1, 1, 0, 0, 0, 0, 0, 0, 0, 1, 0, 0, 0, 0, 0, 0, 0, 1, 2, 1, 3, 0x64, 0x6f, 0x63, 1, 0x61,
    6, 0x76, 0x69, 0x65, 0x77, 0x65, 0x72, 1, 2, 0x75, 0x31, 1, 3, 0x64, 0x6f, 0x63, 1, 0x61, 6,
    0x76, 0x69, 0x65, 0x77, 0x65, 0x72, 1, 2, 0x75, 0x32, 0,
];

/// The marks of a checkpoint of generation 1: its begin, a touch of `doc:a#viewer@u1` at 3, and its end.
const CHECKPOINT: [u8; 51] = [
    2, 0, 3, 7, 0, 0, 0, 0, 0, 0, 0, 0, 1, 7, 1, 0, 0, 0, 0, 0, 0, 0, 3, 1, 3, 0x64, 0x6f, 0x63, 1,
    0x61, 6, 0x76, 0x69, 0x65, 0x77, 0x65, 0x72, 1, 2, 0x75, 0x31, 7, 2, 0, 0, 0, 0, 0, 0, 0, 1,
];

/// Appends what is written of the records.
fn encode_all(records: &[Record], out: &mut Vec<u8>) -> Result<(), AllocError>
    requires { AreRecords records.now }
{
    for record in records {
        record.encode(out)?;
    }
    Ok(())
}

/// Whether that is written of the records, after the three bytes of a head.
fn are_written_as(alloc: Global, records: &[Record], wanted: &[u8]) -> bool
    requires { AreRecords records.now }
{
    let mut out = Vec::new(alloc);
    encode_all(records, &mut out).is_ok() && wanted.get(3..) == Some(out.as_slice())
}

/// Whether the bytes are a batch of which that is written. The records are borrowed: their owner has one exit.
fn is_written_as(alloc: Global, bytes: &[u8], wanted: &[u8]) -> bool {
    match decode_batch(alloc, bytes) {
        Ok(records) => {
            let are_alike = are_written_as(alloc, &records, wanted);
            drop(records);
            are_alike
        }
        Err(_) => false,
    }
}

/// Batches, and what is written of them.
const READ: &[(&[u8], &[u8], &str)] = &[
    (&OPENING, &OPENING, "an opening"),
    (&TOUCHING, &TOUCHING, "a touch"),
    (&TOUCHING_TWO, &TOUCHING_TWO, "two touches"),
    (&WHERE_ABSENT, &WHERE_ABSENT, "where it is absent"),
    (
        &WHERE_UNCHANGED,
        &WHERE_UNCHANGED_LATER,
        "where it is unchanged",
    ),
    (&LEARNING, &LEARNING, "learned, and a horizon"),
    (&CHECKPOINT, &CHECKPOINT, "a checkpoint"),
];

#[test]
fn what_is_read_is_written_again(rt: HostRuntime) {
    for &(bytes, wanted, what) in READ {
        assert!(rt; is_written_as(rt.alloc(), bytes, wanted), "{what}");
    }
}

/// Whether the bytes are not a batch.
fn is_damaged(alloc: Global, bytes: &[u8]) -> bool {
    match decode_batch(alloc, bytes) {
        Ok(records) => {
            drop(records);
            false
        }
        Err(refusal) => refusal == Refusal::Damaged,
    }
}

/// The same with one of them changed, and this many at the end left out.
fn is_damaged_by(alloc: Global, bytes: &[u8], i: usize, byte: u8, left_out: usize) -> bool {
    match changed(alloc, bytes, i, byte, left_out) {
        Ok(bytes) => is_damaged(alloc, &bytes),
        Err(_) => false,
    }
}

/// Batches, the byte of each that is changed and to what, how many are left out, and why that is no batch.
const DAMAGED: &[(&[u8], usize, u8, usize, &str)] = &[
    (&OPENING, 0, 1, 22, "there is nothing"),
    (&OPENING, 0, 1, 1, "it is cut short"),
    (&OPENING, 0, 3, 0, "there is no version 3"),
    (&OPENING, 2, 0, 0, "there is no record"),
    (&OPENING, 2, 2, 0, "there are fewer records"),
    (&LEARNING, 2, 1, 0, "a record stands behind it"),
    (&OPENING, 3, 8, 0, "there is no kind 8"),
    (&OPENING, 20, 0, 0, "there is no shard"),
    (&OPENING, 20, 65, 0, "there are too many shards"),
    (&TOUCHING_TWO, 56, 0x31, 0, "a tuple is changed twice"),
    (&CHECKPOINT, 42, 3, 0, "there is no mark 3"),
    (&CHECKPOINT, 23, 0, 0, "there is no change 0"),
];

#[test]
fn what_is_no_batch_is_damaged(rt: HostRuntime) {
    for &(bytes, i, byte, left_out, why) in DAMAGED {
        assert!(rt;
            is_damaged_by(rt.alloc(), bytes, i, byte, left_out),
            "{why}"
        );
    }
}
