// The records that are measured: prepares, and what a shard has learned, in turn.
ghost use Rattle.std.specs.Prelude.{IfOk};
ghost use Rattle.records.specs.Format.{AreRecords};

use records::{Record, VERSION, decode_batch};
use std::alloc::{AllocError, Global};
use tuples::Refusal;

// A batch up to how many records it has.
const HEAD: &[&[u8]] = &[&[VERSION]];

// A prepare up to the number of its write in epoch 1, of whose eight bytes the last two follow.
const PREPARE: &[&[u8]] = &[&[1, 0, 0, 0, 0, 0, 0, 0, 1, 0, 0, 0, 0, 0, 0]];

// After it a touch of `doc:a#viewer@u1`, and the condition that it is not there.
const TOUCH_WHERE_ABSENT: &[u8] = &[
    1, 1, 3, 0x64, 0x6f, 0x63, 1, 0x61, 6, 0x76, 0x69, 0x65, 0x77, 0x65, 0x72, 1, 2, 0x75, 0x31, 1,
    3, 0x64, 0x6f, 0x63, 1, 0x61, 6, 0x76, 0x69, 0x65, 0x77, 0x65, 0x72, 1, 2, 0x75, 0x31, 3,
];

// That a write of epoch 1 was learned, up to the place that was learned, the number of the one write, and its place.
const LEARNED: &[&[u8]] = &[
    &[2, 0, 0, 0, 0, 0, 0],
    &[0, 1, 0, 0, 0, 0, 0, 0, 0, 1, 0, 0, 0, 0, 0, 0],
    &[0, 0, 0, 0, 0, 0],
];

// These bytes, the number after each of them, and then the rest.
fn push_numbered(
    bytes: &mut Vec<u8>,
    parts: &[&[u8]],
    number: u16,
    rest: &[u8],
) -> Result<(), AllocError> {
    for part in parts {
        bytes.extend_from_slice(part)?;
        bytes.extend_from_slice(&number.to_be_bytes())?;
    }
    bytes.extend_from_slice(rest)
}

// What was learned of the write of a number has that place.
fn push_batch(bytes: &mut Vec<u8>, count: u16) -> Result<(), AllocError> {
    push_numbered(bytes, HEAD, count, &[])?;
    for i in 0..count {
        if i % 2 == 0 {
            push_numbered(bytes, PREPARE, i + 1, TOUCH_WHERE_ABSENT)?;
        } else {
            push_numbered(bytes, LEARNED, i, &[])?;
        }
    }
    Ok(())
}

/// The bytes of a batch of this many records.
pub fn batch_of(alloc: Global, count: u16) -> Result<Vec<u8>, AllocError> {
    let mut bytes = Vec::new(alloc);
    push_batch(&mut bytes, count)?;
    Ok(bytes)
}

/// The records of a batch.
pub fn records_of(alloc: Global, bytes: &[u8]) -> Result<Vec<Record>, Refusal>
    ensures { IfOk result (λ rs. AreRecords rs.items) }
{
    decode_batch(alloc, bytes)
}
