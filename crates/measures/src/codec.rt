// Records as bytes and back.
ghost use Rattle.records.specs.Format.{AreRecords};

use crate::sample::{batch_of, records_of};
use crate::timing::{now, print_since};
use records::Record;
use std::alloc::{AllocError, Global};
use std::rt::Clock;
use tuples::Refusal;

const RECORDS: u16 = 1_000;

// The version, and the number of records.
const HEAD: usize = 3;

fn encode_all(records: &[Record], out: &mut Vec<u8>) -> Result<(), AllocError>
    requires { AreRecords records.now }
{
    out.clear();
    for record in records {
        record.encode(out)?;
    }
    Ok(())
}

// How many bytes were written in this many rounds.
fn encode_rounds(records: &[Record], out: &mut Vec<u8>, rounds: u32) -> Result<u64, Refusal>
    requires { AreRecords records.now }
{
    let mut size: u64 = 0;
    for _ in 0..rounds {
        encode_all(records, out)?;
        size = size.saturating_add(out.len() as u64);
    }
    Ok(size)
}

// How many records were read in this many rounds.
fn decode_rounds(alloc: Global, bytes: &[u8], rounds: u32) -> Result<u64, Refusal> {
    let mut count: u64 = 0;
    for _ in 0..rounds {
        count = count.saturating_add(records_of(alloc, bytes)?.len() as u64);
    }
    Ok(count)
}

/// Writes (`encode`) and reads (`decode`) a batch this often, and prints how many records that were, and how long each took.
pub fn measure(rt: &(impl Clock + Eprint), alloc: Global, rounds: u32) -> Result<(), Refusal> {
    let bytes = batch_of(alloc, RECORDS)?;
    measure_of(rt, alloc, &bytes, rounds)
}

// What is measured is borrowed, since each exit of a function that owns it is proved.
fn measure_of(
    rt: &(impl Clock + Eprint),
    alloc: Global,
    bytes: &[u8],
    rounds: u32,
) -> Result<(), Refusal> {
    let records = records_of(alloc, bytes)?;
    let mut out = Vec::new(alloc);
    measure_in(rt, alloc, bytes, &records, &mut out, rounds)
}

fn measure_in(
    rt: &(impl Clock + Eprint),
    alloc: Global,
    bytes: &[u8],
    records: &[Record],
    out: &mut Vec<u8>,
    rounds: u32,
) -> Result<(), Refusal>
    requires { AreRecords records.now }
{
    let amount = u64::from(rounds) * u64::from(RECORDS);
    let start = now(rt);
    let size = encode_rounds(records, out, rounds);
    print_since(rt, "encode", start, amount, size)?;
    if !is_written(bytes, out) {
        return Err(Refusal::Damaged);
    }
    let start = now(rt);
    let count = decode_rounds(alloc, bytes, rounds);
    print_since(rt, "decode", start, amount, count)
}

// Whether what was written is what was read.
fn is_written(bytes: &[u8], out: &[u8]) -> bool {
    match bytes.get(HEAD..) {
        Some(wanted) => out == wanted,
        None => false,
    }
}
