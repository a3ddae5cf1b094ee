// Records staged and flushed, to a disk in memory.
ghost use Rattle.records.specs.Format.{AreRecords};

use crate::touches::{open_journal, two_disks};
use device::{Device, SimDisk};
use journal::{Journal, is_plain};
use measures::sample::{batch_of, records_of};
use measures::timing::{now, print_since};
use records::Record;
use std::alloc::Global;
use std::rt::Clock;
use tuples::Refusal;

/// How many records are flushed in all, at least.
const RECORDS: u32 = 200_000;

fn stage_and_flush<D: Device>(journal: &mut Journal<D>, records: &[Record]) -> Result<(), Refusal>
    requires { AreRecords records.now }
{
    for record in records {
        if !is_plain(record) {
            return Err(Refusal::Damaged);
        }
        journal.stage(record)?;
    }
    journal.flush()
}

fn flush_rounds<D: Device>(
    journal: &mut Journal<D>,
    records: &[Record],
    rounds: u32,
) -> Result<(), Refusal>
    requires { AreRecords records.now }
{
    for _ in 0..rounds {
        stage_and_flush(journal, records)?;
    }
    Ok(())
}

fn calls_of_a(journal: &Journal<SimDisk>) -> u64 {
    let (a, _) = journal.devices();
    a.calls()
}

/// Flushes batches of so many records, and prints the bytes and how long they took. What it answers is the device calls of a flush.
pub(crate) fn measure(
    rt: &(impl Clock + Eprint),
    alloc: Global,
    count: u32,
) -> Result<(), Refusal> {
    let Ok(count) = u16::try_from(count) else {
        return Err(Refusal::TooLarge);
    };
    let bytes = batch_of(alloc, count)?;
    let records = records_of(alloc, &bytes)?;
    measure_of(rt, alloc, &records, bytes.len(), count)
}

// What is measured is lent, since each way out of a function that owns it is proved.
fn measure_of(
    rt: &(impl Clock + Eprint),
    alloc: Global,
    records: &[Record],
    size: usize,
    count: u16,
) -> Result<(), Refusal>
    requires { AreRecords records.now }
{
    let (a, b) = two_disks(alloc)?;
    let mut journal = open_journal(alloc, a, b)?;
    let printed = measure_in(rt, &mut journal, records, size, count);
    drop(journal);
    printed
}

fn measure_in(
    rt: &(impl Clock + Eprint),
    journal: &mut Journal<SimDisk>,
    records: &[Record],
    size: usize,
    count: u16,
) -> Result<(), Refusal>
    requires { AreRecords records.now }
{
    let rounds = RECORDS / u32::from(count).max(1);
    let before = calls_of_a(journal);
    let start = now(rt);
    flush_rounds(journal, records, rounds)?;
    let calls = calls_of_a(journal).saturating_sub(before) / u64::from(rounds).max(1);
    let amount = u64::from(rounds).saturating_mul(size as u64);
    print_since(rt, "flush", start, amount, Ok(calls))
}
