// The bytes of a journal over two disks in memory, and what is found in them, also after a call of a disk failed.
// The batches were worked out by hand. Version 1 is read, version 2 is written.
ghost use Rattle.records.specs.Format.{AreRecords};

use crate::disks::{changed, disk_of, has_bytes};
use device::{Device, SimDisk, Tear};
use journal::{Bank, Journal, is_plain};
use records::{Record, decode_batch};
use refusal::Refusal;
use std::alloc::{AllocError, Global};

/// The first opening of shard 1 of 2 of store 1, in 22 bytes behind its gate, and a closed gate.
const OPENED: &[u8] = &[
    0xa5, 0, 0, 0, 0x16, 1, 0, 1, 4, 0, 0, 0, 0, 0, 0, 0, 1, 0, 0, 0, 0, 0, 0, 0, 1, 2, 1, 0,
];

/// Its batch.
const OPENING: &[u8] = &[
    1, 0, 1, 4, 0, 0, 0, 0, 0, 0, 0, 1, 0, 0, 0, 0, 0, 0, 0, 1, 2, 1,
];

/// The same behind a closed gate.
const CLOSED: &[u8] = &[
    0, 0, 0, 0, 0x16, 1, 0, 1, 4, 0, 0, 0, 0, 0, 0, 0, 1, 0, 0, 0, 0, 0, 0, 0, 1, 2, 1, 0,
];

/// The same in the version that is written.
const OPENED_NOW: &[u8] = &[
    0xa5, 0, 0, 0, 0x16, 2, 0, 1, 4, 0, 0, 0, 0, 0, 0, 0, 1, 0, 0, 0, 0, 0, 0, 0, 1, 2, 1, 0,
];

/// Write 1.1 touches `doc:a#viewer@u1`, without a condition.
const TOUCHING: &[u8] = &[
    1, 0, 1, 1, 0, 0, 0, 0, 0, 0, 0, 1, 0, 0, 0, 0, 0, 0, 0, 1, 1, 1, 3, 0x64, 0x6f, 0x63, 1, 0x61,
    6, 0x76, 0x69, 0x65, 0x77, 0x65, 0x72, 1, 2, 0x75, 0x31, 0,
];

/// The same behind its gate, as it is written, and a closed gate.
const TOUCHED: &[u8] = &[
    0xa5, 0, 0, 0, 0x28, 2, 0, 1, 1, 0, 0, 0, 0, 0, 0, 0, 1, 0, 0, 0, 0, 0, 0, 0, 1, 1, 1, 3, 0x64,
    0x6f, 0x63, 1, 0x61, 6, 0x76, 0x69, 0x65, 0x77, 0x65, 0x72, 1, 2, 0x75, 0x31, 0, 0,
];

/// The first opening, and after it the touch, as it is written.
const OPENED_AND_TOUCHED: &[u8] = &[
    0xa5, 0, 0, 0, 0x16, 1, 0, 1, 4, 0, 0, 0, 0, 0, 0, 0, 1, 0, 0, 0, 0, 0, 0, 0, 1, 2, 1, 0xa5, 0,
    0, 0, 0x28, 2, 0, 1, 1, 0, 0, 0, 0, 0, 0, 0, 1, 0, 0, 0, 0, 0, 0, 0, 1, 1, 1, 3, 0x64, 0x6f,
    0x63, 1, 0x61, 6, 0x76, 0x69, 0x65, 0x77, 0x65, 0x72, 1, 2, 0x75, 0x31, 0, 0,
];

/// Learned to 1 with write 1.1 there, and then a horizon of 1.
const LEARNING: &[u8] = &[
    1, 0, 2, 2, 0, 0, 0, 0, 0, 0, 0, 1, 0, 1, 0, 0, 0, 0, 0, 0, 0, 1, 0, 0, 0, 0, 0, 0, 0, 1, 0, 0,
    0, 0, 0, 0, 0, 1, 6, 0, 0, 0, 0, 0, 0, 0, 1,
];

/// The same behind its gate, as it is written, and a closed gate.
const LEARNED: &[u8] = &[
    0xa5, 0, 0, 0, 0x2f, 2, 0, 2, 2, 0, 0, 0, 0, 0, 0, 0, 1, 0, 1, 0, 0, 0, 0, 0, 0, 0, 1, 0, 0, 0,
    0, 0, 0, 0, 1, 0, 0, 0, 0, 0, 0, 0, 1, 6, 0, 0, 0, 0, 0, 0, 0, 1, 0,
];

/// A journal over the devices, and how many records it has.
fn opened<D: Device>(alloc: Global, a: D, b: D) -> Result<(Journal<D>, usize), Refusal> {
    match Journal::open(alloc, a, b) {
        Ok((journal, records)) => {
            let count = records.len();
            drop(records);
            Ok((journal, count))
        }
        Err(refused) => {
            let refusal = refused.refusal;
            drop(refused);
            Err(refusal)
        }
    }
}

/// How many records the journal over the devices has.
fn records_on<D: Device>(alloc: Global, a: D, b: D) -> Result<usize, Refusal> {
    let (journal, records) = opened(alloc, a, b)?;
    drop(journal);
    Ok(records)
}

/// Disks with these bytes and with none.
fn disks_of(alloc: Global, content: &[u8]) -> Result<(SimDisk, SimDisk), AllocError> {
    let a = disk_of(alloc, content)?;
    match disk_of(alloc, &[]) {
        Ok(b) => Ok((a, b)),
        Err(error) => Err(error),
    }
}

/// How many records the journal over these bytes has.
fn records_in(alloc: Global, content: &[u8]) -> Result<usize, Refusal> {
    let (a, b) = disks_of(alloc, content)?;
    records_on(alloc, a, b)
}

/// How many it has with one of the bytes changed, and this many at the end left out.
fn records_in_changed(
    alloc: Global,
    content: &[u8],
    place: usize,
    byte: u8,
    left_out: usize,
) -> Result<usize, Refusal> {
    let content = changed(alloc, content, place, byte, left_out)?;
    let records = records_in(alloc, &content);
    drop(content);
    records
}

/// Bytes, which of them is changed and to what, how many are left out, and how many records are found.
const FOUND: &[(&[u8], usize, u8, usize, Result<usize, Refusal>)] = &[
    (&[], 0, 0, 0, Ok(0)),
    (OPENED, 0, 0xa5, 0, Ok(1)),
    (LEARNED, 5, 1, 0, Ok(2)),
    (OPENED, 5, 2, 0, Ok(1)),
    // Behind a closed gate there is nothing, and it is not known whose records they are.
    (OPENED, 0, 0, 0, Ok(0)),
    (OPENED, 26, 0, 0, Ok(1)),
    // A body has a byte, the next gate is inside, and there is no version 3 and no kind 8.
    (OPENED, 4, 0, 0, Err(Refusal::Damaged)),
    (OPENED, 4, 0x17, 0, Err(Refusal::Damaged)),
    (OPENED, 5, 3, 0, Err(Refusal::Damaged)),
    (OPENED, 8, 8, 0, Err(Refusal::Damaged)),
    (OPENED, 0, 0xa5, 1, Err(Refusal::Damaged)),
];

#[test]
fn an_opening_finds_the_records_or_damage(rt: HostRuntime) {
    for &(content, place, byte, left_out, wanted) in FOUND {
        let records = records_in_changed(rt.alloc(), content, place, byte, left_out);
        assert!(rt; records == wanted, "{place} {byte} {left_out}");
    }
}

fn stage_all<D: Device>(journal: &mut Journal<D>, records: &[Record]) -> Result<(), Refusal>
    requires { AreRecords records.now }
{
    for record in records {
        if !is_plain(record) {
            return Err(Refusal::Damaged);
        }
        journal.stage(record)?;
    }
    Ok(())
}

/// Whether the records of a batch are staged. They are borrowed: their owner has one exit.
fn is_staged<D: Device>(alloc: Global, journal: &mut Journal<D>, batch: &[u8]) -> bool {
    match decode_batch(alloc, batch) {
        Ok(records) => {
            let staged = stage_all(journal, &records);
            drop(records);
            staged.is_ok()
        }
        Err(_) => false,
    }
}

/// Whether the flush fails exactly if the n-th call, which is struck, is one of its four.
fn flush_struck<D: Device>(journal: &mut Journal<D>, n: u64, tear: Tear) -> bool {
    journal.fail(Bank::A, n, tear);
    journal.flush().is_ok() == (n > 4) && journal.is_down() == (n <= 4)
}

/// Bank a, over which a batch was staged and flushed, of which the n-th call failed; a flush makes four.
fn flushed<D: Device>(
    alloc: Global,
    (a, b): (D, D),
    batch: &[u8],
    n: u64,
    tear: Tear,
) -> Result<D, Refusal> {
    let (mut journal, _) = opened(alloc, a, b)?;
    let is_as_scripted = is_staged(alloc, &mut journal, batch)
        && flush_struck(&mut journal, n, tear);
    let (mut a, b) = journal.into_devices();
    drop(b);
    if is_as_scripted && a.revive().is_ok() {
        Ok(a)
    } else {
        drop(a);
        Err(Refusal::BadRequest)
    }
}

/// Whether a batch that is flushed over these bytes leaves those.
fn leaves(alloc: Global, content: &[u8], batch: &[u8], wanted: &[u8]) -> Result<bool, Refusal> {
    let disks = disks_of(alloc, content)?;
    let mut a = flushed(alloc, disks, batch, 9, Tear::Old)?;
    Ok(has_bytes(alloc, &mut a, wanted))
}

/// Bytes, a batch that is flushed over them, and the bytes then.
const WRITTEN: &[(&[u8], &[u8], &[u8], &str)] = &[
    (&[], OPENING, OPENED_NOW, "an opening"),
    (&[], TOUCHING, TOUCHED, "a touch"),
    (&[], LEARNING, LEARNED, "learned, and a horizon"),
    (CLOSED, TOUCHING, TOUCHED, "a touch over a closed gate"),
    (
        OPENED,
        TOUCHING,
        OPENED_AND_TOUCHED,
        "a touch behind an opening",
    ),
];

#[test]
fn a_batch_is_written_behind_the_closed_gate(rt: HostRuntime) {
    for &(content, batch, wanted, what) in WRITTEN {
        assert!(rt;
            leaves(rt.alloc(), content, batch, wanted) == Ok(true),
            "{what}"
        );
    }
}

/// How many records are found after a flush of which the n-th call failed.
fn records_behind(alloc: Global, n: u64, tear: Tear) -> Result<usize, Refusal> {
    let disks = disks_of(alloc, OPENED)?;
    let a = flushed(alloc, disks, TOUCHING, n, tear)?;
    match disk_of(alloc, &[]) {
        Ok(b) => records_on(alloc, a, b),
        Err(error) => Err(error.into()),
    }
}

const BEHIND: &[(u64, Tear, usize)] = &[
    (1, Tear::New, 1),
    (2, Tear::Fill(0xa5), 1),
    (3, Tear::Old, 1),
    (3, Tear::New, 2),
    (4, Tear::Fill(0), 1),
    (4, Tear::Fill(0xa5), 2),
];

#[test]
fn a_failed_flush_leaves_the_old_records_or_all(rt: HostRuntime) {
    for &(n, tear, records) in BEHIND {
        assert!(rt;
            records_behind(rt.alloc(), n, tear) == Ok(records),
            "{n} {tear:?}"
        );
    }
}
