// A gated log over a disk in memory: its bytes, and what is found after a failure.
use crate::disks::{changed, disk_of, has_bytes};
use device::{Device, Tear};
use gated::GatedLog;
use refusal::Refusal;
use std::alloc::Global;

// One batch, in 22 bytes, behind an open gate, and then a closed gate.
const BATCH: &[u8] = &[
    0xa5, 0, 0, 0, 0x16, 1, 0, 1, 4, 0, 0, 0, 0, 0, 0, 0, 1, 0, 0, 0, 0, 0, 0, 0, 1, 2, 1, 0,
];

// The same behind a closed gate.
const CLOSED: &[u8] = &[
    0, 0, 0, 0, 0x16, 1, 0, 1, 4, 0, 0, 0, 0, 0, 0, 0, 1, 0, 0, 0, 0, 0, 0, 0, 1, 2, 1, 0,
];

// A batch of one prepare, in 40 bytes: write 1.1 touches `doc:a#viewer@u1`.
const PREPARE: [u8; 40] = [
    1, 0, 1, 1, 0, 0, 0, 0, 0, 0, 0, 1, 0, 0, 0, 0, 0, 0, 0, 1, 1, 1, 3, 0x64, 0x6f, 0x63, 1, 0x61,
    6, 0x76, 0x69, 0x65, 0x77, 0x65, 0x72, 1, 2, 0x75, 0x31, 0,
];

// The first batch, and the prepare after it, each behind an open gate.
const BOTH: [u8; 73] = [
    0xa5, 0, 0, 0, 0x16, 1, 0, 1, 4, 0, 0, 0, 0, 0, 0, 0, 1, 0, 0, 0, 0, 0, 0, 0, 1, 2, 1, 0xa5, 0,
    0, 0, 0x28, 1, 0, 1, 1, 0, 0, 0, 0, 0, 0, 0, 1, 0, 0, 0, 0, 0, 0, 0, 1, 1, 1, 3, 0x64, 0x6f,
    0x63, 1, 0x61, 6, 0x76, 0x69, 0x65, 0x77, 0x65, 0x72, 1, 2, 0x75, 0x31, 0, 0,
];

/// A log over the device, and how many bodies it has.
pub(crate) fn opened<D: Device>(alloc: Global, device: D) -> Result<(GatedLog<D>, usize), Refusal> {
    match GatedLog::open(alloc, device) {
        Ok((log, bodies)) => {
            let count = bodies.len();
            drop(bodies);
            Ok((log, count))
        }
        Err((refusal, device)) => {
            drop(device);
            Err(refusal)
        }
    }
}

/// Whether a device of these bytes is opened by three calls with this many bodies, and then has those bytes.
fn is_found(alloc: Global, content: &[u8], bodies: usize, bytes: &[u8]) -> Result<bool, Refusal> {
    let (log, found) = opened(alloc, disk_of(alloc, content)?)?;
    let mut disk = log.into_device();
    let is_opened = found == bodies && disk.calls() == 3;
    Ok(is_opened && has_bytes(alloc, &mut disk, bytes))
}

const FOUND: &[(&[u8], usize, &[u8], &str)] = &[
    // A device of at most one byte is initialized.
    (&[], 0, &[0], "nothing"),
    (&[0xa5], 0, &[0], "an open gate alone"),
    (&[7], 0, &[0], "one byte"),
    (BATCH, 1, BATCH, "a batch"),
    // A closed gate ends the list.
    (CLOSED, 0, CLOSED, "a batch behind a closed gate"),
];

/// Why no device with the batch is opened once one byte is changed, and this many at the end are left out.
fn refusal_of(alloc: Global, place: usize, byte: u8, left_out: usize) -> Option<Refusal> {
    let content = changed(alloc, BATCH, place, byte, left_out).ok()?;
    let disk = disk_of(alloc, &content);
    drop(content);
    opened(alloc, disk.ok()?).err()
}

const DAMAGED: &[(usize, u8, usize, &str)] = &[
    (4, 0, 0, "no body"),
    (4, 0x17, 0, "a body that is too long"),
    (0, 0xa5, 1, "a record that was cut off"),
    (0, 0xa5, 24, "a length that was cut off"),
];

#[test]
fn an_opening_finds_the_bodies_or_damage(rt: HostRuntime) {
    let alloc = rt.alloc();
    for &(content, bodies, bytes, what) in FOUND {
        assert!(rt;
            is_found(alloc, content, bodies, bytes) == Ok(true),
            "{what}"
        );
    }
    for &(place, byte, left_out, why) in DAMAGED {
        let refusal = refusal_of(alloc, place, byte, left_out);
        assert!(rt; refusal == Some(Refusal::Damaged), "{why}");
    }
}

/// The prepare between four bytes and one.
fn buffer() -> [u8; 45] {
    let mut buf = [7; 45];
    buf[4..44].copy_from_slice(&PREPARE);
    buf
}

/// Whether an append of the prepare fails if its n-th call, one of four, is struck.
fn append_struck<D: Device>(log: &mut GatedLog<D>, n: u64, tear: Tear) -> bool {
    log.fail(n, tear);
    log.append(&mut buffer()).is_ok() == (n > 4)
}

/// Whether these bytes are left by an append after what the device has, whose n-th call failed, or by a whole one.
fn is_left_with<D: Device>(alloc: Global, device: D, n: u64, tear: Tear, bytes: &[u8]) -> bool {
    let Ok((mut log, _)) = opened(alloc, device) else {
        return false;
    };
    let is_as_scripted = append_struck(&mut log, n, tear);
    let mut device = log.into_device();
    is_as_scripted && device.revive().is_ok() && has_bytes(alloc, &mut device, bytes)
}

/// The same after the batch.
fn leaves(alloc: Global, n: u64, tear: Tear, bytes: &[u8]) -> bool {
    match disk_of(alloc, BATCH) {
        Ok(disk) => is_left_with(alloc, disk, n, tear, bytes),
        Err(_) => false,
    }
}

/// The batch, and after it the prepare behind this gate.
fn with_prepare(gate: u8) -> [u8; 73] {
    let mut content = BOTH;
    content[27] = gate;
    content
}

/// Whether such an append leaves the prepare behind this gate, or with no gate the batch alone.
fn leaves_gate(alloc: Global, n: u64, tear: Tear, gate: Option<u8>) -> bool {
    match gate {
        Some(gate) => leaves(alloc, n, tear, &with_prepare(gate)),
        None => leaves(alloc, n, tear, BATCH),
    }
}

/// Which call of an append is struck and how, and what it leaves.
const APPENDED: &[(u64, Tear, Option<u8>)] = &[
    (1, Tear::Old, None),
    (2, Tear::Old, None),
    (1, Tear::New, Some(0)),
    (2, Tear::New, Some(0)),
    (3, Tear::Old, Some(0)),
    (3, Tear::New, Some(0xa5)),
    (3, Tear::Fill(7), Some(7)),
    (4, Tear::Old, Some(0)),
    (4, Tear::New, Some(0xa5)),
    (9, Tear::Old, Some(0xa5)),
];

#[test]
fn an_append_writes_the_record_and_then_its_gate(rt: HostRuntime) {
    for &(n, tear, gate) in APPENDED {
        assert!(rt; leaves_gate(rt.alloc(), n, tear, gate), "{n} {tear:?}");
    }
}

/// How many calls of its disk a log has made after each step: its opening, a list that is emptied, an empty one, two bodies ahead, and their publishing.
fn calls_of_steps(alloc: Global) -> Result<[u64; 6], Refusal> {
    let (mut log, _) = opened(alloc, disk_of(alloc, BATCH)?)?;
    let mut calls = [log.device().calls(); 6];
    log.clear()?;
    calls[1] = log.device().calls();
    log.clear()?;
    calls[2] = log.device().calls();
    log.write_ahead(&mut buffer())?;
    calls[3] = log.device().calls();
    log.write_ahead(&mut buffer())?;
    calls[4] = log.device().calls();
    log.publish()?;
    calls[5] = log.device().calls();
    Ok(calls)
}

/// Writes two bodies ahead, and publishes them.
fn publish_two<D: Device>(log: &mut GatedLog<D>) -> Result<(), Refusal> {
    log.write_ahead(&mut buffer())?;
    log.write_ahead(&mut buffer())?;
    log.publish()
}

/// How many bodies the next opening finds, if the n-th call of that was struck after the batch.
fn found_behind(alloc: Global, n: u64, tear: Tear) -> Result<usize, Refusal> {
    let (mut log, _) = opened(alloc, disk_of(alloc, BATCH)?)?;
    log.fail(n, tear);
    let _ = publish_two(&mut log);
    let mut disk = log.into_device();
    if disk.revive().is_err() {
        return Err(Refusal::Down);
    }
    Ok(opened(alloc, disk)?.1)
}

/// Which of the six calls is struck and how, and how many bodies are found then.
const PUBLISHED: &[(u64, Tear, usize)] = &[
    (1, Tear::New, 1),
    (2, Tear::Fill(0xa5), 1),
    // The last gate, and the sync that makes all before it durable.
    (3, Tear::Fill(0xa5), 1),
    (4, Tear::Old, 1),
    (4, Tear::New, 1),
    (4, Tear::Fill(0xa5), 1),
    // The first gate, and its sync.
    (5, Tear::Old, 1),
    (5, Tear::Fill(7), 1),
    (5, Tear::Fill(0xa5), 3),
    (6, Tear::Old, 1),
    (6, Tear::New, 3),
    // None: the next opening makes three more calls.
    (10, Tear::Old, 3),
];

#[test]
fn bodies_ahead_wait_for_one_sync(rt: HostRuntime) {
    let alloc = rt.alloc();
    assert!(rt; calls_of_steps(alloc) == Ok([3, 5, 5, 6, 7, 11]));
    for &(n, tear, count) in PUBLISHED {
        assert!(rt; found_behind(alloc, n, tear) == Ok(count), "{n} {tear:?}");
    }
}
