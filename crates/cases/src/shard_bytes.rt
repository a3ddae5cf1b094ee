// What an opening takes for the bytes of its shard, and what it writes.
use crate::small_stores::{new_disks, open_shard, two_of};
use device::{Device, SimDisk};
use records::Identity;
use std::alloc::Global;
use tuples::{Refusal, Shards};

/// What shard 1 of 2 of store 1 has on its first device after its first opening, in the version that was written first.
const OPENED: [u8; 28] = [
    0xa5, 0, 0, 0, 0x16, 1, 0, 1, 4, 0, 0, 0, 0, 0, 0, 0, 1, 0, 0, 0, 0, 0, 0, 0, 1, 2, 1, 0,
];

/// The same with one of the bytes changed.
fn changed(place: usize, byte: u8) -> [u8; 28] {
    let mut bytes = OPENED;
    if place < bytes.len() {
        bytes[place] = byte;
    }
    bytes
}

/// Whether the device has these bytes, and no others.
fn has_bytes<D: Device>(alloc: Global, device: &mut D, bytes: &[u8]) -> bool {
    if device.len() != Ok(bytes.len()) {
        return false;
    }
    match vec![in alloc; 0; bytes.len()] {
        Ok(mut found) => device.read_at(0, &mut found).is_ok() && found.as_slice() == bytes,
        Err(_) => false,
    }
}

/// The first of the devices after an opening of shard 1 of 2 over these bytes on it.
fn opened_over<D: Device>(alloc: Global, (mut a, b): (D, D), bytes: &[u8]) -> Result<D, Refusal> {
    if a.write_at(0, bytes).is_err() {
        return Err(Refusal::Down);
    }
    let shard = open_shard(alloc, a, b, Identity::shard(1, Shards::of(2), 1))?;
    let (a, b) = shard.into_devices();
    drop(b);
    Ok(a)
}

fn opened_on_disks(alloc: Global, bytes: &[u8]) -> Result<SimDisk, Refusal> {
    let mut disks = new_disks(alloc, 2)?;
    let devices = two_of(&mut disks);
    drop(disks);
    opened_over(alloc, devices?, bytes)
}

/// Why an opening is refused over the first bytes of a first opening, with one of them changed.
fn refusal_over(alloc: Global, len: usize, place: usize, byte: u8) -> Option<Refusal> {
    match changed(place, byte).get(..len) {
        Some(bytes) => opened_on_disks(alloc, bytes).err(),
        None => Some(Refusal::BadRequest),
    }
}

/// How many of the bytes there are, which of them is changed and to what, and why the opening is refused.
const OPENINGS: &[(usize, usize, u8, Option<Refusal>)] = &[
    (28, 0, 0xa5, None),
    // Behind a closed gate there is nothing.
    (28, 0, 0, None),
    (27, 0, 0xa5, Some(Refusal::Damaged)),
    (28, 4, 0, Some(Refusal::Damaged)),
    (28, 4, 0x17, Some(Refusal::Damaged)),
    (28, 5, 3, Some(Refusal::Damaged)),
    (28, 8, 8, Some(Refusal::Damaged)),
    (28, 26, 0, Some(Refusal::Damaged)),
];

#[test]
fn an_opening_takes_the_bytes_of_its_shard_alone(rt: HostRuntime) {
    for &(len, place, byte, wanted) in OPENINGS {
        let refusal = refusal_over(rt.alloc(), len, place, byte);
        assert!(rt; refusal == wanted, "{len} {place} {byte}");
    }
}

/// Whether an opening behind a closed gate leaves the bytes of a first opening, in the version that is written now.
fn writes_one_epoch(alloc: Global) -> Result<bool, Refusal> {
    let mut disk = opened_on_disks(alloc, &changed(0, 0))?;
    Ok(has_bytes(alloc, &mut disk, &changed(5, 2)))
}

#[test]
fn a_first_opening_writes_one_epoch(rt: HostRuntime) {
    assert!(rt; writes_one_epoch(rt.alloc()) == Ok(true));
}
