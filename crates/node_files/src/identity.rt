// Which store a folder has, for a caller who gave the id or the number of shards of another one.
use files::{Cause, FileDevice, HostFile};
use records::{Record, decode_batch};
use std::alloc::Global;
use tuples::Shards;

/// An open gate.
pub(crate) const OPEN: u8 = 0xa5;

// The first body of a list, and what follows it.
fn next_body(list: &[u8]) -> Option<(&[u8], &[u8])> {
    let (head, rest) = list.split_first_chunk::<5>()?;
    let [gate, a, b, c, d] = *head;
    if gate != OPEN {
        return None;
    }
    rest.split_at_checked(u32::from_be_bytes([a, b, c, d]) as usize)
}

// The store and the number of shards that an opening noted in this batch.
fn noted_in(alloc: Global, body: &[u8]) -> Option<(u64, u8)> {
    let records = decode_batch(alloc, body).ok()?;
    records.iter().find_map(|record| match record {
        Record::Epoch { store, shards, .. } => Some((*store, *shards)),
        _ => None,
    })
}

// The same for a bank. An opening is noted in its first batch, or in the next one, after the begin of a checkpoint.
fn noted_at_first(alloc: Global, bank: &[u8]) -> Option<(u64, u8)> {
    let (first, rest) = next_body(bank)?;
    if let Some(noted) = noted_in(alloc, first) {
        return Some(noted);
    }
    let (second, _) = next_body(rest)?;
    noted_in(alloc, second)
}

/// That the folder has the store of another id, or of another number of shards, if the files of the coordinator, the first two, say so.
pub(crate) fn other_store(
    alloc: Global,
    devices: &[FileDevice<HostFile>],
    store: u64,
    shards: Shards,
) -> Option<Cause> {
    let (found, count) = devices
        .iter()
        .take(2)
        .find_map(|device| noted_at_first(alloc, device.found()))?;
    if found == store && count == shards.count() {
        return None;
    }
    Some(Cause::IsOfStore(found, count))
}
