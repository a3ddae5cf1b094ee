// What the plays ask: writes of one change, and reads of one tuple.
use crate::calling::{namespaces, sets};
use crate::drawing::{add_delete, add_touch};
use answer_flow::{ReadEnd, WatchEnd};
use calls::Told;
use commit_flow::WriteEnd;
use device::Device;
use locked::{Caller, Gate, Store};
use sides::Room;
use std::alloc::Global;
use std::sync::Wait;
use tuples::{Freshness, Refusal, Tuple, Version, Write};

/// What is done to a tuple.
#[derive(Clone, Copy)]
pub(crate) enum Deed {
    Touch,
    Delete,
}

// A write that does it to the tuple with this text.
fn write_of(alloc: Global, deed: Deed, text: &str) -> Result<Write, Refusal> {
    let mut changes = Vec::new(alloc);
    let added = match deed {
        Deed::Touch => add_touch(alloc, &mut changes, text),
        Deed::Delete => add_delete(alloc, &mut changes, text),
    };
    match added {
        Ok(()) => Write::new(changes, Vec::new(alloc)),
        Err(refusal) => Err(refusal),
    }
}

/// Makes the write, and tells its place.
pub(crate) fn write<D: Device, B: Room, G: Gate, R: Wait>(
    rt: &R,
    alloc: Global,
    store: &Store<D, B, G>,
    caller: &mut Caller<B>,
    deed: Deed,
    text: &str,
) -> Result<u64, Refusal> {
    let write = write_of(alloc, deed, text)?;
    match store.write(rt, alloc, caller, &mut Told::new(), write) {
        WriteEnd::Wrote(place) => Ok(place),
        WriteEnd::Refused(refusal) => Err(refusal),
        WriteEnd::Cancelled => unreachable!(),
    }
}

fn has_rows(sets: &[Vec<Tuple>]) -> bool {
    for rows in sets {
        if !rows.is_empty() {
            return true;
        }
    }
    false
}

/// The place of the answer, and whether the tuple with this text is there.
pub(crate) fn has<D: Device, B: Room, G: Gate, R: Wait>(
    rt: &R,
    alloc: Global,
    store: &Store<D, B, G>,
    caller: &mut Caller<B>,
    freshness: Freshness,
    text: &str,
) -> Result<(u64, bool), Refusal> {
    let sets = sets(alloc, text)?;
    match store.read(rt, alloc, caller, &mut Told::new(), freshness, sets) {
        ReadEnd::Answered(place, rows) => Ok((place, has_rows(&rows))),
        ReadEnd::Refused(refusal) => Err(refusal),
    }
}

/// Up to which place it has watched the namespace of documents, a few places on from there, and the events.
pub(crate) fn watch<D: Device, B: Room, G: Gate, R: Wait>(
    rt: &R,
    alloc: Global,
    store: &Store<D, B, G>,
    caller: &mut Caller<B>,
    from: u64,
) -> Result<(u64, Vec<Version>), Refusal> {
    let namespaces = namespaces(alloc, &["doc"])?;
    match store.watch(rt, alloc, caller, &mut Told::new(), from, 16, namespaces) {
        WatchEnd::Answered(place, events) => Ok((place, events)),
        WatchEnd::Refused(refusal) => Err(refusal),
    }
}

/// The text of a refusal on standard error.
pub(crate) fn tell_refusal(rt: &impl Eprint, refusal: Refusal) {
    // A text that can't be printed does not change the status.
    let _ = eprintln!(rt; "harness: refused {refusal}");
}
