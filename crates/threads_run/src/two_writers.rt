// Two writers at two shards, each of which waits within its write until the other is within its own.
ghost use Rattle.std.specs.Prelude.{◌≤◌};

use crate::meeting::Meeting;
use crate::opening::FAILED;
use crate::single::{Deed, tell_refusal, write};
use device::Device;
use locked::{Gate, Store};
use sides::Room;
use std::alloc::Global;
use std::rt::Runtime;
use std::sync::Wait;
use std::thread::{self, Threads};
use tuples::{Refusal, Shards, Tuple, shard_of};

// Each shard of a store of four has one of these objects.
const TEXTS: [&str; 4] = [
    "doc:a#viewer@u1",
    "doc:b#viewer@u1",
    "doc:c#viewer@u1",
    "doc:d#viewer@u1",
];

// Whether the object of the tuple with this text has the shard.
fn is_at(alloc: Global, text: &str, shards: Shards, shard: u8) -> Result<bool, Refusal> {
    let tuple = Tuple::parse(alloc, text.as_bytes())?;
    Ok(shard_of(&tuple.object, shards) == shard)
}

// The text of a tuple whose object has this shard.
fn text_at(alloc: Global, shards: Shards, shard: u8) -> Result<&'static str, Refusal> {
    for text in TEXTS {
        if is_at(alloc, text, shards, shard)? {
            return Ok(text);
        }
    }
    Err(Refusal::Damaged)
}

// Writes a tuple of the shard, by a caller of its own.
fn write_at<D: Device, B: Room, G: Gate, R: Wait>(
    rt: &R,
    alloc: Global,
    store: &Store<D, B, G>,
    shard: u8,
) -> Result<u64, Refusal> {
    let text = text_at(alloc, store.shards(), shard)?;
    let mut caller = store.session(rt);
    write(rt, alloc, store, &mut caller, Deed::Touch, text)
}

// Both write, each from a thread of its own.
fn write_both<
    D: Device + Send + Sync,
    B: Room + Send + Sync,
    G: Gate + Sync,
    R: Threads + Wait + Sync,
>(rt: &R, alloc: Global, store: &Store<D, B, G>) -> Result<(), Refusal> {
    let (one, other) = thread::join(
        rt,
        move || write_at(rt, alloc, store, 0),
        move || write_at(rt, alloc, store, 1),
    );
    let _ = one?;
    let _ = other?;
    Ok(())
}

/// Plays it, and prints whether both were inside at once. Returns the status.
pub(crate) fn run<
    D: Device + Send + Sync,
    B: Room + Send + Sync,
    G: Gate + Sync,
    R: Runtime + Threads + Wait + Sync,
>(rt: &R, alloc: Global, store: &Store<D, B, G>, meeting: &Meeting) -> u8 {
    if let Err(refusal) = write_both(rt, alloc, store) {
        tell_refusal(rt, refusal);
        return FAILED;
    }
    let is_met = meeting.all_met();
    let text = if is_met {
        "both writers were inside at once"
    } else {
        "one waited for the other"
    };
    match println!(rt; "{text}") {
        Ok(()) if is_met => 0,
        _ => FAILED,
    }
}
