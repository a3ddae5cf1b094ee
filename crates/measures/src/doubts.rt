// How long a write takes to be held and released beside others that are in doubt.
use crate::changes::push_touch;
use crate::timing::{now, print_since};
use holds::Holds;
use std::alloc::Global;
use std::rt::Clock;
use tuples::{Changes, Conditions, Entry, Refusal, WriteId};

// How often a write is taken and released.
const TURNS: u32 = 1000;

/// Holds this many writes of one change each, and takes and releases one more write, again and again (`holds`), and prints how long it
/// took. Its answer is how many writes are held at the end.
pub fn measure(rt: &(impl Clock + Eprint), alloc: Global, writes: u32) -> Result<(), Refusal> {
    let mut holds = Holds::new(alloc);
    measure_in(rt, alloc, &mut holds, writes)
}

// What is measured is borrowed, since each exit of a function that owns it is proved.
fn measure_in(
    rt: &(impl Clock + Eprint),
    alloc: Global,
    holds: &mut Holds,
    writes: u32,
) -> Result<(), Refusal> {
    hold_all(alloc, holds, writes)?;
    let start = now(rt);
    let held = take_and_release(alloc, holds, writes);
    print_since(rt, "holds", start, u64::from(TURNS), held)
}

fn hold_all(alloc: Global, holds: &mut Holds, writes: u32) -> Result<(), Refusal> {
    for number in 0..writes {
        holds.take(write(alloc, number)?)?;
    }
    Ok(())
}

// How many writes are held at the end.
fn take_and_release(alloc: Global, holds: &mut Holds, writes: u32) -> Result<u64, Refusal> {
    for _ in 0..TURNS {
        holds.take(write(alloc, writes)?)?;
        drop(holds.release(id(writes)));
    }
    Ok(holds.len() as u64)
}

fn id(number: u32) -> WriteId {
    WriteId {
        epoch: 1,
        number: u64::from(number),
    }
}

// A touch of a tuple of its own.
fn write(alloc: Global, number: u32) -> Result<Entry, Refusal> {
    let text = format!(in alloc; "doc:d{number}#viewer@u1")?;
    let mut changes = Vec::new(alloc);
    push_touch(alloc, &mut changes, text.as_bytes())?;
    Ok(Entry {
        id: id(number),
        changes: Changes::from_vec(changes),
        conditions: Conditions::from_vec(Vec::new(alloc)),
    })
}
