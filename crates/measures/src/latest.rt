// Loads of the safe place.
ghost use Rattle.std.specs.Prelude.{◌≡◌};

use crate::timing::{now, print_since};
use published::{LogPass, Published, SessionPass};
use std::alloc::Global;
use std::thread::{Threads, join};
use std::time::Clock;
use tuples::Refusal;

// A constant, so that a compiler may unroll the loop as far as it can.
const LOADS: u64 = 100_000_000;

/// How many threads load.
#[derive(Clone, Copy)]
pub enum By {
    One,
    Four,
}

/// Whether the load stands in the loop, or in a function that the loop calls.
#[derive(Clone, Copy)]
pub enum Way {
    Inlined,
    Called,
}

fn load(words: &Published<u64>, pass: SessionPass<u64>, way: Way) -> u64
    requires { pass.table ≡ words.now }
{
    match way {
        Way::Inlined => load_inlined(words, pass),
        Way::Called => load_called(words, pass),
    }
}

// Looks again and again whether the safe place fell.
fn load_inlined(words: &Published<u64>, pass: SessionPass<u64>) -> u64
    requires { pass.table ≡ words.now }
{
    let mut pass = pass;
    let mut last = 0u64;
    for _ in 0..LOADS {
        let place = words.latest(&mut pass);
        if place < last {
            break;
        }
        last = place;
    }
    last
}

// The same, by a call for each look.
fn load_called(words: &Published<u64>, pass: SessionPass<u64>) -> u64
    requires { pass.table ≡ words.now }
{
    let mut pass = pass;
    let mut last = 0u64;
    for _ in 0..LOADS {
        let place = latest(words, &mut pass);
        if place < last {
            break;
        }
        last = place;
    }
    last
}

#[inline(never)]
fn latest(words: &Published<u64>, pass: &mut SessionPass<u64>) -> u64
    requires { pass.old.table ≡ words.now }
    ensures { pass.new.table ≡ words.now }
{
    words.latest(pass)
}

// Loads by two threads at once.
fn load_by_two<R: Threads + Sync>(
    rt: &R,
    words: &Published<u64>,
    passes: (SessionPass<u64>, SessionPass<u64>),
    way: Way,
) -> u64
    requires { (passes.0.table ≡ words.now) × (passes.1.table ≡ words.now) }
{
    let (one, other) = passes;
    let (one, other) = join(
        rt,
        move ||
            requires { one.table ≡ words.now }
        { load(words, one, way) },
        move ||
            requires { other.table ≡ words.now }
        { load(words, other, way) },
    );
    one.wrapping_add(other)
}

// Loads by four threads at once.
fn load_by_four<R: Threads + Sync>(
    rt: &R,
    words: &Published<u64>,
    log: &mut LogPass<u64>,
    way: Way,
) -> u64
    requires { log.old.table ≡ words.now }
{
    let one = (words.session(log), words.session(log));
    let other = (words.session(log), words.session(log));
    let (one, other) = join(
        rt,
        move ||
            requires { (one.0.table ≡ words.now) × (one.1.table ≡ words.now) }
        { load_by_two(rt, words, one, way) },
        move ||
            requires { (other.0.table ≡ words.now) × (other.1.table ≡ words.now) }
        { load_by_two(rt, words, other, way) },
    );
    one.wrapping_add(other)
}

// How many loads there were, and what they found.
fn load_by<R: Threads + Sync>(
    rt: &R,
    words: &Published<u64>,
    log: &mut LogPass<u64>,
    by: By,
    way: Way,
) -> (u64, u64)
    requires { log.old.table ≡ words.now }
{
    match by {
        By::One => (LOADS, load(words, words.session(log), way)),
        By::Four => (4 * LOADS, load_by_four(rt, words, log, way)),
    }
}

/// Loads by this many threads at once; prints how long they took.
pub fn measure<R: Clock + Eprint + Threads + Sync>(
    rt: &R,
    alloc: Global,
    by: By,
    way: Way,
) -> Result<(), Refusal> {
    let start = now(rt);
    let (words, mut log) = Published::new(alloc)?;
    let (loads, last) = load_by(rt, &words, &mut log, by, way);
    print_since(rt, "latest", start, loads, Ok(last))
}
