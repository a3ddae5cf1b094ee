// How long versions take to be applied and to be read.
ghost use Rattle.std.specs.Prelude.{IfOk};
ghost use Rattle.measures.specs.Reads.{Found};

use crate::changes::{push_touch, push_touches};
use crate::timing::{now, print, print_since, since};
use std::alloc::{AllocError, Global};
use std::rt::Clock;
use tuples::{Change, Refusal, Tupleset};
use versions::{Budget, Versions};

// How many tuples an object has.
const USERS: u32 = 10;

// How often each read is done.
const READS: u64 = 10_000;

// How many users the crowd has.
const CROWD: u32 = 10_000;

// What is read of the rows, and with the crowd beside them, each with its name.
const OF_ROWS: &[(&str, &str)] = &[("key", "doc:d5#viewer@u3"), ("object", "doc:d5")];

const OF_CROWD: &[(&str, &str)] = &[("crowded", "doc:crowd#editor"), ("user", "doc@me")];

/// Applies this many rows, a write of one change each (`apply`), reads a key (`key`) and an object (`object`) of them, and with a crowd
/// beside them the ten editors of what it views (`crowded`) and the ten objects of one user (`user`). Then it asks for the newest place of
/// each tuple (`last`), and forgets half of the rows once each tuple was changed again (`collect`). It prints how long each took. What a
/// read answers is how many tuples it found.
pub fn measure(rt: &(impl Clock + Eprint), alloc: Global, rows: u32) -> Result<(), Refusal> {
    let mut versions = Versions::new(alloc);
    let mut changes = Vec::new(alloc);
    let mut crowd = Vec::new(alloc);
    measure_all(rt, alloc, &mut versions, &mut changes, &mut crowd, rows)
}

// What is measured is borrowed, since each exit of a function that owns it is proved.
fn measure_all(
    rt: &(impl Clock + Eprint),
    alloc: Global,
    versions: &mut Versions,
    changes: &mut Vec<Change>,
    crowd: &mut Vec<Change>,
    rows: u32,
) -> Result<(), Refusal> {
    push_rows(alloc, changes, rows)?;
    let place = u64::from(rows);
    let start = now(rt);
    let applied = apply_all(versions, 1, changes);
    print_since(rt, "apply", start, place, applied)?;
    read_each(rt, alloc, versions, place, OF_ROWS)?;
    apply_crowd(alloc, versions, crowd, place + 1)?;
    read_each(rt, alloc, versions, u64::MAX, OF_CROWD)?;
    let start = now(rt);
    let newest = newest(versions, changes);
    print_since(rt, "last", start, place, Ok(newest))?;
    apply_all(versions, place + 1, changes)?;
    collect(rt, versions, changes, place + place / 2)
}

// What lies below the horizon is forgotten.
fn collect(
    rt: &(impl Clock + Eprint),
    versions: &mut Versions,
    changes: &[Change],
    horizon: u64,
) -> Result<(), Refusal> {
    let start = now(rt)?;
    versions.collect(horizon);
    let elapsed = since(rt, start)?;
    let newest = newest(versions, changes);
    print(rt, "collect", elapsed, changes.len() as u64, newest)
}

// The newest place of all tuples.
fn newest(versions: &Versions, changes: &[Change]) -> u64 {
    let mut newest = 0;
    for change in changes {
        newest = versions.last(change.tuple()).max(newest);
    }
    newest
}

// Reads the tupleset of each text, and prints by its name how long that took.
fn read_each(
    rt: &(impl Clock + Eprint),
    alloc: Global,
    versions: &Versions,
    place: u64,
    reads: &[(&str, &str)],
) -> Result<(), Refusal> {
    for (name, text) in reads {
        let set = Tupleset::parse(alloc, text.as_bytes())?;
        let read = read(rt, alloc, versions, place, name, &set);
        drop(set);
        read?;
    }
    Ok(())
}

fn read(
    rt: &(impl Clock + Eprint),
    alloc: Global,
    versions: &Versions,
    place: u64,
    name: &str,
    set: &Tupleset,
) -> Result<(), Refusal> {
    // One read comes before the clock starts, so that what came before the reads, as memory that was just given back, does not count.
    let mut tuples = found(alloc, versions, place, set)?;
    let start = now(rt);
    for _ in 0..READS {
        tuples = found(alloc, versions, place, set)?;
    }
    print_since(rt, name, start, READS, Ok(tuples as u64))
}

// How many tuples a read finds.
fn found(
    alloc: Global,
    versions: &Versions,
    place: u64,
    set: &Tupleset,
) -> Result<usize, AllocError>
    ensures { IfOk result (λ n. Found versions.now place set.now n) }
{
    let tuples = versions.at(alloc, place, set, &mut Budget::unbounded())?;
    Ok(tuples.len())
}

// Touches of the tuples of `doc:d0`, then of those of `doc:d1`, and so on.
fn push_rows(alloc: Global, changes: &mut Vec<Change>, rows: u32) -> Result<(), Refusal> {
    for row in 0..rows {
        let text = format!(in alloc; "doc:d{}#viewer@u{}", row / USERS, row % USERS)?;
        push_touch(alloc, changes, text.as_bytes())?;
    }
    Ok(())
}

// Many users view one object that ten of them edit, and one user views ten objects.
fn apply_crowd(
    alloc: Global,
    versions: &mut Versions,
    crowd: &mut Vec<Change>,
    from: u64,
) -> Result<u64, Refusal> {
    push_touches(alloc, crowd, CROWD, "doc:crowd#viewer@u", "")?;
    push_touches(alloc, crowd, USERS, "doc:crowd#editor@u", "")?;
    push_touches(alloc, crowd, USERS, "doc:m", "#viewer@me")?;
    apply_all(versions, from, crowd)
}

// Each at a place of its own, from this one on; gives how many they are.
fn apply_all(versions: &mut Versions, from: u64, changes: &[Change]) -> Result<u64, Refusal> {
    for i in 0..changes.len() {
        versions.apply(from.saturating_add(i as u64), &changes[i..i + 1])?;
    }
    Ok(changes.len() as u64)
}
