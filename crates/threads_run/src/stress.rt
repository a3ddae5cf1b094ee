// The threads of a run, and what they were told.
use crate::asked::Stress;
use crate::course::Course;
use crate::opening::FAILED;
use crate::plan::{KINDS, Kind};
use crate::random::Random;
use crate::worker::Worker;
use crossbeam_utils::sync::Parker;
use device::Device;
use locked::{Gate, Store, Unnoticed, Window};
use sides::Room;
use std::alloc::{AllocError, Global};
use std::io::{self, Write};
use std::rt::Runtime;
use std::sync::Wait;
use std::thread::{self, Threads};
use std::time::Clock;
use tuples::Shards;

// One of this kind, which has seen all that there is.
fn new_worker<D: Device, B: Room, G: Gate, R: Wait>(
    rt: &R,
    alloc: Global,
    store: &Store<D, B, G>,
    kind: Kind,
    number: u64,
    seed: u64,
) -> Worker<B> {
    let caller = store.session(rt);
    Worker::new(alloc, kind, number, caller, Random::of(seed, number))
}

// Those of all kinds, except for the last part.
fn new_workers<D: Device, B: Room, G: Gate, R: Wait>(
    rt: &R,
    alloc: Global,
    store: &Store<D, B, G>,
    seed: u64,
) -> Result<Vec<Worker<B>>, AllocError> {
    let mut workers = Vec::new(alloc);
    let mut number = 0u64;
    for (kind, count) in KINDS {
        for _ in 0..count {
            number = number.saturating_add(1);
            workers.reserve(1)?;
            workers.push_reserved(new_worker(rt, alloc, store, kind, number, seed));
        }
    }
    Ok(workers)
}

// Each works in a thread of its own.
fn work_all<
    D: Device + Send + Sync,
    B: Room + Send + Sync,
    G: Gate + Sync,
    R: Threads + Wait + Clock + Sync,
>(rt: &R, store: &Store<D, B, G>, course: &Course, workers: &mut [Worker<B>], seconds: u64) {
    let threads = workers.len().max(1);
    thread::for_each_mut(
        rt,
        workers,
        threads,
        &|_, worker: &mut Worker<B>| {
            let calls = worker.kind.calls_in(seconds);
            worker.work(rt, store, course, calls);
        },
    );
}

// Nothing is collected.
const EVERYTHING: Window = Window {
    places: u64::MAX,
    bytes: u64::MAX,
};

// They work while another thread tends the store.
fn work_and_keep<
    D: Device + Send + Sync,
    B: Room + Send + Sync,
    G: Gate + Sync,
    R: Threads + Wait + Clock + Sync,
>(
    rt: &R,
    alloc: Global,
    store: &Store<D, B, G>,
    course: &Course,
    workers: &mut [Worker<B>],
    parker: Parker,
    seconds: u64,
) {
    let mut keeper = store.session(rt);
    thread::join(
        rt,
        move || store.keep(rt, alloc, &mut keeper, EVERYTHING, &parker, &mut Unnoticed),
        || {
            work_all(rt, store, course, workers, seconds);
            store.close();
        },
    );
}

// The caller's head, and its lines.
fn print_worker<B: Room, R: Print>(rt: &R, worker: &Worker<B>) -> io::Result<()> {
    println!(rt; "caller {} {}", worker.number, worker.kind.name())?;
    io::writer(rt).write_all(worker.page.bytes())
}

// Prints the whole run, the last part last. Returns whether none of it is missing.
fn print_all<B: Room, R: Print>(
    rt: &R,
    workers: &[Worker<B>],
    ending: &Worker<B>,
    seed: u64,
    shards: Shards,
) -> io::Result<bool> {
    let shards = shards.count();
    println!(rt; "threads {seed} {shards}")?;
    let mut is_whole = true;
    for worker in workers {
        print_worker(rt, worker)?;
        is_whole = is_whole && !worker.page.is_torn();
    }
    print_worker(rt, ending)?;
    Ok(is_whole && !ending.page.is_torn())
}

// They work, the last part follows, and all is printed. The trouble is the last of them.
fn run_workers<
    D: Device + Send + Sync,
    B: Room + Send + Sync,
    G: Gate + Sync,
    R: Runtime + Threads + Wait + Sync,
>(
    rt: &R,
    alloc: Global,
    store: &Store<D, B, G>,
    course: &Course,
    workers: &mut [Worker<B>],
    parker: Parker,
    asked: Stress,
) -> u8 {
    if let Some(trouble) = workers.last_mut() {
        trouble.tell_failures(course, store.shards());
    }
    work_and_keep(rt, alloc, store, course, workers, parker, asked.seconds);
    let number = workers.len() as u64 + 1;
    let mut ending = new_worker(rt, alloc, store, Kind::End, number, asked.seed);
    let is_told = match workers.last_mut() {
        Some(trouble) => ending.end(rt, store, course, trouble),
        None => false,
    };
    match print_all(rt, workers, &ending, asked.seed, store.shards()) {
        Ok(true) if is_told => 0,
        _ => FAILED,
    }
}

/// Runs threads of all kinds over the store, and prints what each was told. Returns the status.
pub(crate) fn run<
    D: Device + Send + Sync,
    B: Room + Send + Sync,
    G: Gate + Sync,
    R: Runtime + Threads + Wait + Sync,
>(rt: &R, alloc: Global, store: &Store<D, B, G>, parker: Parker, asked: Stress) -> u8 {
    let Ok(course) = Course::begin(rt, asked.seconds.saturating_mul(1_000)) else {
        return FAILED;
    };
    match new_workers(rt, alloc, store, asked.seed) {
        Ok(mut workers) => run_workers(rt, alloc, store, &course, &mut workers, parker, asked),
        Err(_) => FAILED,
    }
}
