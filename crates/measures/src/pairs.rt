// Connections that are put and taken.
ghost use Rattle.std.specs.Prelude.{◌≡◌, All};

use crate::timing::{now, print_since};
use connections::{AcceptorPass, Connections, WorkerPass};
use std::alloc::Global;
use std::sync::Wait;
use std::thread::{self, Threads, join};
use std::time::Clock;
use tuples::Refusal;

/// Whether one thread puts and takes, or two do one each.
#[derive(Clone, Copy)]
pub enum By {
    One,
    Two,
}

// Puts connections and takes each at once, and adds up their numbers.
fn put_and_take<R: Wait>(
    rt: &R,
    queue: &Connections<u64>,
    acceptor: AcceptorPass<u64>,
    worker: WorkerPass<u64>,
    count: u32,
) -> u64
    requires acceptor { (acceptor.queue ≡ queue.now) × (acceptor.put ≡ 0) }
    requires worker { worker.queue ≡ queue.now }
{
    let mut acceptor = acceptor;
    let mut worker = worker;
    let mut sum = 0u64;
    for connection in 0..u64::from(count) {
        if queue.put(rt, &mut acceptor, connection).is_err() {
            break;
        }
        if let Some((number, _connection)) = queue.take(rt, &mut worker) {
            sum = sum.wrapping_add(number);
        }
    }
    sum
}

// Puts all connections. One that comes back is put again.
fn put_all<R: Wait>(rt: &R, queue: &Connections<u64>, acceptor: AcceptorPass<u64>, count: u32)
    requires { (acceptor.queue ≡ queue.now) × (acceptor.put ≡ 0) }
{
    let mut acceptor = acceptor;
    for _ in rt.forever() {
        let number = acceptor.count();
        if number >= u64::from(count) {
            break;
        }
        if queue.put(rt, &mut acceptor, number).is_err() {
            thread::yield_now();
        }
    }
}

// Takes until the last connection, and adds up their numbers.
fn take_all<R: Wait>(rt: &R, queue: &Connections<u64>, worker: WorkerPass<u64>, count: u32) -> u64
    requires { worker.queue ≡ queue.now }
{
    let mut worker = worker;
    let mut sum = 0u64;
    for _ in rt.forever() {
        match queue.take(rt, &mut worker) {
            Some((number, _connection)) => {
                sum = sum.wrapping_add(number);
                if number >= u64::from(count) {
                    break;
                }
            }
            None => thread::yield_now(),
        }
    }
    sum
}

// One thread puts, and another takes.
fn hand_over<R: Threads + Wait + Sync>(
    rt: &R,
    queue: &Connections<u64>,
    acceptor: AcceptorPass<u64>,
    worker: WorkerPass<u64>,
    count: u32,
) -> u64
    requires acceptor { (acceptor.queue ≡ queue.now) × (acceptor.put ≡ 0) }
    requires worker { worker.queue ≡ queue.now }
{
    let ((), sum) = join(
        rt,
        move ||
            requires { (acceptor.queue ≡ queue.now) × (acceptor.put ≡ 0) }
        { put_all(rt, queue, acceptor, count) },
        move ||
            requires { worker.queue ≡ queue.now }
        { take_all(rt, queue, worker, count) },
    );
    sum
}

// The sum of the numbers that were taken, if there is a worker.
fn pass_on<R: Threads + Wait + Sync>(
    rt: &R,
    queue: &Connections<u64>,
    acceptor: AcceptorPass<u64>,
    mut workers: Vec<WorkerPass<u64>>,
    by: By,
    count: u32,
) -> u64
    requires acceptor { (acceptor.queue ≡ queue.now) × (acceptor.put ≡ 0) }
    requires workers { All (λ w. w.queue ≡ queue.now) workers.items }
{
    let Some(worker) = workers.pop() else {
        return 0;
    };
    match by {
        By::One => put_and_take(rt, queue, acceptor, worker, count),
        By::Two => hand_over(rt, queue, acceptor, worker, count),
    }
}

/// This many pairs of a put and a take, by one thread or by one each; prints how long they took.
pub fn measure<R: Clock + Eprint + Threads + Wait + Sync>(
    rt: &R,
    alloc: Global,
    by: By,
    count: u32,
) -> Result<(), Refusal> {
    let start = now(rt);
    let (queue, acceptor, workers) = Connections::new(alloc, 1)?;
    let sum = pass_on(rt, &queue, acceptor, workers, by, count);
    print_since(rt, "pairs", start, u64::from(count), Ok(sum))
}
