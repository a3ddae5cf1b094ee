ghost use Rattle.std.specs.Prelude.{◌≡◌, ◌≤◌};
ghost use Rattle.connections.specs.Numbers.{IsOnceEach, IsUpTo};

use super::*;
use std::sync::Wait;
use std::sync::atomic::{AtomicU64, Ordering};
use std::test::*;
use std::thread;
use std::thread::{Threads, join};

// Puts as many connections as there are places, and counts those that went in.
fn fill<R: Wait>(rt: &R, queue: &Connections<u64>, acceptor: &mut AcceptorPass<u64>) -> u64
    requires queue { acceptor.old.queue ≡ queue.now }
    requires none { acceptor.old.put ≡ 0 }
    ensures queue { acceptor.new.queue ≡ queue.now }
    ensures room { acceptor.new.put ≤ 1024 }
{
    let mut count = 0;
    for connection in 0..1024u64 {
        if queue.put(rt, acceptor, 7 * connection).is_ok() {
            count += 1;
        }
    }
    count
}

// Whether as many connections as there are places go in, and the next one comes back.
fn is_filled<R: Wait>(rt: &R, queue: &Connections<u64>, acceptor: &mut AcceptorPass<u64>) -> bool
    requires queue { acceptor.old.queue ≡ queue.now }
    requires none { acceptor.old.put ≡ 0 }
    ensures queue { acceptor.new.queue ≡ queue.now }
    ensures room { acceptor.new.put ≤ 1025 }
{
    let filled = fill(rt, queue, acceptor);
    let back = queue.put(rt, acceptor, 5);
    filled == 1024 && back == Err(5) && acceptor.count() == 1024
}

// Whether a full queue has a place again once a connection was taken.
fn is_free_again<R: Wait>(
    rt: &R,
    queue: &Connections<u64>,
    acceptor: &mut AcceptorPass<u64>,
    worker: &mut WorkerPass<u64>,
) -> bool
    requires queue { (acceptor.old.queue ≡ queue.now) × (worker.old.queue ≡ queue.now) }
    requires room { acceptor.old.put ≤ 1025 }
{
    let first = queue.take(rt, worker);
    let put = queue.put(rt, acceptor, 6);
    let second = queue.take(rt, worker);
    first == Some((1, 0)) && put == Ok(()) && second == Some((2, 7)) && acceptor.count() == 1025
}

#[test]
fn a_full_queue_gives_the_connection_back(rt: HostRuntime) -> Result<(), Fail> {
    let (queue, mut acceptor, mut workers) = Connections::new(rt.alloc(), 3)?;
    assert_eq!(rt; workers.len(), 3);
    let mut worker = workers.pop().ok_or("a worker")?;
    assert!(rt; queue.take(&rt, &mut worker).is_none());
    assert!(rt; is_filled(&rt, &queue, &mut acceptor));
    assert!(rt; is_free_again(&rt, &queue, &mut acceptor, &mut worker));
    Ok(())
}

const COUNT: u64 = 10_000;

// Puts all connections, each three times its number. One that comes back is put again.
fn put_all<R: Wait>(
    rt: &R,
    queue: &Connections<u64>,
    acceptor: AcceptorPass<u64>,
) -> AcceptorPass<u64>
    requires queue { acceptor.queue ≡ queue.now }
    requires none { acceptor.put ≡ 0 }
    ensures { result.queue ≡ queue.now }
{
    let mut acceptor = acceptor;
    for _ in rt.forever() {
        if acceptor.count() >= COUNT {
            break;
        }
        let connection = 3 * (acceptor.count() + 1);
        if queue.put(rt, &mut acceptor, connection).is_err() {
            thread::yield_now();
        }
    }
    acceptor
}

// Takes until none is left, and counts how often each number was taken with its own connection.
fn take_all<R: Wait>(
    rt: &R,
    queue: &Connections<u64>,
    worker: WorkerPass<u64>,
    left: &AtomicU64,
    times: &[AtomicU64],
) -> WorkerPass<u64>
    requires { worker.queue ≡ queue.now }
    ensures { result.queue ≡ queue.now }
{
    let mut worker = worker;
    for _ in rt.forever() {
        if left.load(Ordering::SeqCst) == 0 {
            break;
        }
        match queue.take(rt, &mut worker) {
            Some((number, connection)) => {
                count(times, number, connection);
                left.fetch_sub(1, Ordering::SeqCst);
            }
            None => thread::yield_now(),
        }
    }
    worker
}

// Counts one take of a number, if it came with its own connection.
fn count(times: &[AtomicU64], number: u64, connection: u64) {
    if connection / 3 == number
        && connection % 3 == 0
        && let Some(counter) = times.get(number as usize)
    {
        counter.fetch_add(1, Ordering::SeqCst);
    }
}

// Two threads take. What both took is then that of one.
fn two_take<R: Threads + Wait + Sync>(
    rt: &R,
    queue: &Connections<u64>,
    workers: (WorkerPass<u64>, WorkerPass<u64>),
    left: &AtomicU64,
    times: &[AtomicU64],
) -> WorkerPass<u64>
    requires { (workers.0.queue ≡ queue.now) × (workers.1.queue ≡ queue.now) }
    ensures queue { result.queue ≡ queue.now }
    ensures once { IsOnceEach result.taken }
{
    let (one, other) = workers;
    let (mut one, other) = join(
        rt,
        move || -> WorkerPass<u64>
            requires { one.queue ≡ queue.now }
            ensures { result.queue ≡ queue.entry.now }
        { take_all(rt, queue, one, left, times) },
        move || -> WorkerPass<u64>
            requires { other.queue ≡ queue.now }
            ensures { result.queue ≡ queue.entry.now }
        { take_all(rt, queue, other, left, times) },
    );
    queue.gather(&mut one, other);
    one
}

// One thread puts, and two take. Each number was put, and was taken once at most. It ends with the acceptor's pass, and with one of both workers.
fn day<R: Threads + Wait + Sync>(
    rt: &R,
    queue: &Connections<u64>,
    acceptor: AcceptorPass<u64>,
    workers: (WorkerPass<u64>, WorkerPass<u64>),
    times: &[AtomicU64],
) -> (AcceptorPass<u64>, WorkerPass<u64>)
    requires acceptor { (acceptor.queue ≡ queue.now) × (acceptor.put ≡ 0) }
    requires workers { (workers.0.queue ≡ queue.now) × (workers.1.queue ≡ queue.now) }
    ensures queue { (result.0.queue ≡ queue.now) × (result.1.queue ≡ queue.now) }
    ensures put { IsUpTo result.0.put result.0.told }
{
    let left = AtomicU64::new(COUNT);
    let left = &left;
    let (mut acceptor, mut worker) = join(
        rt,
        move || -> AcceptorPass<u64>
            requires { (acceptor.queue ≡ queue.now) × (acceptor.put ≡ 0) }
            ensures { result.queue ≡ queue.entry.now }
        { put_all(rt, queue, acceptor) },
        move || -> WorkerPass<u64>
            requires { (workers.0.queue ≡ queue.now) × (workers.1.queue ≡ queue.now) }
            ensures { result.queue ≡ queue.entry.now }
        { two_take(rt, queue, workers, left, times) },
    );
    queue.audit(&mut acceptor, &mut worker);
    (acceptor, worker)
}

// A counter for each number, and one for 0.
fn counters(alloc: Global) -> Result<Vec<AtomicU64>, AllocError> {
    let mut counters = Vec::with_capacity(alloc, COUNT as usize + 1)?;
    for _ in 0..=COUNT {
        counters.push(AtomicU64::new(0))?;
    }
    Ok(counters)
}

// Whether each counter but the first is 1.
fn is_once_each(counters: &[AtomicU64]) -> bool {
    let mut once = true;
    for (number, counter) in counters.iter().enumerate() {
        once = once && counter.load(Ordering::SeqCst) == u64::from(number > 0);
    }
    once
}

#[test]
fn two_workers_take_each_connection_once(rt: HostRuntime) -> Result<(), Fail> {
    let times = counters(rt.alloc())?;
    let (queue, acceptor, mut workers) = Connections::new(rt.alloc(), 2)?;
    let one = workers.pop().ok_or("a worker")?;
    let other = workers.pop().ok_or("another worker")?;
    let (acceptor, worker) = day(&rt, &queue, acceptor, (one, other), times.as_slice());
    assert_eq!(rt; acceptor.count(), 10_000);
    let mut last = acceptor.close();
    queue.gather(&mut last, worker);
    assert!(rt; queue.take(&rt, &mut last).is_none());
    assert!(rt; is_once_each(times.as_slice()));
    Ok(())
}
