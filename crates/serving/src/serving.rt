// A server over a listener.
ghost use Rattle.std.specs.Prelude.{◌≡◌, ◌+◌, ◌≤◌, ℕ, All, IfOk, IsErr, None, OnOk, vec_capacity, vec_len};
ghost use Rattle.serving.specs.Ending.{HasAccepted, HaveTakenAll};

use crate::accepting::{Acceptor, let_tick};
use crate::begun::Begun;
use crate::crowd::Crowd;
use crate::ended::Ended;
use crate::fork::Fork;
use crate::gathering::PassOf;
use crate::hall::Hall;
use crate::report::Report;
use crate::signs::Signs;
use crate::working::Worker;
use connections::{Connections, WorkerPass};
use crossbeam_utils::sync::{Parker, Unparker};
use std::alloc::{AllocError, Global};
use std::io::{self, ErrorKind};
use std::net::{TcpListener, TcpStream};
use std::snapshot::Snapshot;
use std::sync::Wait;
use std::thread::{self, Threads};
use std::time::Clock;

/// How a server serves.
#[derive(Clone, Copy)]
pub struct Serving {
    /// For how many ticks, of a second each, an idle session keeps its worker while others wait; 0: for ever.
    pub idle: u64,
    /// The server ends after so many connections. Once the last has come, a session is cut if it is idle for a tick.
    pub connections: Option<u64>,
}

/// Serves connections of the listener, by a thread for each worker, until so many have come and are served, each by a session of its own from its worker's
/// fork. Each thread tells that it runs before it looks for a connection. An error of the listener, or one that the report gives, ends it once each session
/// has answered the request that it is at, and is in what it gives back. However it ended then, the workers took each connection that was put, each once.
/// It fails before it accepts any if there are no workers, if memory is refused, if the listener cannot tick, or if a thread cannot be made, and then not all
/// have told that they run. Else it fails only if the workers left a connection.
pub fn serve_on<R, F, T, N>(
    rt: &R,
    alloc: Global,
    listener: &TcpListener,
    serving: &Serving,
    workers: Vec<F>,
    begun: &T,
    report: &mut N,
) -> io::Result<Ended>
where
    R: Threads + Wait + Clock + Sync,
    F: Fork + Send + Drop,
    F::Session: Send,
    T: Begun + Sync,
    N: Report,
    ensures workers { vec_len workers ≡ 0 → IsErr result }
    ensures all { IfOk result (λ ended. (put : ℕ) × HaveTakenAll (vec_len workers) put ended.pass × HasAccepted serving.now.connections put ended.accepted) }
{
    let_tick(listener)?;
    let (queue, pass, passes) = Connections::new(alloc, workers.len())?;
    let hall = Hall {
        queue,
        signs: Signs::new(),
    };
    let mut bells = Vec::new(alloc);
    let workers = equipped(alloc, &hall, passes, workers, &mut bells)?;
    let acceptor = Acceptor {
        hall: &hall,
        listener,
        pass,
        bells,
        crowd: Crowd::new(),
    };
    run(rt, alloc, serving, acceptor, workers, begun, report)
}

// The workers with their passes, and what wakes each of them.
fn equipped<'a, F: Fork + Drop>(
    alloc: Global,
    hall: &'a Hall,
    mut passes: Vec<WorkerPass<TcpStream>>,
    workers: Vec<F>,
    bells: &mut Vec<Unparker>,
) -> Result<Vec<Worker<'a, F>>, AllocError>
    requires own { All (λ w. (w.queue ≡ hall.now.queue) × (w.passes ≡ 1) × (w.end ≡ None)) passes.items }
    requires count { vec_len passes ≡ vec_len workers }
    ensures workers { IfOk result (λ made. vec_len made ≡ vec_len workers) }
    ensures hall { IfOk result (λ made. All (λ worker. worker.hall.now.queue ≡ hall.now.queue) made.items) }
    ensures bells { IfOk result (λ made. vec_len bells.new ≡ vec_len bells.old + vec_len workers) }
{
    let mut equipped = Vec::new(alloc);
    for fork in workers {
        let Some(pass) = passes.pop() else {
            unreachable!()
        };
        equipped.push(equip(alloc, hall, pass, fork, bells)?)?;
    }
    Ok(equipped)
}

// A worker with its pass, and what wakes it.
fn equip<'a, F: Fork + Drop>(
    alloc: Global,
    hall: &'a Hall,
    pass: WorkerPass<TcpStream>,
    fork: F,
    bells: &mut Vec<Unparker>,
) -> Result<Worker<'a, F>, AllocError>
    requires { (pass.queue ≡ hall.now.queue) × (pass.passes ≡ 1) × (pass.end ≡ None) }
    ensures hall { IfOk result (λ worker. worker.hall.now.queue ≡ hall.now.queue) }
    ensures bells { OnOk result (vec_len bells.new ≡ vec_len bells.old + 1) }
{
    let parker = Parker::new(alloc)?;
    bells.push(parker.unparker().clone()?)?;
    Ok(Worker {
        hall,
        parker,
        pass,
        fork,
    })
}

// Runs the workers beside the acceptor. If a thread cannot be made, the server closes at once.
fn run<R, F, T, N>(
    rt: &R,
    alloc: Global,
    serving: &Serving,
    acceptor: Acceptor<'_>,
    workers: Vec<Worker<'_, F>>,
    begun: &T,
    report: &mut N,
) -> io::Result<Ended>
where
    R: Threads + Wait + Clock + Sync,
    F: Fork + Send + Drop,
    F::Session: Send,
    T: Begun + Sync,
    N: Report,
    requires none { acceptor.pass.put ≡ 0 }
    requires passes { acceptor.pass.passes ≡ vec_len workers + 1 }
    requires hall { All (λ worker. worker.hall.now.queue ≡ acceptor.hall.now.queue) workers.items }
    ensures workers { vec_len workers.entry ≡ 0 → IsErr result }
    ensures all { IfOk result (λ ended. (put : ℕ) × HaveTakenAll (vec_len workers.entry) put ended.pass × HasAccepted serving.now.connections put ended.accepted) }
{
    if workers.is_empty() {
        return Err(ErrorKind::InvalidInput.into());
    }
    let mut threads = Vec::with_capacity(alloc, workers.len())?;
    let report = &mut *report;
    thread::scope(
        thread::scope_env(),
        rt,
        move |scope| -> io::Result<Ended>
            requires none { acceptor.pass.put ≡ 0 }
            requires passes { acceptor.pass.passes ≡ vec_len workers + 1 }
            requires hall { All (λ worker. worker.hall.now.queue ≡ acceptor.hall.now.queue) workers.items }
            requires threads { (vec_len threads ≡ 0) × (vec_len workers ≤ vec_capacity threads) }
            ensures { IfOk result (λ ended. (put : ℕ) × HaveTakenAll (vec_len workers.entry) put ended.pass × HasAccepted serving.entry.now.connections put ended.accepted) }
        {
            for worker in workers {
                let promise = PassOf(Snapshot::of(&worker.hall.queue));
                let made = scope.spawn_with(promise, move || {
                    begun.note();
                    worker.serve_all(rt, alloc, serving)
                });
                match made {
                    Ok(thread) => threads.push_reserved(thread),
                    Err(_) => {
                        acceptor.close();
                        return Err(io::Error::other("could not start a thread"));
                    }
                }
            }
            acceptor.accept_and_gather(rt, serving.connections, report, threads)
        },
    )
}
