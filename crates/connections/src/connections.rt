// The queue between the acceptor and the workers.
ghost use Rattle.std.specs.Prelude.{◌≡◌, ◌+◌, ◌++◌, ◌<◌, ◌^◌, ◌≤◌, [], ◌∷◌, IfOk, ◌-◌, IfErr, IfSome, OnErr, OnOk, IfNone, All, vec_len};
ghost use Rattle.std.specs.Prelude.{ℕ, None};
ghost use Rattle.connections.specs.Ends.{IsWhole};
ghost use Rattle.connections.specs.Numbers.{IsAbove, IsEach, IsOnceEach, IsUpTo};

mod pass;
mod rule;
mod steps;
#[cfg(test)]
mod tests;

use crossbeam_queue::RuledArrayQueue;
pub use pass::{AcceptorPass, WorkerPass};
use rule::{InOrder, Numbered, View};
use std::alloc::{AllocError, Global};
use std::marker::Model;
use std::sync::Wait;
use steps::{Notes, Puts, Takes, Together, Workers};

// How many may wait.
const PLACES: usize = 1024;

/// Connections that wait for a worker, of which there are 1,024 at most.
/// A pass belongs to the queue that it came from, and contracts see which this is.
#[derive(Drop)]
pub struct Connections<C> {
    queue: RuledArrayQueue<Numbered<C>, View, InOrder>,
}

impl<C> Model for Connections<C> {
    ghost use Rattle.std.specs.Prelude.{◌≡◌};
    ghost use Rattle.atomic_table.specs.Seated.{TableId};
    ghost use Rattle.connections.specs.declared.connections.TheConstants.{PLACES};

    ghost Value = { TableId };

    ghost view = { λ q. q.queue.table.shared.table_id };

    ghost invariant = { λ q. q.queue.cap ≡ PLACES };
}

impl<C: Drop> Connections<C> {
    /// An empty queue, with the acceptor's pass and one for each worker.
    pub fn new(
        alloc: Global,
        workers: usize,
    ) -> Result<(Connections<C>, AcceptorPass<C>, Vec<WorkerPass<C>>), AllocError>
        ensures acceptor { IfOk result (λ r. (r.1.queue ≡ r.0) × (r.1.put ≡ 0) × (r.1.passes ≡ workers + 1) × (r.1.told ≡ [])) }
        ensures workers { IfOk result (λ r. (vec_len r.2 ≡ workers) × All (λ w. (w.queue ≡ r.0) × (w.passes ≡ 1) × (w.taken ≡ []) × (w.end ≡ None)) r.2.items) }
    {
        let (queue, mut acceptor) = Connections::empty(alloc)?;
        let mut passes = Vec::with_capacity(alloc, workers)?;
        for worker in 0..workers {
            let _number = worker;
            passes.push(queue.worker(&mut acceptor))?;
        }
        Ok((queue, acceptor, passes))
    }

    // An empty queue, with the acceptor's pass.
    fn empty(alloc: Global) -> Result<(Connections<C>, AcceptorPass<C>), AllocError>
        ensures { IfOk result (λ r. (r.1.queue ≡ r.0) × (r.1.put ≡ 0) × (r.1.passes ≡ 1) × (r.1.told ≡ [])) }
    {
        let (queue, pass) = RuledArrayQueue::ruled(alloc, PLACES)?;
        Ok((Connections { queue }, AcceptorPass { pass, put: 0 }))
    }

    // One more worker's pass.
    fn worker(&self, acceptor: &mut AcceptorPass<C>) -> WorkerPass<C>
        requires { acceptor.old.queue ≡ self.now }
        ensures acceptor { acceptor.new ≡ record acceptor.old { passes = acceptor.old.passes + 1 } }
        ensures worker { (result.queue ≡ self.now) × (result.passes ≡ 1) × (result.taken ≡ []) × (result.end ≡ None) }
    {
        let pass = self.queue.another::<Workers>(&mut acceptor.pass);
        WorkerPass { pass }
    }

    /// Puts a connection under the next number. It comes back only if all that the acceptor knows to be taken stand before the last 1,024 that were put, and no
    /// number is spent on it then.
    pub fn put<R: Wait>(
        &self,
        rt: &R,
        acceptor: &mut AcceptorPass<C>,
        connection: C,
    ) -> Result<(), C>
        requires queue { acceptor.old.queue ≡ self.now }
        requires number { acceptor.old.put < 2 ^ 62 }
        ensures same { (acceptor.new.queue ≡ acceptor.old.queue) × (acceptor.new.passes ≡ acceptor.old.passes) × (acceptor.new.told ≡ acceptor.old.told) }
        ensures ok { OnOk result (acceptor.new.put ≡ acceptor.old.put + 1) }
        ensures back { IfErr result (λ c. (c ≡ connection) × (acceptor.new.put ≡ acceptor.old.put)) }
        ensures full { OnErr result (PLACES ≤ acceptor.old.put × IsUpTo (acceptor.old.put - PLACES) acceptor.old.told) }
    {
        let number = acceptor.put + 1;
        let numbered = Numbered { number, connection };
        match self
            .queue
            .push_as::<Puts, R>(rt, &mut acceptor.pass, numbered)
        {
            Ok(()) => {
                acceptor.put = number;
                Ok(())
            }
            Err(Numbered { connection, .. }) => Err(connection),
        }
    }

    /// Takes a connection, with its number, which is above all that the pass took. If all passes are gathered in this one, None says that each number that
    /// was put was taken, and none twice.
    pub fn take<R: Wait>(&self, rt: &R, worker: &mut WorkerPass<C>) -> Option<(u64, C)>
        requires queue { worker.old.queue ≡ self.now }
        ensures queue { worker.new.queue ≡ worker.old.queue }
        ensures passes { (worker.new.passes ≡ worker.old.passes) × (worker.new.end ≡ worker.old.end) }
        ensures some { IfSome result (λ r. IsAbove r.0 worker.old.taken × (worker.new.taken ≡ worker.old.taken ++ r.0 ∷ [])) }
        ensures none { IfNone result (worker.new ≡ worker.old) }
        ensures each { IfNone result ((put : ℕ) → IsWhole worker.old put → IsEach put worker.old.taken) }
    {
        let numbered = self.queue.pop_as::<Takes, R>(rt, &mut worker.pass)?;
        let Numbered { number, connection } = numbered;
        Some((number, connection))
    }

    /// What two workers took, as that of one. No number was taken twice.
    pub fn gather(&self, one: &mut WorkerPass<C>, other: WorkerPass<C>)
        requires { (one.old.queue ≡ self.now) × (other.queue ≡ self.now) }
        ensures queue { one.new.queue ≡ one.old.queue }
        ensures passes { (one.new.passes ≡ one.old.passes + other.passes) × (one.new.end ≡ one.old.end) }
        ensures both { one.new.taken ≡ one.old.taken ++ other.taken }
        ensures once { IsOnceEach one.new.taken }
    {
        let WorkerPass { pass } = other;
        let queue = &self.queue;
        queue.absorb::<Together>(&mut one.pass, pass);
        queue.learn_as::<Together>(&mut one.pass);
    }

    /// Tells the acceptor what the worker took. Each number of it is one that was put.
    pub fn audit(&self, acceptor: &mut AcceptorPass<C>, worker: &mut WorkerPass<C>)
        requires { (acceptor.old.queue ≡ self.now) × (worker.old.queue ≡ self.now) }
        ensures same { (acceptor.new.queue ≡ acceptor.old.queue) × (acceptor.new.put ≡ acceptor.old.put) × (acceptor.new.passes ≡ acceptor.old.passes) × (worker.new ≡ worker.old) }
        ensures told { acceptor.new.told ≡ acceptor.old.told ++ worker.old.taken }
        ensures put { IsUpTo acceptor.new.put acceptor.new.told }
        ensures once { IsOnceEach worker.old.taken }
    {
        let queue = &self.queue;
        let note = queue.another::<Notes>(&mut worker.pass);
        queue.absorb::<Notes>(&mut acceptor.pass, note);
        queue.learn_as::<Notes>(&mut acceptor.pass);
        queue.learn_as::<Together>(&mut worker.pass);
    }
}
