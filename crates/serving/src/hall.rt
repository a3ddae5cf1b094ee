// What the threads of a server share: where connections wait, and what sessions are told.
ghost use Rattle.std.specs.Prelude.{◌≡◌, ◌<◌, ◌^◌, ◌≤◌, ◌+◌, IfNone, IfSome, length, ℕ};
ghost use Rattle.connections.specs.Ends.{IsWhole};
ghost use Rattle.connections.specs.Numbers.{IsEach};

use crate::signs::Signs;
use connections::{AcceptorPass, Connections, WorkerPass};
use std::net::TcpStream;
use std::sync::Wait;

#[derive(Drop)]
pub(crate) struct Hall {
    pub(crate) queue: Connections<TcpStream>,
    pub(crate) signs: Signs,
}

impl Hall {
    /// A connection waits for a worker from now on, or is closed at once if 1,024 wait.
    pub(crate) fn put<R: Wait>(
        &self,
        rt: &R,
        acceptor: &mut AcceptorPass<TcpStream>,
        stream: TcpStream,
    )
        requires queue { acceptor.old.queue ≡ self.now.queue }
        requires number { acceptor.old.put < 2 ^ 62 }
        ensures queue { (acceptor.new.queue ≡ acceptor.old.queue) × (acceptor.new.passes ≡ acceptor.old.passes) }
        ensures number { acceptor.new.put ≤ acceptor.old.put + 1 }
    {
        // Before it can be taken, so that no more are taken than were counted.
        self.signs.add_waiting();
        if self.queue.put(rt, acceptor, stream).is_err() {
            self.signs.remove_waiting();
        }
    }

    /// The connection that has waited longest. Once all passes are gathered in this one, None says that each connection that was put was taken once.
    pub(crate) fn take<R: Wait>(
        &self,
        rt: &R,
        worker: &mut WorkerPass<TcpStream>,
    ) -> Option<TcpStream>
        requires queue { worker.old.queue ≡ self.now.queue }
        ensures pass { (worker.new.queue ≡ worker.old.queue) × (worker.new.passes ≡ worker.old.passes) × (worker.new.end ≡ worker.old.end) }
        ensures some { IfSome result (λ stream. length worker.new.taken ≡ length worker.old.taken + 1) }
        ensures none { IfNone result (worker.new ≡ worker.old) }
        ensures each { IfNone result ((put : ℕ) → IsWhole worker.old put → IsEach put worker.old.taken) }
    {
        let (_, stream) = self.queue.take(rt, worker)?;
        self.signs.remove_waiting();
        Some(stream)
    }
}
