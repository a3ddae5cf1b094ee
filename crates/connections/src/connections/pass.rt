// Passes: values in which the acceptor and the workers carry what they know.
ghost use Rattle.std.specs.Prelude.{◌≡◌, [], Some};

use super::rule::{Numbered, View};
use crossbeam_queue::Pass;
use std::marker::Model;

/// The acceptor's pass. There is one. Contracts see its queue, how many connections were put, how many passes the queue has, and the numbers that the acceptor
/// knows were taken, since `Connections::audit` told it.
#[derive(Drop)]
pub struct AcceptorPass<C> {
    pub(super) pass: Pass<Numbered<C>, View>,
    pub(super) put: u64,
}

impl<C> Model for AcceptorPass<C> {
    ghost use Rattle.std.specs.Prelude.{◌≡◌, []};
    ghost use Rattle.connections.specs.Ends.{Putting};
    ghost use Rattle.connections.specs.Waiting.{acceptor};

    ghost Value = { Putting };

    ghost view = { λ a. record { queue = a.pass.table_id; put = a.put; passes = a.pass.me.0.client.made; told = a.pass.me.0.client.told } };

    ghost invariant = { λ a. (a.pass.me.0.client ≡ acceptor a.put a.pass.me.0.client.made a.pass.me.0.client.told) × (a.pass.me.1 ≡ []) };
}

impl<C> AcceptorPass<C> {
    /// How many connections were put, which is the last one's number.
    pub fn count(&self) -> u64
        ensures { result ≡ self.now.put }
    {
        self.put
    }

    /// The pass as one that takes: nothing is put any more.
    pub fn close(self) -> WorkerPass<C>
        ensures { result ≡ record { queue = self.queue; passes = 1; taken = []; end = Some (record { put = self.put; passes = self.passes }) } }
    {
        WorkerPass { pass: self.pass }
    }
}

/// A worker's pass. Contracts see its queue, how many passes are gathered in it, the numbers that they took, and how many connections were put in all, if the
/// acceptor's is among them.
#[derive(Drop)]
pub struct WorkerPass<C> {
    pub(super) pass: Pass<Numbered<C>, View>,
}

impl<C> Model for WorkerPass<C> {
    ghost use Rattle.std.specs.Prelude.{◌≡◌, ◌≤◌, []};
    ghost use Rattle.connections.specs.Ends.{Taking};
    ghost use Rattle.connections.specs.Waiting.{end_of};

    ghost Value = { Taking };

    ghost view = { λ w. record { queue = w.pass.table_id; passes = w.pass.me.0.client.share; taken = w.pass.me.0.client.taken; end = end_of w.pass.me.0.client } };

    ghost invariant = { λ w. (1 ≤ w.pass.me.0.client.share) × (w.pass.me.1 ≡ []) };
}
