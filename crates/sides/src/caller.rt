// Who asks a store, and what it knows.
ghost use Rattle.std.specs.Prelude.{◌≡◌, ◌≤◌, length};
ghost use Rattle.sides.specs.Sides.{IsLater, KnowsOf};

use crate::{Attempt, Lists, Room};
use published::SessionPass;
use std::marker::{Model, PhantomData};
use tuples::Entry;

/// One that asks a store, as a connection or a thread. It stands for the list of writes that was seen by it, or by one that told it.
#[derive(Drop)]
pub struct Caller<B: Room> {
    pub pass: Pass<B>,
    /// What it knows of decisions, its own among them.
    pub tried: Tried<B>,
}

impl<B: Room> Caller<B> {
    /// Another caller, which knows what this one does, and for which nothing was staged yet. It takes no lock.
    pub fn another(&mut self, lists: &Lists<B>) -> Caller<B>
        ensures same { self.new ≡ self.old }
        ensures knows { (result.pass ≡ self.old.pass) × (result.tried ≡ self.old.tried) }
    {
        Caller {
            pass: self.pass.note(lists),
            tried: self.tried.note(lists),
        }
    }
}

/// A pass of the words of a store's writes. Contracts see it as that.
#[derive(Drop)]
pub struct Pass<B: Room> {
    pub(crate) pass: SessionPass<Entry>,
    pub(crate) room: PhantomData<B>,
}

impl<B: Room> Model for Pass<B> {
    ghost use Rattle.std.specs.Prelude.{◌≡◌};
    ghost use Rattle.published.specs.Known.{Known};
    ghost use Rattle.tuples.specs.declared.entry.Entry.{Entry as AnyEntry};

    ghost Value = { Known AnyEntry };

    ghost view = { λ p. p.pass };

    ghost invariant = { λ p. p.pass.table ≡ B.log };
}

impl<B: Room> Pass<B> {
    /// The place of the last write, by one load. The pass has then seen as many writes.
    pub fn latest(&mut self, lists: &Lists<B>) -> u64
        ensures later { IsLater self.old self.new }
        ensures length { length self.new.seen ≡ result }
        ensures rises { length self.old.seen ≤ result }
    {
        lists.writes.latest(&mut self.pass)
    }

    /// The horizon, by one load. The pass has then seen at least that many writes.
    pub fn horizon(&mut self, lists: &Lists<B>) -> u64
        ensures later { IsLater self.old self.new }
        ensures below { result ≤ length self.new.seen }
        ensures rises { self.old.horizon ≤ result }
        ensures known { self.new.horizon ≡ result }
    {
        lists.writes.horizon(&mut self.pass)
    }

    /// Each pass learns what the other has seen.
    pub fn share(&mut self, lists: &Lists<B>, other: &mut Pass<B>)
        ensures one { KnowsOf self.old other.old self.new }
        ensures other { KnowsOf self.old other.old other.new }
    {
        lists.writes.share(&mut self.pass, &mut other.pass);
    }

    // A pass that knows what this one does.
    fn note(&mut self, lists: &Lists<B>) -> Pass<B>
        ensures same { self.new ≡ self.old }
        ensures knows { result ≡ self.old }
    {
        Pass {
            pass: lists.writes.note(&mut self.pass),
            room: PhantomData,
        }
    }
}

/// What a caller knows of all decisions that the coordinator has ever staged, and the number of the flight that carries what was staged for it last. Contracts
/// see it as its pass.
#[derive(Drop)]
pub struct Tried<B: Room> {
    pub(crate) pass: SessionPass<Attempt>,
    pub(crate) ticket: Option<u64>,
    pub(crate) room: PhantomData<B>,
}

impl<B: Room> Model for Tried<B> {
    ghost use Rattle.std.specs.Prelude.{◌≡◌};
    ghost use Rattle.published.specs.Known.{Known};
    ghost use Rattle.ties.specs.Ties.{Attempt as AnyAttempt};

    ghost Value = { Known AnyAttempt };

    ghost view = { λ t. t.pass };

    ghost invariant = { λ t. t.pass.table ≡ B.attempts };
}

impl<B: Room> Tried<B> {
    /// What was staged for it last goes by this flight.
    pub fn board(&mut self, ticket: u64)
        ensures { self.new ≡ self.old }
    {
        self.ticket = Some(ticket);
    }

    /// The flight that has to land before all is durable that was staged for it; none if nothing was since it asked last.
    pub fn take_ticket(&mut self) -> Option<u64>
        ensures { self.new ≡ self.old }
    {
        self.ticket.take()
    }

    // One that knows what this one does, and has no flight to wait for.
    fn note(&mut self, lists: &Lists<B>) -> Tried<B>
        ensures same { self.new ≡ self.old }
        ensures knows { result ≡ self.old }
    {
        Tried {
            pass: lists.attempts.note(&mut self.pass),
            ticket: None,
            room: PhantomData,
        }
    }
}
