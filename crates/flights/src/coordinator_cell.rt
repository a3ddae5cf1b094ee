// The coordinator that callers share, under a lock of its own.
ghost use Rattle.std.specs.Prelude.{◌≡◌, IfErr, MatchResult};
ghost use Rattle.std.specs.Sync.Mutex.{mutex_guard_value};
ghost use Rattle.calls.specs.Belonging.{IsReplyTo};
ghost use Rattle.calls.specs.Refusing.{Notes};
ghost use Rattle.calls.specs.declared.call.NodeCall.TheVariants.{Coordinator as of_coordinator};
ghost use Rattle.calls.specs.declared.call.CoordinatorCall.TheVariants.{Checkpoint as checkpoint_call, Flush as flush_call};
ghost use Rattle.sides.specs.Sides.{IsLater};
ghost use Rattle.flights.specs.LogPlaces.{HasCount, tried_at};

use crate::landings::{ANY, Landings};
use crate::spinning::lock_soon;
use crate::waiting::{Lands, awaited};
use crate::{CoordinatorPlace, Flight, LaunchLog, Restart};
use calls::{Reply, Told};
use device::Device;
use sides::{Caller, Lists, Pass, Room};
use std::alloc::Global;
use std::sync::{Mutex, MutexGuard, Wait};
use tuples::Refusal;

/// The coordinator under its lock, which nobody holds while a flight's devices sync; and those who wait for these to land.
#[derive(Drop)]
pub struct CoordinatorCell<D: Device, B: Room> {
    place: Mutex<CoordinatorPlace<D, B>>,
    landings: Landings,
}

impl<D: Device, B: Room> CoordinatorCell<D, B> {
    /// Nobody waits for it yet.
    pub fn new(place: CoordinatorPlace<D, B>) -> CoordinatorCell<D, B> {
        CoordinatorCell {
            place: Mutex::new(place),
            landings: Landings::new(),
        }
    }

    /// The coordinator, locked.
    pub fn lock<'a, R: Wait>(&'a self, rt: &R) -> MutexGuard<'a, CoordinatorPlace<D, B>> {
        lock_soon(rt, &self.place)
    }

    /// The coordinator, locked, while a decision more can be counted among all that were ever staged. 2^64 - 1 can, which no run uses up; after them it waits
    /// forever.
    pub fn lock_to_ask<'a, R: Wait>(
        &'a self,
        rt: &R,
        lists: &Lists<B>,
    ) -> MutexGuard<'a, CoordinatorPlace<D, B>>
        ensures { HasCount (tried_at (mutex_guard_value result)) }
    {
        for _ in rt.forever() {
            let mut place = self.lock(rt);
            if place.may_decide(lists) {
                return place;
            }
        }
        unreachable!()
    }

    // Locked as it is, or else again, once the flight of this number has landed or its devices are here. If it has landed, others may still wait for it: the
    // caller passes it on to them.
    fn landed<'a, R: Wait>(
        &'a self,
        rt: &R,
        place: MutexGuard<'a, CoordinatorPlace<D, B>>,
        ticket: u64,
    ) -> MutexGuard<'a, CoordinatorPlace<D, B>> {
        let mut place = place;
        for _ in rt.forever() {
            let Some((flight, seen)) = awaited(&*place, &self.landings, ticket) else {
                return place;
            };
            drop(place);
            self.landings.wait(rt, flight, seen);
            place = self.lock(rt);
        }
        unreachable!()
    }

    // Locked, once its devices are here.
    fn lock_here<'a, R: Wait>(&'a self, rt: &R) -> MutexGuard<'a, CoordinatorPlace<D, B>> {
        let place = self.landed(rt, self.lock(rt), ANY);
        // It may have been woken in the place of another, who would sleep for ever if no flight left after it.
        self.landings.tell_all();
        place
    }

    // The next flight, which leaves now; or what is told of a flush, once all that was staged for the caller has landed, or if nothing can leave. If
    // nothing was staged for the caller since it asked last, that is all that is staged now.
    fn leave<R: Wait>(
        &self,
        rt: &R,
        lists: &Lists<B>,
        log: &Mutex<LaunchLog<B>>,
        caller: &mut Caller<B>,
        told: &mut Told,
    ) -> Result<Flight<D, B>, Reply>
        ensures same { caller.new.tried ≡ caller.old.tried }
        ensures caller { IsLater caller.old.pass caller.new.pass }
        ensures belongs { IfErr result (IsReplyTo (of_coordinator flush_call)) }
        ensures told { MatchResult result (λ _. told.new ≡ told.old) (λ reply. Notes told.old reply told.new) }
    {
        let place = self.lock(rt);
        let ticket = caller.tried.take_ticket().unwrap_or(place.ticket());
        let mut place = self.landed(rt, place, ticket);
        if place.has_landed(ticket) {
            let reply = place.tell_flushed(lists, &mut caller.pass, told);
            drop(place);
            self.landings.pass_on(ticket);
            return Err(reply);
        }
        let flight = place.launch(lists, &mut lock_soon(rt, log));
        match flight {
            Some(flight) => Ok(flight),
            None => {
                let reply = place.tell_flushed(lists, &mut caller.pass, told);
                drop(place);
                // Nobody else can have one leave either.
                self.landings.tell_all();
                Err(reply)
            }
        }
    }

    // Makes durable what flies, without the lock, and lands it; what is durable then joins the list.
    fn fly<R: Wait>(
        &self,
        rt: &R,
        lists: &Lists<B>,
        flight: Flight<D, B>,
        pass: &mut Pass<B>,
        told: &mut Told,
    ) -> Reply
        ensures caller { IsLater pass.old pass.new }
        ensures belongs { IsReplyTo (of_coordinator flush_call) result }
        ensures told { Notes told.old result told.new }
    {
        let flown = flight.fly();
        let mut place = self.lock(rt);
        // No other flight can have its devices.
        let _ = place.land(lists, flown);
        let next = place.ticket();
        let reply = place.tell_flushed(lists, pass, told);
        drop(place);
        self.landings.tell(next);
        reply
    }

    /// Makes durable what was staged for the caller. If its devices are out it waits for them to land, and whoever is first then takes along what all have
    /// staged. What is durable joins the list as they land.
    pub fn flush<R: Wait>(
        &self,
        rt: &R,
        lists: &Lists<B>,
        log: &Mutex<LaunchLog<B>>,
        caller: &mut Caller<B>,
        told: &mut Told,
    ) -> Reply
        ensures same { caller.new.tried ≡ caller.old.tried }
        ensures caller { IsLater caller.old.pass caller.new.pass }
        ensures belongs { IsReplyTo (of_coordinator flush_call) result }
        ensures told { Notes told.old result told.new }
    {
        match self.leave(rt, lists, log, caller, told) {
            Ok(flight) => self.fly(rt, lists, flight, &mut caller.pass, told),
            Err(reply) => reply,
        }
    }

    /// Replaces its records by a checkpoint of what it knows, once its devices are here. Nobody else asks it meanwhile.
    pub fn checkpoint<R: Wait>(
        &self,
        rt: &R,
        lists: &Lists<B>,
        pass: &mut Pass<B>,
        told: &mut Told,
    ) -> Reply
        ensures caller { IsLater pass.old pass.new }
        ensures belongs { IsReplyTo (of_coordinator checkpoint_call) result }
        ensures told { Notes told.old result told.new }
    {
        for _ in rt.forever() {
            let mut place = self.lock_here(rt);
            if let Some(reply) = place.checkpoint(lists, pass, told) {
                return reply;
            }
        }
        unreachable!()
    }

    /// Opens it again, once its devices are here, and what it found joins the list. The refusal of its opening, if that was refused.
    pub fn restart<R: Wait>(&self, rt: &R, lists: &Lists<B>, alloc: Global) -> Option<Refusal> {
        for _ in rt.forever() {
            let mut place = self.lock_here(rt);
            match place.restart(lists, alloc) {
                Restart::IsUp => return None,
                Restart::IsRefused(refusal) => return Some(refusal),
                Restart::HasToWait => {}
            }
        }
        unreachable!()
    }
}
