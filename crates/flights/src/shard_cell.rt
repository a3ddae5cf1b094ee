// A shard that callers share, under a lock of its own.
ghost use Rattle.std.specs.Prelude.{◌≡◌, ℕ, IfErr, MatchResult};
ghost use Rattle.calls.specs.Belonging.{IsReplyTo};
ghost use Rattle.calls.specs.Refusing.{Notes};
ghost use Rattle.calls.specs.declared.call.NodeCall.TheVariants.{Shard as of_shard};
ghost use Rattle.calls.specs.declared.call.ShardCall.TheVariants.{Checkpoint as checkpoint_call, Flush as flush_call};

use crate::landings::{ANY, Landings};
use crate::spinning::{lock_soon, read_soon, write_soon};
use crate::waiting::{Lands, awaited};
use crate::{Flight, LaunchLog, Restart, ShardPlace};
use calls::{Reply, Told};
use device::Device;
use sides::{Lists, Room};
use std::alloc::Global;
use std::sync::{Mutex, RwLock, RwLockReadGuard, RwLockWriteGuard, Wait};
use tuples::Refusal;

/// A shard under its lock, which nobody holds while a flight's devices sync, and many may hold to read; and those who wait for these to land.
#[derive(Drop)]
pub struct ShardCell<D: Device, B: Room> {
    place: RwLock<ShardPlace<D, B>>,
    landings: Landings,
}

impl<D: Device, B: Room> ShardCell<D, B> {
    /// Nobody waits for it yet.
    pub fn new(place: ShardPlace<D, B>) -> ShardCell<D, B> {
        ShardCell {
            place: RwLock::new(place),
            landings: Landings::new(),
        }
    }

    /// The shard, locked.
    pub fn lock<'a, R: Wait>(&'a self, rt: &R) -> RwLockWriteGuard<'a, ShardPlace<D, B>> {
        write_soon(rt, &self.place)
    }

    /// The shard to read, while others may read too, and nobody changes it.
    pub fn read<'a, R: Wait>(&'a self, rt: &R) -> RwLockReadGuard<'a, ShardPlace<D, B>> {
        read_soon(rt, &self.place)
    }

    // Locked as it is, or else again, once the flight of this number has landed or its devices are here. If it has landed, others may still wait for it: the
    // caller passes it on to them.
    fn landed<'a, R: Wait>(
        &'a self,
        rt: &R,
        place: RwLockWriteGuard<'a, ShardPlace<D, B>>,
        ticket: u64,
    ) -> RwLockWriteGuard<'a, ShardPlace<D, B>> {
        let mut place = place;
        for _ in rt.forever() {
            let Some((flight, seen)) = awaited(&*place, &self.landings, ticket) else {
                return place;
            };
            drop(place);
            self.landings.wait(rt, flight, seen);
            place = self.lock(rt);
        }
        unreachable!()
    }

    // Locked, once its devices are here.
    fn lock_here<'a, R: Wait>(&'a self, rt: &R) -> RwLockWriteGuard<'a, ShardPlace<D, B>> {
        let place = self.landed(rt, self.lock(rt), ANY);
        // It may have been woken in the place of another, who would sleep for ever if no flight left after it.
        self.landings.tell_all();
        place
    }

    // The next flight, which leaves now; or what is told of a flush, once all that is staged now has landed, or if nothing can leave.
    fn leave<R: Wait>(
        &self,
        rt: &R,
        lists: &Lists<B>,
        log: &Mutex<LaunchLog<B>>,
        told: &mut Told,
    ) -> Result<Flight<D, B>, Reply>
        ensures belongs { (number : ℕ) → IfErr result (IsReplyTo (of_shard number flush_call)) }
        ensures told { MatchResult result (λ _. told.new ≡ told.old) (λ reply. Notes told.old reply told.new) }
    {
        let place = self.lock(rt);
        let ticket = place.ticket();
        let mut place = self.landed(rt, place, ticket);
        if place.has_landed(ticket) {
            let reply = place.tell_flushed(told);
            drop(place);
            self.landings.pass_on(ticket);
            return Err(reply);
        }
        let flight = place.launch(lists, &mut lock_soon(rt, log));
        match flight {
            Some(flight) => Ok(flight),
            None => {
                let reply = place.tell_flushed(told);
                drop(place);
                // Nobody else can have one leave either.
                self.landings.tell_all();
                Err(reply)
            }
        }
    }

    // Makes durable what flies, without the lock, and lands it.
    fn fly<R: Wait>(&self, rt: &R, lists: &Lists<B>, flight: Flight<D, B>, told: &mut Told) -> Reply
        ensures belongs { (number : ℕ) → IsReplyTo (of_shard number flush_call) result }
        ensures told { Notes told.old result told.new }
    {
        let flown = flight.fly();
        let mut place = self.lock(rt);
        // No other flight can have its devices.
        let _ = place.land(rt, lists, flown);
        let next = place.ticket();
        let reply = place.tell_flushed(told);
        drop(place);
        self.landings.tell(next);
        reply
    }

    /// Makes durable what is staged. If its devices are out it waits for them to land, and whoever is first then takes along what all have staged.
    pub fn flush<R: Wait>(
        &self,
        rt: &R,
        lists: &Lists<B>,
        log: &Mutex<LaunchLog<B>>,
        told: &mut Told,
    ) -> Reply
        ensures belongs { (number : ℕ) → IsReplyTo (of_shard number flush_call) result }
        ensures told { Notes told.old result told.new }
    {
        match self.leave(rt, lists, log, told) {
            Ok(flight) => self.fly(rt, lists, flight, told),
            Err(reply) => reply,
        }
    }

    /// Replaces the records of the shard by a checkpoint of what it knows, once its devices are here. Nobody else asks the shard meanwhile.
    pub fn checkpoint<R: Wait>(&self, rt: &R, told: &mut Told) -> Reply
        ensures belongs { (number : ℕ) → IsReplyTo (of_shard number checkpoint_call) result }
        ensures told { Notes told.old result told.new }
    {
        for _ in rt.forever() {
            let mut place = self.lock_here(rt);
            if let Some(reply) = place.checkpoint(told) {
                return reply;
            }
        }
        unreachable!()
    }

    /// Opens it again, once its devices are here. The refusal of its opening, if that was refused.
    pub fn restart<R: Wait>(&self, rt: &R, alloc: Global) -> Option<Refusal> {
        for _ in rt.forever() {
            let mut place = self.lock_here(rt);
            match place.restart(alloc) {
                Restart::IsUp => return None,
                Restart::IsRefused(refusal) => return Some(refusal),
                Restart::HasToWait => {}
            }
        }
        unreachable!()
    }
}
