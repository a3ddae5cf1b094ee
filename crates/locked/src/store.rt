// The store: its words, and each node under a lock of its own.
ghost use Rattle.std.specs.Prelude.{◌≡◌, ◌≤◌, ◌<◌, length, vec_len};
ghost use Rattle.std.specs.Sync.RwLock.{read_guard_value, write_guard_value};
ghost use Rattle.flights.specs.Places.{number_at};
ghost use Rattle.sides.specs.Sides.{IsLater, KnowsOf};

use crate::{Caller, Gate};
use crossbeam_utils::sync::Unparker;
use device::Device;
use flights::{CoordinatorCell, LaunchLog, ShardCell, ShardPlace};
use sides::{Lists, Room};
use std::alloc::Global;
use std::sync::atomic::AtomicBool;
use std::sync::{Mutex, RwLockReadGuard, RwLockWriteGuard, Wait};
use tuples::{Refusal, Shards};

/// A store that callers share.
#[derive(Drop)]
pub struct Store<D: Device, B: Room, G: Gate> {
    pub(crate) gate: G,
    // wakes the thread that tends it
    pub(crate) bell: Unparker,
    pub(crate) closed: AtomicBool,
    // whether who tends it is to make a round
    pub(crate) is_called: AtomicBool,
    pub(crate) lists: Lists<B>,
    pub(crate) coordinator: CoordinatorCell<D, B>,
    // a node's lock may be held around this one, and never the other way round
    pub(crate) launch_log: Mutex<LaunchLog<B>>,
    // the shard of each number, in their order
    pub(crate) shards: Vec<ShardCell<D, B>>,
    pub(crate) count: Shards,
    ghost of: { count ≡ B.shards },
    ghost all: { vec_len shards ≡ count },
}

impl<D: Device, B: Room, G: Gate> Store<D, B, G> {
    /// How many shards it has.
    pub fn shards(&self) -> Shards
        ensures { result ≡ B.shards }
    {
        self.count
    }

    /// A new caller, which has seen all that there is. No clause says so: what it is to know by contract, another caller has to `tell` it.
    pub fn session<R: Wait>(&self, rt: &R) -> Caller<B> {
        let mut place = self.coordinator.lock(rt);
        place.session(&self.lists)
    }

    /// Another caller, which knows what this one does. It takes no lock.
    pub fn another(&self, caller: &mut Caller<B>) -> Caller<B>
        ensures same { caller.new ≡ caller.old }
        ensures knows { (result.pass ≡ caller.old.pass) × (result.tried ≡ caller.old.tried) }
    {
        caller.another(&self.lists)
    }

    /// The place of the last write, by one load. The caller has then seen as many writes. It takes no lock.
    pub fn latest(&self, caller: &mut Caller<B>) -> u64
        ensures caller { IsLater caller.old.pass caller.new.pass }
        ensures length { length caller.new.pass.seen ≡ result }
        ensures rises { length caller.old.pass.seen ≤ result }
    {
        caller.pass.latest(&self.lists)
    }

    /// The horizon, by one load. The caller has then seen at least that many writes. It takes no lock.
    pub fn horizon(&self, caller: &mut Caller<B>) -> u64
        ensures caller { IsLater caller.old.pass caller.new.pass }
        ensures below { result ≤ length caller.new.pass.seen }
        ensures rises { caller.old.pass.horizon ≤ result }
        ensures known { caller.new.pass.horizon ≡ result }
    {
        caller.pass.horizon(&self.lists)
    }

    /// Each caller learns what the other has seen. It takes no lock.
    pub fn tell(&self, one: &mut Caller<B>, other: &mut Caller<B>)
        ensures one { KnowsOf one.old.pass other.old.pass one.new.pass }
        ensures other { KnowsOf one.old.pass other.old.pass other.new.pass }
    {
        one.pass.share(&self.lists, &mut other.pass);
    }

    // The shard of this number, locked.
    pub(crate) fn side<'a, R: Wait>(
        &'a self,
        rt: &R,
        shard: u8,
    ) -> RwLockWriteGuard<'a, ShardPlace<D, B>>
        requires { shard < self.now.count }
        ensures { number_at (write_guard_value result) ≡ shard }
    {
        for _ in rt.forever() {
            let place = self.shards[shard as usize].lock(rt);
            if place.number() == shard {
                return place;
            }
        }
        unreachable!()
    }

    // The shard of this number, to read: others may read it too.
    pub(crate) fn side_to_read<'a, R: Wait>(
        &'a self,
        rt: &R,
        shard: u8,
    ) -> RwLockReadGuard<'a, ShardPlace<D, B>>
        requires { shard < self.now.count }
        ensures { number_at (read_guard_value result) ≡ shard }
    {
        for _ in rt.forever() {
            let place = self.shards[shard as usize].read(rt);
            if place.number() == shard {
                return place;
            }
        }
        unreachable!()
    }

    /// Opens the coordinator again, with what its devices hold, once these are back from a flush; what was kept joins the list. The refusal of its opening, if
    /// that was refused.
    pub fn restart_coordinator<R: Wait>(&self, rt: &R, alloc: Global) -> Option<Refusal> {
        let refusal = self.coordinator.restart(rt, &self.lists, alloc);
        self.ring();
        refusal
    }

    /// Opens the shard of this number again, with what its devices hold, once these are back from a flush. The refusal of its opening, if that was refused.
    pub fn restart_shard<R: Wait>(&self, rt: &R, alloc: Global, shard: u8) -> Option<Refusal>
        requires { shard < B.shards }
    {
        let refusal = self.shards[shard as usize].restart(rt, alloc);
        self.ring();
        refusal
    }
}
