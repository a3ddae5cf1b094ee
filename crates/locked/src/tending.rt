// A store is tended beside its callers: what waits at its nodes is carried on.
ghost use Rattle.std.specs.Prelude.{◌≡◌, ◌≤◌, ◌<◌, ◌+◌, ◌/◌, IfNone, IfSome};
ghost use Rattle.care_flow.specs.Cares.{IsThere, begun};
ghost use Rattle.names.specs.declared.care.Care.TheVariants.{Flush as flush_of};
ghost use Rattle.sides.specs.Sides.{IsLater};

use crate::shortening::Limits;
use crate::{Caller, Gate, Notice, Store, Window};
use calls::Told;
use care_flow::CareEnd;
use crossbeam_utils::sync::{Parker, Unparker};
use device::Device;
use names::{Care, NodeName};
use sides::Room;
use std::alloc::{AllocError, Global};
use std::sync::Wait;
use std::sync::atomic::Ordering;
use std::time::{Clock, Duration};
use tuples::Refusal;

// The thread that tends a store looks this often whether a round was called for: a write that was refused may have left tuples held, and wakes nobody.
const SECONDS_A_LOOK: u64 = 1;

/// What wakes the thread that tends a store, and what sleeps there: the bell is for `Store::open`, and the parker for `Store::keep`.
pub(crate) fn new_bell(alloc: Global) -> Result<(Parker, Unparker), AllocError> {
    let parker = Parker::new(alloc)?;
    let bell = parker.unparker().clone()?;
    Ok((parker, bell))
}

// The place to which the horizon is raised, so many places behind the latest one. None if it has not fallen an eighth more behind: each raise is a flush
// of every node.
fn raise_to(latest: u64, horizon: u64, window: u64) -> Option<u64>
    ensures place { IfSome result (λ place. place + window ≡ latest) }
    ensures behind { IfSome result (λ place. horizon + (window + window / 8) < latest) }
    ensures near { IfNone result (latest ≤ horizon + (window + window / 8)) }
{
    if latest.saturating_sub(horizon) <= window.saturating_add(window / 8) {
        return None;
    }
    Some(latest - window)
}

impl<D: Device, B: Room, G: Gate> Store<D, B, G> {
    // Cares for a node. A care that is refused is tried again in the next round.
    pub(crate) fn try_care<R: Wait>(
        &self,
        rt: &R,
        alloc: Global,
        caller: &mut Caller<B>,
        care: Care,
    )
        requires there { IsThere B.shards (begun B.shards care) }
        ensures caller { IsLater caller.old.pass caller.new.pass }
    {
        let _ = self.care(rt, alloc, caller, &mut Told::new(), care);
    }

    // At each shard writes in doubt are resolved, and what is kept is learned.
    fn settle_all<R: Wait>(&self, rt: &R, alloc: Global, caller: &mut Caller<B>)
        ensures caller { IsLater caller.old.pass caller.new.pass }
    {
        for shard in 0..self.count.count() {
            self.try_care(rt, alloc, caller, Care::Resolve(shard));
            self.try_care(rt, alloc, caller, Care::Learn(shard));
        }
    }

    // At each shard what no read from the horizon on needs is forgotten.
    fn collect_all<R: Wait>(&self, rt: &R, alloc: Global, caller: &mut Caller<B>)
        ensures caller { IsLater caller.old.pass caller.new.pass }
    {
        for shard in 0..self.count.count() {
            self.try_care(rt, alloc, caller, Care::Collect(shard));
        }
    }

    // The horizon follows the latest place, so many places behind it, and shards forget what lies below.
    fn follow<R: Wait>(&self, rt: &R, alloc: Global, caller: &mut Caller<B>, window: u64)
        ensures caller { IsLater caller.old.pass caller.new.pass }
    {
        let latest = self.latest(caller);
        let horizon = self.horizon(caller);
        if let Some(place) = raise_to(latest, horizon, window) {
            self.try_care(rt, alloc, caller, Care::Raise(place));
            self.collect_all(rt, alloc, caller);
        }
    }

    // What is staged at a node becomes durable, or it is noticed that it is down.
    fn flush<R: Wait, N: Notice>(
        &self,
        rt: &R,
        alloc: Global,
        caller: &mut Caller<B>,
        node: NodeName,
        notice: &mut N,
    )
        requires there { IsThere B.shards (begun B.shards (flush_of node)) }
        ensures caller { IsLater caller.old.pass caller.new.pass }
    {
        let end = self.care(rt, alloc, caller, &mut Told::new(), Care::Flush(node));
        if let CareEnd::Refused(Refusal::Down) = end {
            notice.down(node);
        }
    }

    // The same at each node.
    fn flush_all<R: Wait, N: Notice>(
        &self,
        rt: &R,
        alloc: Global,
        caller: &mut Caller<B>,
        notice: &mut N,
    )
        ensures caller { IsLater caller.old.pass caller.new.pass }
    {
        self.flush(rt, alloc, caller, NodeName::Coordinator, notice);
        for shard in 0..self.count.count() {
            self.flush(rt, alloc, caller, NodeName::Shard(shard), notice);
        }
    }

    /// One round: at each shard writes in doubt are resolved and what is kept is learned; the horizon follows the latest place, so many places behind it,
    /// and shards forget what lies below; and what is staged becomes durable. What is refused waits for another round.
    pub fn tend<R: Wait, N: Notice>(
        &self,
        rt: &R,
        alloc: Global,
        caller: &mut Caller<B>,
        window: u64,
        notice: &mut N,
    )
        ensures caller { IsLater caller.old.pass caller.new.pass }
    {
        self.settle_all(rt, alloc, caller);
        self.follow(rt, alloc, caller, window);
        self.flush_all(rt, alloc, caller, notice);
    }

    // A round, if one was called for or the store is closed. Whether it is closed.
    fn make_round<R: Wait, N: Notice>(
        &self,
        rt: &R,
        alloc: Global,
        caller: &mut Caller<B>,
        window: Window,
        notice: &mut N,
        limits: &mut Limits,
    ) -> bool
        ensures caller { IsLater caller.old.pass caller.new.pass }
    {
        // Before the round, so that what was done before the close is tended once more.
        let is_closed = self.closed.load(Ordering::SeqCst);
        if !self.is_called.swap(false, Ordering::SeqCst) && !is_closed {
            return false;
        }
        let places = self.places_within(rt, caller, window, &mut limits.counted);
        self.tend(rt, alloc, caller, places, notice);
        if !is_closed {
            self.shorten_all(rt, alloc, caller, limits, notice);
        }
        is_closed
    }

    /// Tends the store until it is closed: a round whenever the bell rings, and a last one once it is closed. It rings if a write left something behind,
    /// if a node was opened again, and at every 1,024th place; within a second of a write that was refused a round is made too. The horizon follows the latest
    /// place by the window: so many places, or fewer if their decisions take more bytes than it has. After each round a node
    /// whose bank has grown to four times what its last checkpoint left it with, and to more than 2 MiB, makes one; from 64 MiB on it makes one at twice as
    /// much. It answers nobody meanwhile. When the store is opened, what a checkpoint would have then counts as left. If the disk has no room for one it is put
    /// off, and the notice is told. One that was put off or refused is tried again once 2 MiB more were written.
    pub fn keep<R: Wait + Clock, N: Notice>(
        &self,
        rt: &R,
        alloc: Global,
        caller: &mut Caller<B>,
        window: Window,
        parker: &Parker,
        notice: &mut N,
    )
        ensures caller { IsLater caller.old.pass caller.new.pass }
    {
        let mut limits = self.first_limits(rt);
        for _ in rt.forever() {
            if self.make_round(rt, alloc, caller, window, notice, &mut limits) {
                return;
            }
            parker.park_timeout(rt, Duration::from_secs(SECONDS_A_LOOK));
        }
        unreachable!()
    }

    /// The thread that tends the store ends after one more round. It takes no lock, and calls go on as before.
    pub fn close(&self) {
        self.closed.store(true, Ordering::SeqCst);
        self.bell.unpark();
    }

    // A round is made, within a second.
    pub(crate) fn call(&self) {
        self.is_called.store(true, Ordering::SeqCst);
    }

    // Wakes the thread that tends the store, for a round.
    pub(crate) fn ring(&self) {
        self.call();
        self.bell.unpark();
    }
}
