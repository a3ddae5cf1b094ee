// Watches of a shared store.
ghost use Rattle.std.specs.Prelude.{◌≡◌, ◌≤◌, ◌<◌, length};
ghost use Rattle.answer_flow.specs.WatchViews.{ended, ending_of, seen_of};
ghost use Rattle.flow_ties.specs.Watches.{IsWatchOf, WatchHasReason};
ghost use Rattle.sides.specs.Sides.{IsLater};
ghost use Rattle.tuples.specs.Limits.{max_watched};
ghost use Rattle.locked.specs.Answering.{WatchEnds, WatchIsKept, WatchRefuses};

use crate::{Caller, Gate, Store};
use answer_flow::{WatchEnd, WatchFlow};
use calls::{Progress, Told};
use device::Device;
use sides::Room;
use std::alloc::Global;
use std::sync::Wait;
use tuples::{Freshness, Namespace, Refusal};

impl<D: Device, B: Room, G: Gate> Store<D, B, G> {
    // Makes its calls, one a turn, until it ends.
    fn run_watch<R: Wait>(
        &self,
        rt: &R,
        caller: &mut Caller<B>,
        told: &mut Told,
        mut flow: WatchFlow,
    ) -> WatchEnd
        requires few { flow.limit ≤ max_watched }
        requires held { B.rests → IsWatchOf flow.cursor flow.limit flow.namespaces (length caller.old.pass.seen) caller.old.pass.seen (seen_of flow) }
        ensures caller { IsLater caller.old.pass caller.new.pass }
        ensures held { B.rests → IsWatchOf flow.cursor flow.limit flow.namespaces (length caller.old.pass.seen) caller.new.pass.seen (ended (ending_of result)) }
        ensures reason { B.rests → WatchHasReason told.new flow.cursor caller.new.pass.seen caller.new.pass.horizon (ended (ending_of result)) }
    {
        for _ in rt.forever() {
            let (after, _) = self.turn(rt, caller, told, flow);
            match after {
                Progress::Next(later) => flow = later,
                Progress::Ended(end) => return end,
            }
        }
        unreachable!()
    }

    /// The changes in these namespaces after a place, of so many places at most, and the place up to which these are all. That is as far as was asked
    /// for, or as far as the caller had seen. If memory is refused it ends with `NoMemory`; if the cursor lies above the list, with `Future`, and below
    /// the horizon, with `Collected`; if a node refuses, with that refusal, which has then been told: hand in a `Told` that is empty.
    pub fn watch<R: Wait>(
        &self,
        rt: &R,
        alloc: Global,
        caller: &mut Caller<B>,
        told: &mut Told,
        cursor: u64,
        limit: u64,
        namespaces: Vec<Namespace>,
    ) -> WatchEnd
        requires few { limit ≤ max_watched }
        ensures caller { IsLater caller.old.pass caller.new.pass }
        ensures lists { B.rests → WatchEnds cursor limit namespaces.items (length caller.old.pass.seen) caller.new.pass.seen (ending_of result) }
        ensures kept { B.rests → WatchIsKept caller.old.pass.horizon (ending_of result) }
        ensures refused { B.rests → WatchRefuses told.new caller.new.pass.seen caller.new.pass.horizon cursor (ending_of result) }
        ensures passed { cursor < caller.old.pass.horizon → result ≡ WatchEnd.Refused Refusal.Collected }
    {
        if self.has_passed(caller, Freshness::Exact(cursor)) {
            return WatchEnd::Refused(Refusal::Collected);
        }
        let flow = WatchFlow::new(alloc, cursor, limit, namespaces);
        self.run_watch(rt, caller, told, flow)
    }
}
