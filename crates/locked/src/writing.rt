// Writes of a shared store.
ghost use Rattle.std.specs.Prelude.{◌≡◌, ◌≢◌, ◌≤◌, ℕ, length};
ghost use Rattle.commit_flow.specs.Flows.{seen_of};
ghost use Rattle.commit_flow.specs.Views.{view_ended};
ghost use Rattle.flow_ties.specs.Writes.{RefusesAsTold};
ghost use Rattle.sides.specs.Sides.{IsLater};
ghost use Rattle.tuples.specs.Writes.{WriteValue};
ghost use Rattle.locked.specs.Writing.{IsKnownWriteOf, WriteEnds, WriteRefuses};

use crate::{Caller, Gate, Store};
use calls::{Progress, Told};
use commit_flow::{WriteEnd, WriteFlow};
use device::Device;
use sides::Room;
use std::alloc::Global;
use std::sync::Wait;
use tuples::{Refusal, Write};

// How many places lie between two rounds of the thread that tends the store, if nothing else calls for one.
const PLACES_A_ROUND: u64 = 1_024;

impl<D: Device, B: Room, G: Gate> Store<D, B, G> {
    // The thread that tends the store is woken if a write may have left something behind at a node, and at every so many places. If a shard had no room to note that a
    // refused write is dropped, its tuples are held until a round.
    fn ring_behind(&self, end: &WriteEnd) {
        match end {
            WriteEnd::Wrote(place) => {
                if *place % PLACES_A_ROUND == 0 {
                    self.ring();
                }
            }
            WriteEnd::Refused(Refusal::Down | Refusal::Unsure) | WriteEnd::Cancelled => self.ring(),
            WriteEnd::Refused(_) => self.call(),
        }
    }

    // Makes its calls, one a turn, until it ends.
    fn run_write<R: Wait>(
        &self,
        rt: &R,
        caller: &mut Caller<B>,
        told: &mut Told,
        mut flow: WriteFlow,
    ) -> WriteEnd
        requires of { flow.shards ≡ B.shards }
        requires asked { (asked : WriteValue) × IsKnownWriteOf caller.old.tried.seen asked (length caller.old.pass.seen) caller.old.pass.seen (seen_of flow) }
        ensures later { IsLater caller.old.pass caller.new.pass }
        ensures held { B.rests → (asked : WriteValue) (above : ℕ) → above ≤ length caller.old.pass.seen → IsKnownWriteOf caller.old.tried.seen asked above caller.old.pass.seen (seen_of flow)
            → IsKnownWriteOf caller.new.tried.seen asked above caller.new.pass.seen (view_ended result) }
        ensures told { RefusesAsTold B.shards told.old (seen_of flow) → RefusesAsTold B.shards told.new (view_ended result) }
    {
        for _ in rt.forever() {
            let (after, _) = self.turn(rt, caller, told, flow);
            match after {
                Progress::Next(later) => flow = later,
                Progress::Ended(end) => return end,
            }
        }
        unreachable!()
    }

    /// Makes a write. At `Wrote` it stands at the place that is told, which is above all that the caller had seen, and its id nowhere else in the list. If
    /// memory is refused before it begins it ends with `NoMemory`, and the caller has seen no more than before; if a node refuses, with that refusal,
    /// which has then been told: hand in a `Told` that is empty; with `Unsure` if a device failed over its decision, and only a new opening of the
    /// coordinator finds out what became of it. Nobody cancels it, so it does not end as `Cancelled`.
    pub fn write<R: Wait>(
        &self,
        rt: &R,
        alloc: Global,
        caller: &mut Caller<B>,
        told: &mut Told,
        write: Write,
    ) -> WriteEnd
        ensures caller { IsLater caller.old.pass caller.new.pass }
        ensures wrote { B.rests → WriteEnds write (length caller.old.pass.seen) caller.new.pass.seen result }
        ensures refused { WriteRefuses caller.old.pass caller.new.pass told.new result }
        ensures uncancelled { result ≢ WriteEnd.Cancelled }
    {
        let flow = match WriteFlow::new(alloc, self.count, write) {
            Ok(flow) => flow,
            Err(refusal) => return WriteEnd::Refused(refusal),
        };
        let end = self.run_write(rt, caller, told, flow);
        self.ring_behind(&end);
        end
    }
}
