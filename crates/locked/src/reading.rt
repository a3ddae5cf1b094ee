// Reads of a shared store.
ghost use Rattle.std.specs.Prelude.{◌≡◌, length, false};
ghost use Rattle.answer_flow.specs.ReadViews.{ended, ending_of, seen_of};
ghost use Rattle.answer_flow.specs.Reading.{HastensRead};
ghost use Rattle.flow_ties.specs.Reads.{IsReadOf, ReadHasReason};
ghost use Rattle.sides.specs.Sides.{IsLater};
ghost use Rattle.locked.specs.Answering.{IsJustOne, IsPassed, ReadEnds, ReadIsKept, ReadRefuses, ReadRuns};

use crate::placing::is_exact;
use crate::{Caller, Gate, Store};
use answer_flow::{ReadDone, ReadEnd, ReadFlow};
use calls::{Progress, Told};
use device::Device;
use sides::Room;
use std::alloc::Global;
use std::sync::Wait;
use tuples::{Freshness, Refusal, Tupleset};

// Whether it ended since the horizon had passed its place meanwhile, though a later one would do.
fn begins_again(freshness: Freshness, end: &ReadEnd) -> bool
    ensures { result ≡ false → end.now ≡ ReadEnd.Refused Refusal.Collected → IsJustOne freshness }
{
    if is_exact(freshness) {
        return false;
    }
    match end {
        ReadEnd::Refused(refusal) => *refusal == Refusal::Collected,
        ReadEnd::Answered(..) => false,
    }
}

// A shard is read at once, unless it has just told that it has not learned so far.
fn hasten(flow: ReadFlow, is_behind: bool) -> ReadFlow
    ensures asked { result ≡ record flow { next = result.next; holds = result.holds; next_name = result.next_name } }
    ensures hastens { HastensRead (seen_of flow) (seen_of result) }
{
    if is_behind {
        return flow;
    }
    flow.read_at_once()
}

impl<D: Device, B: Room, G: Gate> Store<D, B, G> {
    // The read before its first call, at a place that is known if it can be.
    fn begin_read(
        &self,
        alloc: Global,
        caller: &mut Caller<B>,
        freshness: Freshness,
        sets: Vec<Tupleset>,
    ) -> Progress<ReadFlow, ReadDone>
        ensures caller { IsLater caller.old.pass caller.new.pass }
        ensures runs { ReadRuns B.rests B.shards caller.new.pass.seen freshness (length caller.old.pass.seen) caller.new.pass.horizon sets.items result }
    {
        let count = self.shards();
        match self.known_place(caller, freshness) {
            Some(place) => ReadFlow::at(alloc, count, place, sets),
            None => Progress::Next(ReadFlow::new(alloc, count, freshness, sets)),
        }
    }

    // Makes its calls, one a turn, until it ends.
    fn run_read<R: Wait>(
        &self,
        rt: &R,
        caller: &mut Caller<B>,
        told: &mut Told,
        mut flow: ReadFlow,
    ) -> ReadDone
        requires of { flow.shards ≡ B.shards }
        requires held { B.rests → IsReadOf B.shards caller.old.pass.seen flow.fresh flow.sets (seen_of flow) }
        ensures caller { IsLater caller.old.pass caller.new.pass }
        ensures held { B.rests → IsReadOf B.shards caller.new.pass.seen flow.fresh flow.sets (ended (ending_of result.end)) }
        ensures sets { result.sets.items ≡ flow.sets }
        ensures reason { B.rests → ReadHasReason told.new flow.fresh caller.new.pass.seen caller.new.pass.horizon (ended (ending_of result.end)) }
    {
        let mut is_behind = false;
        for _ in rt.forever() {
            let hastened = hasten(flow, is_behind);
            let (after, tells_behind) = self.turn(rt, caller, told, hastened);
            is_behind = tells_behind;
            match after {
                Progress::Next(later) => flow = later,
                Progress::Ended(done) => return done,
            }
        }
        unreachable!()
    }

    // The read as `read` makes it, once: if the horizon passes its place meanwhile, it ends with `Collected`. It gives the tuplesets back.
    fn try_read<R: Wait>(
        &self,
        rt: &R,
        alloc: Global,
        caller: &mut Caller<B>,
        told: &mut Told,
        freshness: Freshness,
        sets: Vec<Tupleset>,
    ) -> ReadDone
        ensures caller { IsLater caller.old.pass caller.new.pass }
        ensures answer { B.rests → ReadEnds caller.new.pass.seen freshness (length caller.old.pass.seen) sets.items (ending_of result.end) }
        ensures refused { B.rests → ReadRefuses told.new caller.new.pass.seen caller.new.pass.horizon freshness (length caller.old.pass.seen) (ending_of result.end) }
        ensures sets { result.sets.items ≡ sets.items }
    {
        match self.begin_read(alloc, caller, freshness, sets) {
            Progress::Next(flow) => self.run_read(rt, caller, told, flow),
            Progress::Ended(done) => done,
        }
    }

    /// The tuples of each tupleset at one place, which it tells: just the one that was asked for, or else one no older than all that the caller had seen. It
    /// is known from the published word if that is far enough, so that no shard waits for the coordinator. If memory is refused it ends with
    /// `NoMemory`; if the place that was asked for lies above the list, with `Future`; if just one was asked for and it lies below the horizon, with
    /// `Collected`, and if any later one would do, it begins again at a later one; if a node refuses, with that refusal, which has then been told: hand in
    /// a `Told` that is empty.
    pub fn read<R: Wait>(
        &self,
        rt: &R,
        alloc: Global,
        caller: &mut Caller<B>,
        told: &mut Told,
        freshness: Freshness,
        sets: Vec<Tupleset>,
    ) -> ReadEnd
        ensures caller { IsLater caller.old.pass caller.new.pass }
        ensures answer { B.rests → ReadEnds caller.new.pass.seen freshness (length caller.old.pass.seen) sets.items (ending_of result) }
        ensures kept { B.rests → ReadIsKept caller.old.pass.horizon (ending_of result) }
        ensures refused { B.rests → ReadRefuses told.new caller.new.pass.seen caller.new.pass.horizon freshness (length caller.old.pass.seen) (ending_of result) }
        ensures passed { IsPassed freshness caller.old.pass.horizon → result ≡ ReadEnd.Refused Refusal.Collected }
        ensures collected { result ≡ ReadEnd.Refused Refusal.Collected → IsJustOne freshness }
    {
        if self.has_passed(caller, freshness) {
            return ReadEnd::Refused(Refusal::Collected);
        }
        let mut sets = sets;
        for _ in rt.forever() {
            let done = self.try_read(rt, alloc, caller, told, freshness, sets);
            if !begins_again(freshness, &done.end) {
                return done.end;
            }
            told.begin_again();
            sets = done.sets;
        }
        unreachable!()
    }
}
