// Checks of a shared store.
ghost use Rattle.std.specs.Prelude.{◌≡◌, length, IfOk, false};
ghost use Rattle.answer_flow.specs.Checking.{HastensCheck};
ghost use Rattle.answer_flow.specs.CheckViews.{IsAsked, ended, ending_of, seen_after, seen_of};
ghost use Rattle.flow_ties.specs.Checks.{CheckHasReason, IsCheckOf};
ghost use Rattle.sides.specs.Sides.{IsLater};
ghost use Rattle.locked.specs.Answering.{CheckEnds, CheckIsKept, CheckRefuses, CheckRuns, IsJustOne, IsPassed};

use crate::placing::is_exact;
use crate::{Caller, Gate, Store};
use answer_flow::{CheckDone, CheckEnd, CheckFlow};
use calls::{Progress, Told};
use device::Device;
use sides::Room;
use std::alloc::{AllocError, Global};
use std::sync::Wait;
use tuples::{Freshness, Refusal, User, Userset};

// Whether it ended since the horizon had passed its place meanwhile, though a later one would do.
fn begins_again(freshness: Freshness, end: &CheckEnd) -> bool
    ensures { result ≡ false → end.now ≡ CheckEnd.Refused Refusal.Collected → IsJustOne freshness }
{
    if is_exact(freshness) {
        return false;
    }
    match end {
        CheckEnd::Refused(refusal) => *refusal == Refusal::Collected,
        CheckEnd::Answered(..) => false,
    }
}

// A shard is read at once, unless it has just told that it has not learned so far.
fn hasten(flow: CheckFlow, is_behind: bool) -> Progress<CheckFlow, CheckDone>
    ensures asked { IsAsked flow.shards flow.fresh flow.user result }
    ensures hastens { HastensCheck (seen_of flow) (seen_after result) }
{
    if is_behind {
        return Progress::Next(flow);
    }
    flow.read_at_once()
}

impl<D: Device, B: Room, G: Gate> Store<D, B, G> {
    // The check before its first call, at a place that is known if it can be.
    fn begin_check(
        &self,
        alloc: Global,
        caller: &mut Caller<B>,
        freshness: Freshness,
        userset: &Userset,
        user: User,
    ) -> Result<CheckFlow, AllocError>
        ensures caller { IsLater caller.old.pass caller.new.pass }
        ensures runs { IfOk result (λ flow. CheckRuns B.rests B.shards caller.new.pass.seen freshness (length caller.old.pass.seen) userset.now user flow) }
    {
        let count = self.shards();
        match self.known_place(caller, freshness) {
            Some(place) => CheckFlow::at(alloc, count, place, userset, user),
            None => CheckFlow::new(alloc, count, freshness, userset, user),
        }
    }

    // Makes its calls, one a turn, until it ends.
    fn run_check<R: Wait>(
        &self,
        rt: &R,
        caller: &mut Caller<B>,
        told: &mut Told,
        userset: &Userset,
        mut flow: CheckFlow,
    ) -> CheckDone
        requires of { flow.shards ≡ B.shards }
        requires held { B.rests → IsCheckOf caller.old.pass.seen flow.fresh userset.now flow.user (seen_of flow) }
        ensures caller { IsLater caller.old.pass caller.new.pass }
        ensures held { B.rests → IsCheckOf caller.new.pass.seen flow.fresh userset.now flow.user (ended (ending_of result.end)) }
        ensures user { result.user ≡ flow.user }
        ensures reason { B.rests → CheckHasReason told.new flow.fresh caller.new.pass.seen caller.new.pass.horizon userset.now (ended (ending_of result.end)) }
    {
        let _asked = userset;
        let mut is_behind = false;
        for _ in rt.forever() {
            let hastened = match hasten(flow, is_behind) {
                Progress::Next(hastened) => hastened,
                Progress::Ended(done) => return done,
            };
            let (after, tells_behind) = self.turn(rt, caller, told, hastened);
            is_behind = tells_behind;
            match after {
                Progress::Next(later) => flow = later,
                Progress::Ended(done) => return done,
            }
        }
        unreachable!()
    }

    // The check as `check` makes it, once: if the horizon passes its place meanwhile, it ends with `Collected`. It gives the user back.
    fn try_check<R: Wait>(
        &self,
        rt: &R,
        alloc: Global,
        caller: &mut Caller<B>,
        told: &mut Told,
        freshness: Freshness,
        userset: &Userset,
        user: User,
    ) -> Result<CheckDone, AllocError>
        ensures caller { IsLater caller.old.pass caller.new.pass }
        ensures answer { B.rests → IfOk result (λ done. CheckEnds caller.new.pass.seen freshness (length caller.old.pass.seen) userset.now user (ending_of done.end)) }
        ensures refused { B.rests → IfOk result (λ done. CheckRefuses told.new caller.new.pass.seen caller.new.pass.horizon freshness (length caller.old.pass.seen) userset.now (ending_of done.end)) }
        ensures user { IfOk result (λ done. done.user ≡ user) }
    {
        match self.begin_check(alloc, caller, freshness, userset, user) {
            Ok(flow) => Ok(self.run_check(rt, caller, told, userset, flow)),
            Err(error) => Err(error),
        }
    }

    /// Whether the user is in the userset at one place, which it tells: just the one that was asked for, or else one no older than all that the caller had
    /// seen. It is known from the published word if that is far enough. If memory is refused it ends with `NoMemory`; if more usersets would be
    /// walked than may be, with `Full`; if the place that was asked for lies above the list, with `Future`; if just one was asked for and it lies below
    /// the horizon, with `Collected`, and if any later one would do, it begins again at a later one; if a node refuses, with that refusal, which has
    /// then been told: hand in a `Told` that is empty.
    pub fn check<R: Wait>(
        &self,
        rt: &R,
        alloc: Global,
        caller: &mut Caller<B>,
        told: &mut Told,
        freshness: Freshness,
        userset: &Userset,
        user: User,
    ) -> CheckEnd
        ensures caller { IsLater caller.old.pass caller.new.pass }
        ensures answer { B.rests → CheckEnds caller.new.pass.seen freshness (length caller.old.pass.seen) userset.now user (ending_of result) }
        ensures kept { B.rests → CheckIsKept caller.old.pass.horizon (ending_of result) }
        ensures refused { B.rests → CheckRefuses told.new caller.new.pass.seen caller.new.pass.horizon freshness (length caller.old.pass.seen) userset.now (ending_of result) }
        ensures passed { IsPassed freshness caller.old.pass.horizon → result ≡ CheckEnd.Refused Refusal.Collected }
        ensures collected { result ≡ CheckEnd.Refused Refusal.Collected → IsJustOne freshness }
    {
        if self.has_passed(caller, freshness) {
            return CheckEnd::Refused(Refusal::Collected);
        }
        let mut user = user;
        for _ in rt.forever() {
            match self.try_check(rt, alloc, caller, told, freshness, userset, user) {
                Ok(done) => {
                    if !begins_again(freshness, &done.end) {
                        return done.end;
                    }
                    told.begin_again();
                    user = done.user;
                }
                Err(_) => return CheckEnd::Refused(Refusal::NoMemory),
            }
        }
        unreachable!()
    }
}
