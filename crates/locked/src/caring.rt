// Cares of a shared store's nodes.
ghost use Rattle.care_flow.specs.Cares.{IsThere, begun};
ghost use Rattle.flow_ties.specs.Cares.{IsCareOf};
ghost use Rattle.sides.specs.Sides.{IsLater};

use crate::{Caller, Gate, Store};
use calls::{Progress, Told};
use care_flow::{CareEnd, CareFlow};
use device::Device;
use names::Care;
use sides::Room;
use std::alloc::Global;
use std::sync::Wait;

impl<D: Device, B: Room, G: Gate> Store<D, B, G> {
    // Makes its calls, one a turn, until it ends.
    fn run_care<R: Wait>(
        &self,
        rt: &R,
        caller: &mut Caller<B>,
        told: &mut Told,
        mut flow: CareFlow,
    ) -> CareEnd
        requires of { IsThere B.shards flow }
        requires held { B.rests → IsCareOf caller.old.pass.seen caller.old.pass.horizon flow }
        ensures caller { IsLater caller.old.pass caller.new.pass }
    {
        for _ in rt.forever() {
            let (after, _) = self.turn(rt, caller, told, flow);
            match after {
                Progress::Next(later) => flow = later,
                Progress::Ended(end) => return end,
            }
        }
        unreachable!()
    }

    /// Cares for a node: what it has staged becomes durable, a shard learns or collects, writes in doubt are resolved, or the horizon is raised. How it
    /// ended; if a node refuses, by that refusal.
    pub fn care<R: Wait>(
        &self,
        rt: &R,
        alloc: Global,
        caller: &mut Caller<B>,
        told: &mut Told,
        care: Care,
    ) -> CareEnd
        requires there { IsThere B.shards (begun B.shards care) }
        ensures caller { IsLater caller.old.pass caller.new.pass }
    {
        let flow = CareFlow::new(alloc, self.count, care);
        self.run_care(rt, caller, told, flow)
    }
}
