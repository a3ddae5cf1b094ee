// One step of a store.
ghost use Rattle.std.specs.Prelude.{◌≡◌, IfOk, None, OnErr};
ghost use Rattle.cluster.specs.Steps.{BeginsFlow, Takes};

use crate::cancelling::cancel;
use crate::restarting::restart;
use crate::starting::{care_for, start};
use crate::turning::turn;
use crate::{Step, What, World};
use device::Device;
use names::{Care, NodeName};
use std::alloc::AllocError;
use tuples::Request;

impl<D: Device> World<D> {
    // A flow for the request begins.
    fn start(&mut self, request: &Request) -> Result<Option<What>, AllocError>
        ensures ok { IfOk result (λ told. Takes D.state D.honest D.moment D.left_since self.old (Step.Start request.now) told self.new) }
        ensures err { OnErr result (self.new ≡ self.old) }
    {
        start(self.alloc, self.shards, &mut self.flows, request)
    }

    // A flow for the care begins.
    fn care_for(&mut self, care: Care) -> Result<Option<What>, AllocError>
        ensures ok { IfOk result (λ told. Takes D.state D.honest D.moment D.left_since self.old (Step.Care care) told self.new) }
        ensures err { OnErr result (self.new ≡ self.old) }
    {
        care_for(self.alloc, self.shards, &mut self.flows, care)
    }

    // The flow in the slot makes its turn.
    fn turn(&mut self, slot: usize) -> Option<What>
        ensures { Takes D.state D.honest D.moment D.left_since self.old (Step.Turn slot) result self.new }
    {
        turn(
            self.shards,
            &mut self.nodes,
            &mut self.flows,
            &mut self.told,
            slot,
        )
    }

    // The flow in the slot is cancelled.
    fn cancel(&mut self, slot: usize)
        ensures { Takes D.state D.honest D.moment D.left_since self.old (Step.Cancel slot) None self.new }
    {
        cancel(&mut self.flows, slot);
    }

    // The node is opened again.
    fn restart(&mut self, name: NodeName) -> Option<What>
        ensures { Takes D.state D.honest D.moment D.left_since self.old (Step.Restart name) result self.new }
    {
        restart(self.alloc, self.store, self.shards, &mut self.nodes, name)
    }

    /// Takes the step, and says what it reports. If memory is refused nothing is changed; only a step that begins a flow takes any.
    pub fn take(&mut self, step: &Step) -> Result<Option<What>, AllocError>
        ensures ok { IfOk result (λ told. Takes D.state D.honest D.moment D.left_since self.old step.now told self.new) }
        ensures err { OnErr result (self.new ≡ self.old) }
        ensures begins { OnErr result (BeginsFlow step.now) }
    {
        match step {
            Step::Start(request) => self.start(request),
            Step::Turn(slot) => Ok(self.turn(*slot)),
            Step::Cancel(slot) => {
                self.cancel(*slot);
                Ok(None)
            }
            Step::Care(care) => self.care_for(*care),
            Step::Restart(name) => Ok(self.restart(*name)),
        }
    }
}
