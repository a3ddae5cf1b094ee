// Flows, turn by turn.
ghost use Rattle.std.specs.Prelude.{◌≡◌};
ghost use Rattle.calls.specs.Flows.{IfNext};

use crate::call_names::Named;
use crate::stores::{Store, shards};
use calls::{Flow, Progress, Told};
use commit_flow::{WriteEnd, WriteFlow};
use device::Device;
use std::alloc::Global;
use std::mem::replace;
use tuples::{Refusal, Write};

/// Makes the flow's next call, and what the reply makes of it.
pub(crate) fn turn<F: Flow, D: Device>(
    flow: F,
    store: &mut Store<D>,
    told: &mut Told,
) -> (Named, Progress<F, F::End>)
    requires { F.is_of 2 flow }
    ensures { IfNext result.1 (F.is_of 2) }
{
    let name = flow.next_name();
    let (call, out) = flow.next_call();
    let named = Named::new(name, call.node());
    let reply = store.ask(call, told);
    (named, F::give(out, reply))
}

/// A write of a store of two shards.
pub(crate) struct Writing {
    flow: WriteFlow,
    ghost of_two: { flow.shards ≡ 2 },
}

// A row that ends spends what its writes hold.
impl Drop for Writing {
    fn drop(self) {
        let Writing { flow } = self;
        flow.leave();
    }
}

/// A write, or how it ended.
#[derive(Drop)]
pub(crate) enum Turning {
    Waits(Writing),
    Ended(WriteEnd),
}

// What a turn or a cancel has made of it.
fn made_of(made: Progress<WriteFlow, WriteEnd>) -> Turning
    requires { IfNext made (λ f. f.shards ≡ 2) }
{
    match made {
        Progress::Next(flow) => Turning::Waits(Writing { flow }),
        Progress::Ended(end) => Turning::Ended(end),
    }
}

impl Writing {
    fn turn<D: Device>(self, store: &mut Store<D>, told: &mut Told) -> (Named, Turning) {
        let Writing { flow } = self;
        let (named, made) = turn(flow, store, told);
        (named, made_of(made))
    }

    fn cancel(self) -> Turning {
        let Writing { flow } = self;
        made_of(flow.cancel())
    }
}

impl Turning {
    pub(crate) fn new(alloc: Global, write: Write) -> Result<Turning, Refusal> {
        let flow = WriteFlow::new(alloc, shards(), write)?;
        Ok(Turning::Waits(Writing { flow }))
    }

    // Takes it out, and leaves an end for the moment.
    fn take(&mut self) -> Turning {
        replace(self, Turning::Ended(WriteEnd::Cancelled))
    }

    /// Makes its next call, and gives it the reply; none if it has ended.
    pub(crate) fn turn<D: Device>(
        &mut self,
        store: &mut Store<D>,
        told: &mut Told,
    ) -> Option<Named> {
        match self.take() {
            Turning::Waits(writing) => {
                let (named, left) = writing.turn(store, told);
                *self = left;
                Some(named)
            }
            ended => {
                *self = ended;
                None
            }
        }
    }

    pub(crate) fn cancel(&mut self) {
        match self.take() {
            Turning::Waits(writing) => *self = writing.cancel(),
            ended => *self = ended,
        }
    }

    pub(crate) fn end(&self) -> Option<WriteEnd> {
        match self {
            Turning::Waits(_) => None,
            Turning::Ended(end) => Some(*end),
        }
    }
}
