// Calls that are not made, but refused: what a store is not brought to in a few steps.
ghost use Rattle.calls.specs.Belonging.{IsReplyTo};

use calls::{CoordinatorCall, CoordinatorReply, NodeCall, Reply, refuse};
use coordinator::NotDecided;
use std::alloc::{AllocError, Global};
use tuples::Refusal;

// The call of this number is not made.
#[derive(Clone, Copy)]
struct Unmade {
    call: usize,
    refusal: Refusal,
}

/// How many calls were asked for, and which of them are not made.
#[derive(Drop)]
pub(crate) struct Refusing {
    asked: usize,
    unmade: Vec<Unmade>,
}

impl Refusing {
    pub(crate) fn new(alloc: Global) -> Refusing {
        Refusing {
            asked: 0,
            unmade: Vec::new(alloc),
        }
    }

    /// The n-th call from now on is not made, and this refusal is its answer.
    pub(crate) fn add(&mut self, n: usize, refusal: Refusal) -> Result<(), AllocError> {
        let call = self.asked.saturating_add(n);
        self.unmade.push(Unmade { call, refusal })?;
        Ok(())
    }

    /// One more is asked for. Returns its refusal, if it is not made.
    pub(crate) fn next(&mut self) -> Option<Refusal> {
        self.asked = self.asked.saturating_add(1);
        for unmade in &self.unmade {
            if unmade.call == self.asked {
                return Some(unmade.refusal);
            }
        }
        None
    }

    /// Whether this is the answer of any.
    pub(crate) fn has(&self, refusal: Refusal) -> bool {
        self.unmade.iter().any(|unmade| unmade.refusal == refusal)
    }
}

/// What is answered for a call that is not made. A decision returns its intent, as one for which there is no room.
pub(crate) fn answer(refusal: Refusal, call: NodeCall) -> Reply
    ensures { IsReplyTo call result }
{
    match call {
        NodeCall::Coordinator(CoordinatorCall::Decide(intent, votes)) => {
            Reply::Coordinator(CoordinatorReply::Decide(Err(NotDecided {
                refusal,
                intent: Some(intent),
                votes,
            })))
        }
        other => refuse(refusal, other),
    }
}
