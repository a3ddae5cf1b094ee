// What a call carries is within the limits of its types: laws, each the contract of a function that does nothing.
ghost use Rattle.calls.specs.Fitting.{FitsCoordinator, FitsItsTypes, FitsShard, IsWhole, IsWholeAtCoordinator, IsWholeAtShard};

use crate::{CoordinatorCall, NodeCall, ShardCall};

impl CoordinatorCall {
    fn fits(&self)
        ensures fits { FitsCoordinator self.now }
        ensures whole { IsWholeAtCoordinator self.now }
    {
        match self {
            CoordinatorCall::Begin(_) | CoordinatorCall::Heads | CoordinatorCall::Batch(_, _) => {}
            CoordinatorCall::Decide(intent, _) => {
                let _entry = intent.entry();
            }
            CoordinatorCall::Outcome(_) | CoordinatorCall::Abort(_) => {}
            CoordinatorCall::Inquire(_) | CoordinatorCall::Flush | CoordinatorCall::Checkpoint => {}
            CoordinatorCall::Raise(place, _) => {
                let _place = *place;
            }
        }
    }
}

impl ShardCall {
    fn fits(&self)
        ensures fits { FitsShard self.now }
        ensures whole { IsWholeAtShard self.now }
    {
        match self {
            ShardCall::Learn(batch) => {
                let _to = batch.to();
                let _writes = batch.writes();
            }
            ShardCall::StagePrepare(intent) => {
                let _entry = intent.entry();
            }
            ShardCall::Learned | ShardCall::Vote(_) | ShardCall::DropWrite(_, _) => {}
            ShardCall::InDoubt | ShardCall::Read(_, _) | ShardCall::ReadForCheck(_, _, _) => {}
            ShardCall::Settle | ShardCall::Collect(_) => {}
            ShardCall::Flush | ShardCall::Checkpoint => {}
        }
    }
}

impl NodeCall {
    /// What it carries is within the limits of its types. Does nothing: whoever makes the call may say so by it.
    pub fn fits(&self)
        ensures fits { FitsItsTypes self.now }
        ensures whole { IsWhole self.now }
    {
        match self {
            NodeCall::Coordinator(call) => call.fits(),
            NodeCall::Shard(_, call) => call.fits(),
        }
    }
}
