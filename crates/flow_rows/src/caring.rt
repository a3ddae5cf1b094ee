// Cares of the nodes, turn by turn.
ghost use Rattle.std.specs.Prelude.{◌≡◌, true, IfOk, IfSome};
ghost use Rattle.calls.specs.Flows.{IfNext};
ghost use Rattle.care_flow.specs.Cares.{IsThere, begun};

use crate::stores::{SHARDS, Store, shards};
use crate::turning::turn;
use calls::{Progress, Told};
use care_flow::{CareEnd, CareFlow};
use device::Device;
use names::{Care, NodeName};
use std::alloc::{AllocError, Global};

// Whether the node that it cares for is there.
fn is_there(care: Care) -> bool
    ensures { result ≡ true → IsThere 2 (begun 2 care) }
{
    match care {
        Care::Flush(NodeName::Coordinator) | Care::Checkpoint(NodeName::Coordinator) => true,
        Care::Flush(NodeName::Shard(shard)) | Care::Checkpoint(NodeName::Shard(shard)) => {
            shard < SHARDS
        }
        Care::Learn(shard) => shard < SHARDS,
        Care::Resolve(shard) => shard < SHARDS,
        Care::Raise(_) => true,
        Care::Collect(shard) => shard < SHARDS,
    }
}

/// A care of a store of two shards; none if its node is not there.
pub(crate) fn begin_care(alloc: Global, care: Care) -> Option<CareFlow>
    ensures { IfSome result (λ f. IsThere 2 f) }
{
    if !is_there(care) {
        return None;
    }
    Some(CareFlow::new(alloc, shards(), care))
}

/// Makes this many of its calls, and logs them; fewer if it ends before.
pub(crate) fn turn_all<D: Device>(
    flow: CareFlow,
    turns: usize,
    store: &mut Store<D>,
    told: &mut Told,
    log: &mut String,
) -> Result<Progress<CareFlow, CareEnd>, AllocError>
    requires { IsThere 2 flow }
    ensures { IfOk result (λ left. IfNext left (IsThere 2)) }
{
    let mut flow = flow;
    for _turn in 0..turns {
        let (named, left) = turn(flow, store, told);
        match left {
            Progress::Next(later) => {
                named.write_to(log)?;
                flow = later;
            }
            Progress::Ended(end) => {
                named.write_to(log)?;
                return Ok(Progress::Ended(end));
            }
        }
    }
    Ok(Progress::Next(flow))
}

/// How it ended, if it has.
pub(crate) fn end_of(left: Progress<CareFlow, CareEnd>) -> Option<CareEnd> {
    match left {
        Progress::Next(_flow) => None,
        Progress::Ended(end) => Some(end),
    }
}
