// The durable content of a disk in memory, from the list of its calls.
ghost use Rattle.std.specs.Prelude.{◌≡◌, length, IfOk, MatchOption};
ghost use Rattle.device.specs.Sim.{Image, all_durable, found, after};
ghost use Rattle.device.specs.Unsynced.{IsReplayed, IsWrite};

use crate::Tear;
use crate::call::Call;
use crate::content::find;
use std::alloc::{AllocError, Global};

// The tear with which the call makes everything durable; none for a write.
fn makes_durable(call: &Call) -> Option<Tear>
    ensures { MatchOption result (IsWrite call.now) (λ tear. (m : Image) → after call.now m ≡ all_durable (found tear m)) }
{
    match call {
        Call::Write { .. } => None,
        Call::Sync => Some(Tear::New),
        Call::Revive(tear) => Some(*tear),
    }
}

// What is durable after all these calls, and the index from which on the calls are the writes since.
pub(crate) fn durable_after(
    alloc: Global,
    first: &[u8],
    history: &[Call],
) -> Result<(Vec<u8>, usize), AllocError>
    ensures { IfOk result (λ r. IsReplayed first.now history.now r.0.items r.1 (length history.now)) }
{
    let mut content = first.to_vec(alloc)?;
    let mut since = 0;
    for (i, call) in history.iter().enumerate() {
        if let Some(tear) = makes_durable(call) {
            find(alloc, &mut content, &history[since..i], tear)?;
            since = i + 1;
        }
    }
    Ok((content, since))
}
