// What other threads see of the writes and syncs of a store's files.
ghost use Rattle.std.specs.Prelude.{◌≡◌, IfOk, length, vec_len};

use files::{FileDevice, HostFile, Pulse};
use std::alloc::{AllocError, Global};
use std::sync::Arc;

/// The pulse of each device, in order.
pub(crate) fn pulses(
    alloc: Global,
    devices: &[FileDevice<HostFile>],
) -> Result<Vec<Arc<Pulse, Global>>, AllocError>
    ensures { IfOk result (λ pulses. vec_len pulses ≡ length devices.now) }
{
    let mut pulses = Vec::new(alloc);
    for device in devices {
        pulses.push(device.pulse()?)?;
    }
    Ok(pulses)
}
