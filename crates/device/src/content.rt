// Contents in memory, and what writes make of them.
ghost use Rattle.std.specs.Prelude.{◌≡◌, is_ok, if◌then◌else◌, OnOk};
ghost use Rattle.device.specs.Device.{patched};
ghost use Rattle.device.specs.Sim.{filled, found};
ghost use Rattle.device.specs.Unsynced.{rewritten, ranges, unsynced};

use crate::Tear;
use crate::call::Call;
use std::alloc::{AllocError, Global};

// Overwrites what is there, and extends past the end; an offset past the end counts as the end. If memory runs out, nothing has changed.
pub(crate) fn patch(content: &mut Vec<u8>, at: usize, bytes: &[u8]) -> Result<(), AllocError>
    ensures { content.new.items ≡ (if is_ok result then patched content.old.items at bytes.now else content.old.items) }
{
    let at = at.min(content.len());
    let over = bytes.len().min(content.len() - at);
    // Only this may fail, so it comes first.
    content.extend_from_slice(&bytes[over..])?;
    content[at..at + over].copy_from_slice(&bytes[..over]);
    Ok(())
}

// Makes the writes among these calls again.
fn write_again(content: &mut Vec<u8>, calls: &[Call]) -> Result<(), AllocError>
    ensures { OnOk result (content.new.items ≡ rewritten content.old.items calls.now) }
{
    for call in calls {
        if let Call::Write { at, bytes } = call {
            patch(content, *at, bytes)?;
        }
    }
    Ok(())
}

// Puts the byte into every offset that these calls write.
fn fill(alloc: Global, content: &mut Vec<u8>, calls: &[Call], byte: u8) -> Result<(), AllocError>
    ensures { OnOk result (content.new.items ≡ filled byte (ranges calls.now) content.old.items) }
{
    for call in calls {
        if let Call::Write { at, bytes } = call {
            patch(content, *at, &vec![in alloc; byte; bytes.len()]?)?;
        }
    }
    Ok(())
}

// Turns a durable content with these later writes into what is found after a failure.
pub(crate) fn find(
    alloc: Global,
    content: &mut Vec<u8>,
    since: &[Call],
    tear: Tear,
) -> Result<(), AllocError>
    ensures { OnOk result (content.new.items ≡ found tear (unsynced content.old.items since.now)) }
{
    match tear {
        Tear::Old => Ok(()),
        Tear::New => write_again(content, since),
        Tear::Fill(byte) => {
            write_again(content, since)?;
            fill(alloc, content, since, byte)
        }
    }
}
