// The four device calls that append a record, and what a stop leaves at each.
ghost use Rattle.std.specs.Prelude.{◌≡◌, ◌≤◌, ◌<◌, ◌+◌, ◌↔◌, [], ◌∷◌, ◌++◌, true, false, length, OnOk, OnErr, IsErr, List, ℕ};
ghost use Rattle.std.specs.Int.{w32, to_be_bytes};
ghost use Rattle.gated.specs.Gated.{body_of, max_body, max_device, record_head, IsAllDurable, IsReady, HasList, IsOldOrNew};
ghost use Rattle.device.specs.Device.{LeavesOnly, Failed, Keeps};

use crate::format::{CLOSED, HEAD, OPEN, SIZE};
use device::{Device, Stopped};

/// Puts the length before the body, and this gate after it.
pub(crate) fn frame(buf: &mut [u8], gate: u8)
    requires some { record_head + 1 ≤ length buf.old }
    requires fits { length buf.old ≤ max_body + record_head }
    ensures { buf.new ≡ to_be_bytes w32 (length (body_of buf.old)) ++ body_of buf.old ++ gate ∷ [] }
{
    let n = buf.len() - HEAD;
    let size = (n as u32).to_be_bytes();
    buf[..SIZE].copy_from_slice(&size);
    buf[SIZE + n] = gate;
}

/// Appends the body in the buffer, behind the closed gate at `end`.
pub(crate) fn append_at<D: Device>(
    device: &mut D,
    end: usize,
    buf: &mut [u8],
) -> Result<(), Stopped>
    requires some { record_head + 1 ≤ length buf.old }
    requires fits { length buf.old ≤ max_body + record_head }
    requires room { end + length buf.old < max_device }
    requires ready { D.honest device.old → (D.state device.old).stopped ≡ false → IsReady (D.state device.old) end }
    ensures honest { D.honest device.old ↔ D.honest device.new }
    ensures ready { D.honest device.old → OnOk result (IsReady (D.state device.new) (end + length buf.old)) }
    ensures durable { D.honest device.old → OnOk result (IsAllDurable (D.state device.new)) }
    ensures ok { (bodies : List (List ℕ)) → D.honest device.old → HasList (D.state device.old) bodies → OnOk result (HasList (D.state device.new) (bodies ++ body_of buf.old ∷ [])) }
    ensures up { D.honest device.old → OnOk result ((D.state device.new).stopped ≡ false) }
    ensures counts { (D.state device.old).failures ≤ (D.state device.new).failures }
    ensures none { OnOk result ((D.state device.new).failures ≡ (D.state device.old).failures) }
    ensures err { OnErr result (Failed (D.state device.old) (D.state device.new)) }
    ensures stopped { (D.state device.old).stopped ≡ true → IsErr result × (D.honest device.old → Keeps (D.state device.old) (D.state device.new)) }
    ensures any_moment { (bodies : List (List ℕ)) → D.honest device.old → HasList (D.state device.old) bodies → LeavesOnly D.moment D.left_since device.old device.new (IsOldOrNew bodies (body_of buf.old)) }
{
    frame(buf, CLOSED);
    // The record goes behind the closed gate, where nothing counts: a stop leaves any part of it, and the old list.
    device.write_at(end + 1, buf)?;
    // It has to be durable before its gate is opened, since an open gate says that all behind it is there.
    // A stop leaves the record, whole or not, and the old list.
    device.sync()?;
    // One byte: a stop leaves an open gate and with it the new list, or any other byte and the old list.
    device.write_at(end, &[OPEN])?;
    // A stop still leaves one list or the other. Only once this call is through does each stop leave the new one, and
    // only then may a caller be told.
    device.sync()
}
