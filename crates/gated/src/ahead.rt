// Bodies written ahead of a list: behind its closed gate, so that none of them counts or has to be durable until it is opened.
ghost use Rattle.std.specs.Prelude.{◌≡◌, ◌≤◌, ◌<◌, ◌+◌, ◌↔◌, Some, [], ◌∷◌, ◌++◌, true, false, length, OnOk, OnErr, IsErr, List, ℕ};
ghost use Rattle.gated.specs.Gated.{body_of, gated, max_body, max_device, record_head, HasAhead, HasList, IsAhead, IsAllDurable, IsOldOrLonger, IsOldOrNone, IsReady, WasPut};
ghost use Rattle.device.specs.Device.{Failed, Keeps, Leaves, LeavesOnly, left};

use crate::append::frame;
use crate::format::{CLOSED, OPEN};
use device::{Device, Stopped};

/// Writes bytes, and makes them durable with all that was written before them.
fn put<D: Device>(device: &mut D, at: usize, bytes: &[u8]) -> Result<(), Stopped>
    requires { D.honest device.old → (D.state device.old).stopped ≡ false → at ≤ length (D.state device.old).seen }
    ensures honest { D.honest device.old ↔ D.honest device.new }
    ensures ok { D.honest device.old → OnOk result (WasPut (D.state device.old) at bytes.now (D.state device.new)) }
    ensures any_moment { D.honest device.old
        → LeavesOnly D.moment D.left_since device.old device.new (Leaves (D.state device.old).durable ((D.state device.old).written ++ (at, length bytes.now) ∷ [])) }
    ensures stopped { (D.state device.old).stopped ≡ true → IsErr result × (D.honest device.old → Keeps (D.state device.old) (D.state device.new)) }
    ensures still { (D.state device.old).stopped ≡ true → D.honest device.old → LeavesOnly D.moment D.left_since device.old device.new (left (D.state device.old)) }
    ensures counts { (D.state device.old).failures ≤ (D.state device.new).failures }
    ensures none { OnOk result ((D.state device.new).failures ≡ (D.state device.old).failures) }
    ensures err { OnErr result (Failed (D.state device.old) (D.state device.new)) }
{
    device.write_at(at, bytes)?;
    device.sync()
}

/// Writes the body in the buffer after those that are ahead, which end at `at`. It is not synced.
pub(crate) fn put_ahead<D: Device>(
    device: &mut D,
    end: usize,
    at: usize,
    buf: &mut [u8],
) -> Result<(), Stopped>
    requires some { record_head + 1 ≤ length buf.old }
    requires fits { length buf.old ≤ max_body + record_head }
    requires room { at + length buf.old < max_device }
    requires ready { D.honest device.old → (D.state device.old).stopped ≡ false → HasAhead (D.state device.old) end at }
    ensures honest { D.honest device.old ↔ D.honest device.new }
    ensures ready { D.honest device.old → OnOk result (HasAhead (D.state device.new) end (at + length buf.old)) }
    ensures ok { (ahead : List (List ℕ)) → D.honest device.old → IsAhead (D.state device.old) end at ahead
        → OnOk result (IsAhead (D.state device.new) end (at + length buf.old) (ahead ++ body_of buf.old ∷ [])) }
    ensures any_moment { (bodies : List (List ℕ)) → D.honest device.old → HasList (D.state device.old) bodies
        → LeavesOnly D.moment D.left_since device.old device.new (λ c. gated c ≡ Some bodies) }
    ensures up { D.honest device.old → OnOk result ((D.state device.new).stopped ≡ false) }
    ensures counts { (D.state device.old).failures ≤ (D.state device.new).failures }
    ensures none { OnOk result ((D.state device.new).failures ≡ (D.state device.old).failures) }
    ensures err { OnErr result (Failed (D.state device.old) (D.state device.new)) }
    ensures stopped { (D.state device.old).stopped ≡ true → IsErr result × (D.honest device.old → Keeps (D.state device.old) (D.state device.new)) }
{
    // The gate after it is open already: only the last one is closed, once no more bodies come.
    frame(buf, OPEN);
    // Nothing behind the list's closed gate counts, whatever a stop leaves of it. So no sync is needed until that gate is opened.
    device.write_at(at + 1, buf)
}

/// Makes all that is ahead the end of the list, whose closed gate stands at `end`.
pub(crate) fn open_ahead<D: Device>(device: &mut D, end: usize, at: usize) -> Result<(), Stopped>
    requires some { end < at }
    requires ready { D.honest device.old → (D.state device.old).stopped ≡ false → HasAhead (D.state device.old) end at }
    ensures honest { D.honest device.old ↔ D.honest device.new }
    ensures ready { D.honest device.old → OnOk result (IsReady (D.state device.new) at) }
    ensures durable { D.honest device.old → OnOk result (IsAllDurable (D.state device.new)) }
    ensures ok { (ahead bodies : List (List ℕ)) → D.honest device.old → IsAhead (D.state device.old) end at ahead → HasList (D.state device.old) bodies
        → OnOk result (HasList (D.state device.new) (bodies ++ ahead)) }
    ensures any_moment { (ahead bodies : List (List ℕ)) → D.honest device.old → IsAhead (D.state device.old) end at ahead → HasList (D.state device.old) bodies
        → LeavesOnly D.moment D.left_since device.old device.new (IsOldOrLonger bodies ahead) }
    ensures up { D.honest device.old → OnOk result ((D.state device.new).stopped ≡ false) }
    ensures counts { (D.state device.old).failures ≤ (D.state device.new).failures }
    ensures none { OnOk result ((D.state device.new).failures ≡ (D.state device.old).failures) }
    ensures err { OnErr result (Failed (D.state device.old) (D.state device.new)) }
    ensures stopped { (D.state device.old).stopped ≡ true → IsErr result × (D.honest device.old → Keeps (D.state device.old) (D.state device.new)) }
{
    // The gate after the last of them will end the list. Behind today's closed gate it counts for nothing yet. Its sync also
    // makes all that is ahead durable, as it has to be before the gate that says so is opened.
    put(device, at, &[CLOSED])?;
    // One byte: a stop leaves it open, and with it all that is ahead, or closed and the old list.
    put(device, end, &[OPEN])
}

/// Closes the first gate, which is open: the list is then empty.
pub(crate) fn close_first<D: Device>(device: &mut D, end: usize) -> Result<(), Stopped>
    requires some { 0 < end }
    requires ready { D.honest device.old → (D.state device.old).stopped ≡ false → IsReady (D.state device.old) end }
    ensures honest { D.honest device.old ↔ D.honest device.new }
    ensures ready { D.honest device.old → OnOk result (IsReady (D.state device.new) 0) }
    ensures durable { D.honest device.old → OnOk result (IsAllDurable (D.state device.new)) }
    ensures ok { D.honest device.old → OnOk result (HasList (D.state device.new) []) }
    ensures any_moment { (bodies : List (List ℕ)) → D.honest device.old → HasList (D.state device.old) bodies
        → LeavesOnly D.moment D.left_since device.old device.new (IsOldOrNone bodies) }
    ensures up { D.honest device.old → OnOk result ((D.state device.new).stopped ≡ false) }
    ensures counts { (D.state device.old).failures ≤ (D.state device.new).failures }
    ensures none { OnOk result ((D.state device.new).failures ≡ (D.state device.old).failures) }
    ensures err { OnErr result (Failed (D.state device.old) (D.state device.new)) }
    ensures stopped { (D.state device.old).stopped ≡ true → IsErr result × (D.honest device.old → Keeps (D.state device.old) (D.state device.new)) }
{
    // A stop leaves this byte open and the old list, or any other byte and the empty list.
    put(device, 0, &[CLOSED])
}
