// A device: bytes that are durable once they are synced.
ghost use Rattle.std.specs.Prelude.{◌≡◌, ◌≤◌, ◌+◌, ◌<◌, ◌↔◌, List, ℕ, length, take, drop, false, true, OnOk, OnErr, IfOk, IsErr};
ghost use Rattle.device.specs.declared.tear.Tear.{Tear as AnyTear};
ghost use Rattle.device.specs.Device.{State, left, reach, Wrote, Tore, Synced, Keeps, Revived, Failed, Elapses};

use crate::Tear;

/// A call failed: the device counts it in `failures`, and each call fails until `revive`.
#[derive(Clone, Copy, Debug, PartialEq, Eq)]
pub struct Stopped;

/// Stable storage: a stop leaves its bytes as of the last sync, except in the ranges written since.
///
/// After a stop each range written since the last sync, and the part past the old end, may hold any bytes, and the length may
/// lie anywhere between the old and the new. After an error the device answers only errors until `revive`.
pub trait Device: Drop {
    /// What is stored, and what has failed.
    ghost state: { Self → State };

    /// It keeps what the clauses below promise. If it does not, they say nothing.
    ghost honest: { Self → Type 0 };

    /// The moment, a number that never falls.
    ghost moment: { Self → ℕ };

    /// What a stop at that moment or a later one may leave, during a call or between two.
    ghost left_since: { Self → ℕ → List ℕ → Type 0 };

    /// It will fail at the n-th call from now on (from 1) of `len`, `read_at`, `write_at` and `sync`, and what the tear
    /// says is found then. For a device without scripts, such as a file, this is always true.
    ghost set_to_fail: { Self → ℕ → AnyTear → Type 0 };

    /// How many bytes there are.
    fn len(&mut self) -> Result<usize, Stopped>
        ensures honest { honest self.old ↔ honest self.new }
        ensures len { honest self.old → IfOk result (λ n. (n ≡ length (state self.old).seen) × ((state self.new).stopped ≡ false)) }
        ensures keeps { honest self.old → Keeps (state self.old) (state self.new) }
        ensures counts { (state self.old).failures ≤ (state self.new).failures }
        ensures none { OnOk result ((state self.new).failures ≡ (state self.old).failures) }
        ensures err { OnErr result (Failed (state self.old) (state self.new)) }
        ensures down { (state self.old).stopped ≡ true → IsErr result × (honest self.old → Keeps (state self.old) (state self.new)) }
        ensures time { honest self.old → Elapses (moment self.old) (moment self.new) (left_since self.old) (left_since self.new) (left (state self.new)) };

    /// Fills the buffer with the bytes from an offset on; all of them lie inside.
    fn read_at(&mut self, at: usize, buf: &mut [u8]) -> Result<(), Stopped>
        requires { honest self.old → (state self.old).stopped ≡ false → at + length buf.old ≤ length (state self.old).seen }
        ensures honest { honest self.old ↔ honest self.new }
        ensures bytes { honest self.old → OnOk result ((buf.new ≡ take (length buf.old) (drop at (state self.old).seen)) × ((state self.new).stopped ≡ false)) }
        ensures keeps { honest self.old → Keeps (state self.old) (state self.new) }
        ensures counts { (state self.old).failures ≤ (state self.new).failures }
        ensures none { OnOk result ((state self.new).failures ≡ (state self.old).failures) }
        ensures err { OnErr result (Failed (state self.old) (state self.new)) }
        ensures down { (state self.old).stopped ≡ true → IsErr result × (honest self.old → Keeps (state self.old) (state self.new)) }
        ensures time { honest self.old → Elapses (moment self.old) (moment self.new) (left_since self.old) (left_since self.new) (left (state self.new)) };

    /// Overwrites what is there, and extends past the end; the offset is at most the length.
    fn write_at(&mut self, at: usize, bytes: &[u8]) -> Result<(), Stopped>
        requires { honest self.old → (state self.old).stopped ≡ false → at ≤ length (state self.old).seen }
        ensures honest { honest self.old ↔ honest self.new }
        ensures ok { honest self.old → OnOk result (Wrote (state self.old) at bytes.now (state self.new)) }
        ensures torn { honest self.old → OnErr result (Tore (state self.old) at (length bytes.now) (state self.new)) }
        ensures counts { (state self.old).failures ≤ (state self.new).failures }
        ensures none { OnOk result ((state self.new).failures ≡ (state self.old).failures) }
        ensures err { OnErr result (Failed (state self.old) (state self.new)) }
        ensures down { (state self.old).stopped ≡ true → IsErr result × (honest self.old → Keeps (state self.old) (state self.new)) }
        ensures time { honest self.old → Elapses (moment self.old) (moment self.new) (left_since self.old) (left_since self.new) (left (state self.new)) };

    /// After it, a stop leaves what a read gives.
    fn sync(&mut self) -> Result<(), Stopped>
        ensures honest { honest self.old ↔ honest self.new }
        ensures ok { honest self.old → OnOk result (Synced (state self.old) (state self.new)) }
        ensures keeps { honest self.old → OnErr result (Keeps (state self.old) (state self.new)) }
        ensures counts { (state self.old).failures ≤ (state self.new).failures }
        ensures none { OnOk result ((state self.new).failures ≡ (state self.old).failures) }
        ensures err { OnErr result (Failed (state self.old) (state self.new)) }
        ensures down { (state self.old).stopped ≡ true → IsErr result × (honest self.old → Keeps (state self.old) (state self.new)) }
        ensures time { honest self.old → Elapses (moment self.old) (moment self.new) (left_since self.old) (left_since self.new) (left (state self.new)) };

    /// Ends the failure: what a stop may have left is found.
    fn revive(&mut self) -> Result<(), Stopped>
        ensures honest { honest self.old ↔ honest self.new }
        ensures ok { honest self.old → OnOk result (Revived (state self.old) (state self.new)) }
        ensures keeps { honest self.old → OnErr result (Keeps (state self.old) (state self.new)) }
        ensures counts { (state self.old).failures ≤ (state self.new).failures }
        ensures none { OnOk result ((state self.new).failures ≡ (state self.old).failures) }
        ensures err { OnErr result (Failed (state self.old) (state self.new)) }
        ensures time { honest self.old → Elapses (moment self.old) (moment self.new) (left_since self.old) (left_since self.new) (left (state self.new)) };

    /// The number of calls that have failed so far; it stays at its greatest value.
    fn failures(&self) -> u64
        ensures { result ≡ (state self.now).failures };

    /// Whether it can grow to this many bytes, as far as is known. If so it may have reserved the room, and others who write to the same disk take none of it.
    /// It is advice: nothing that is stored changes, no failure is counted, and no clause holds the device to its answer.
    fn has_room(&self, len: usize) -> bool;

    /// Replaces the script, and changes nothing else.
    fn fail(&mut self, n: u64, tear: Tear)
        ensures set { set_to_fail self.new n tear }
        ensures honest { honest self.old ↔ honest self.new }
        ensures keeps { honest self.old → Keeps (state self.old) (state self.new) }
        ensures same { ((state self.new).failures ≡ (state self.old).failures) × ((state self.new).stopped ≡ (state self.old).stopped) }
        ensures time { honest self.old → Elapses (moment self.old) (moment self.new) (left_since self.old) (left_since self.new) (left (state self.new)) };

    /// What an honest device reads as is one of the contents that a stop may leave.
    ghost reads_left: { (d : Self) → honest d → (state d).stopped ≡ false → left (state d) (state d).seen };

    /// No content that a stop may leave is longer than what an honest device reads as.
    ghost reads_longest: { (d : Self) → honest d → (state d).stopped ≡ false → reach (state d).written (length (state d).durable) ≤ length (state d).seen };

    /// What may be left now may be left since any earlier moment.
    ghost counts_now: { (d : Self) (t : ℕ) (c : List ℕ) → honest d → t ≤ moment d → left (state d) c → left_since d t c };

    /// What is left since this moment may be left now.
    ghost only_now: { (d : Self) (c : List ℕ) → honest d → left_since d (moment d) c → left (state d) c };
}
