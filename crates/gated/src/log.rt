// A log of bodies behind gates: a body counts once its gate is open.
ghost use Rattle.std.specs.Prelude.{◌≡◌, ◌≤◌, ◌<◌, ◌+◌, ◌^◌, ◌↔◌, ◌⊎◌, ◌∷◌, [], ◌++◌, None, false, true, length, map, List, ℕ, OnErr, OnOk, IsErr, IfOk, IfErr, MatchResult, IsErrOf};
ghost use Rattle.device.specs.Device.{LeavesOnly, Failed, HasFailed, Keeps, Elapses, left};
ghost use Rattle.gated.specs.Gated.{HasList, IsAhead, IsAllDurable, IsOldOrLonger, IsOldOrNew, IsOldOrNone, body_of, gated, max_body, max_device, record_head, IsFoundList};

use crate::ahead::{close_first, open_ahead, put_ahead};
use crate::append::append_at;
use crate::format::MAX_DEVICE;
use crate::opening::find_list;
use device::{Device, Stopped, Tear};
use refusal::Refusal;
use std::alloc::Global;
use std::marker::Model;

/// A log over one device. Contracts see it as that device, the offset of the gate that ends the list, and where the bodies end
/// that are ahead of it.
#[derive(Drop)]
pub struct GatedLog<D: Device> {
    pub(crate) device: D,
    // the offset of the closed gate that ends the list
    pub(crate) end: usize,
    // the offset of the open gate after the bodies that are ahead; without any, the same as `end`
    pub(crate) at: usize,
}

impl<D: Device> Model for GatedLog<D> {
    ghost use Rattle.std.specs.Prelude.{◌≡◌, ◌≤◌, false};
    ghost use Rattle.gated.specs.Gated.{HasAhead, LogView};

    ghost Value = { LogView D };

    ghost view = { λ l. record { device = l.device; end = l.end; at = l.at } };

    ghost invariant = { λ l. (l.end ≤ l.at) × (D.honest l.device → (D.state l.device).stopped ≡ false → HasAhead (D.state l.device) l.end l.at) };
}

impl<D: Device> GatedLog<D> {
    /// Opens the log of a device, with the bodies found, oldest first. A device of at most one byte is initialized as the empty
    /// list.
    ///
    /// Each refusal returns the device: `Down` if a call of it failed, `NoMemory`, and `Damaged` if an open gate has no whole record
    /// after it.
    pub fn open(alloc: Global, mut device: D) -> Result<(GatedLog<D>, Vec<Vec<u8>>), (Refusal, D)>
        ensures honest { MatchResult result (λ r. D.honest device ↔ D.honest r.0.device) (λ e. D.honest device ↔ D.honest e.1) }

        // Exactly the list that the device has.
        ensures ok { D.honest device → IfOk result (λ r. IsFoundList (D.state device) (map (λ b. b.items) r.1.items) (D.state r.0.device)) }
        ensures damaged { D.honest device → IfErr result (λ e. e.0 ≡ Refusal.Damaged → gated (D.state device).seen ≡ None) }
        ensures down { IfErr result (λ e. e.0 ≡ Refusal.Down → HasFailed (D.state device) (D.state e.1)) }
        ensures err { IfErr result (λ e. (e.0 ≡ Refusal.Down) ⊎ ((e.0 ≡ Refusal.NoMemory) ⊎ (e.0 ≡ Refusal.Damaged))) }
        ensures stopped { (D.state device).stopped ≡ true → IsErr result }
        ensures counts { MatchResult result (λ r. (D.state device).failures ≤ (D.state r.0.device).failures) (λ e. (D.state device).failures ≤ (D.state e.1).failures) }

        ensures none { MatchResult result (λ r. (D.state r.0.device).failures ≡ (D.state device).failures)
            (λ e. (e.0 ≡ Refusal.Down) ⊎ ((D.state e.1).failures ≡ (D.state device).failures)) }
        ensures end { D.honest device → IfOk result (λ r. r.0.end < length (D.state r.0.device).seen) }

        // Nothing is ahead of it, and all that is read is durable.
        ensures at { IfOk result (λ r. r.0.at ≡ r.0.end) }
        ensures ahead { D.honest device → IfOk result (λ r. IsAhead (D.state r.0.device) r.0.end r.0.at []) }
        ensures durable { D.honest device → IfOk result (λ r. IsAllDurable (D.state r.0.device)) }

        // At every moment of the call a stop leaves what it could leave before, or a content with the list that the device had.
        ensures any_moment { D.honest device → MatchResult result
            (λ r. LeavesOnly D.moment D.left_since device r.0.device (λ c. left (D.state device) c ⊎ (gated c ≡ gated (D.state device).seen)))
            (λ e. LeavesOnly D.moment D.left_since device e.1 (λ c. left (D.state device) c ⊎ (gated c ≡ gated (D.state device).seen))) }

        // Once the device has failed, a stop leaves only what it could before.
        ensures still { (D.state device).stopped ≡ true → D.honest device → IfErr result (λ e. LeavesOnly D.moment D.left_since device e.1 (left (D.state device))) }
    {
        match find_list(alloc, &mut device) {
            Ok((bodies, end)) => Ok((
                GatedLog {
                    device,
                    end,
                    at: end,
                },
                bodies,
            )),
            Err(refusal) => Err((refusal, device)),
        }
    }

    /// Appends the body that stands in the buffer after four bytes and before one, which this call fills; exactly four device
    /// calls. It replaces what was ahead.
    ///
    /// `Full` if the list would end past 2^40 bytes: nothing has changed. `Down`: the list is the old one or the new one; revive
    /// the device and open the log again.
    pub fn append(&mut self, buf: &mut [u8]) -> Result<(), Refusal>
        requires some { record_head + 1 ≤ length buf.old }
        requires fits { length buf.old ≤ max_body + record_head }
        ensures honest { D.honest self.old.device ↔ D.honest self.new.device }

        // At every moment of the call a stop leaves the old list or the new one.
        ensures any_moment { (bodies : List (List ℕ)) → D.honest self.old.device → HasList (D.state self.old.device) bodies → LeavesOnly D.moment D.left_since self.old.device self.new.device (IsOldOrNew bodies (body_of buf.old)) }

        // From then on each stop leaves the new one, and all that is read is durable.
        ensures ok { (bodies : List (List ℕ)) → D.honest self.old.device → HasList (D.state self.old.device) bodies → OnOk result (HasList (D.state self.new.device) (bodies ++ body_of buf.old ∷ [])) }
        ensures up { D.honest self.old.device → OnOk result ((D.state self.new.device).stopped ≡ false) }
        ensures failed { IsErrOf result Refusal.Down → Failed (D.state self.old.device) (D.state self.new.device) }
        ensures full { IsErrOf result Refusal.Full → (self.new ≡ self.old) × (max_device ≤ self.old.end + length buf.old)
            × (D.honest self.old.device → (D.state self.old.device).stopped ≡ false → self.old.end < length (D.state self.old.device).seen) }
        ensures err { IfErr result (λ e. (e ≡ Refusal.Down) ⊎ (e ≡ Refusal.Full)) }
        ensures counts { (D.state self.old.device).failures ≤ (D.state self.new.device).failures }
        ensures none { OnOk result ((D.state self.new.device).failures ≡ (D.state self.old.device).failures) }
        ensures end { OnOk result ((self.new.end ≡ self.old.end + length buf.old) × (self.new.end < max_device)) }
        ensures unmoved { OnErr result (self.new.end ≡ self.old.end) }
        ensures ahead { D.honest self.old.device → OnOk result (IsAhead (D.state self.new.device) self.new.end self.new.at []) }
        ensures durable { D.honest self.old.device → OnOk result (IsAllDurable (D.state self.new.device)) }
        ensures at { OnOk result (self.new.at ≡ self.new.end) }
        ensures stopped { (D.state self.old.device).stopped ≡ true → IsErr result × (D.honest self.old.device → Keeps (D.state self.old.device) (D.state self.new.device)) }
    {
        if self.end >= MAX_DEVICE - buf.len() {
            return Err(Refusal::Full);
        }
        match append_at(&mut self.device, self.end, buf) {
            Ok(()) => {
                self.end += buf.len();
                self.at = self.end;
                Ok(())
            }
            Err(Stopped) => Err(Refusal::Down),
        }
    }

    /// Writes the body in the buffer, which is laid out as for `append`, ahead of the list: after those that are ahead already. Until
    /// `publish` none of them counts or has to be durable. One device call, and no sync.
    ///
    /// `Full` if it would end past 2^40 bytes: nothing has changed. `Down`: the list is as it was, and nothing is ahead; revive the
    /// device and open the log again.
    pub fn write_ahead(&mut self, buf: &mut [u8]) -> Result<(), Refusal>
        requires some { record_head + 1 ≤ length buf.old }
        requires fits { length buf.old ≤ max_body + record_head }
        ensures honest { D.honest self.old.device ↔ D.honest self.new.device }

        // At every moment of the call, and from then on, a stop leaves the list.
        ensures any_moment { (bodies : List (List ℕ)) → D.honest self.old.device → HasList (D.state self.old.device) bodies → LeavesOnly D.moment D.left_since self.old.device self.new.device (λ c. gated c ≡ Some bodies) }
        ensures list { (bodies : List (List ℕ)) → D.honest self.old.device → HasList (D.state self.old.device) bodies → HasList (D.state self.new.device) bodies }

        // One more body is ahead of it.
        ensures ok { (ahead : List (List ℕ)) → D.honest self.old.device → IsAhead (D.state self.old.device) self.old.end self.old.at ahead
            → OnOk result (IsAhead (D.state self.new.device) self.new.end self.new.at (ahead ++ body_of buf.old ∷ [])) }
        ensures up { D.honest self.old.device → OnOk result ((D.state self.new.device).stopped ≡ false) }
        ensures failed { IsErrOf result Refusal.Down → Failed (D.state self.old.device) (D.state self.new.device) }
        ensures full { IsErrOf result Refusal.Full → (self.new ≡ self.old) × (max_device ≤ self.old.at + length buf.old)
            × (D.honest self.old.device → (D.state self.old.device).stopped ≡ false → self.old.at < length (D.state self.old.device).seen) }
        ensures err { IfErr result (λ e. (e ≡ Refusal.Down) ⊎ (e ≡ Refusal.Full)) }
        ensures counts { (D.state self.old.device).failures ≤ (D.state self.new.device).failures }
        ensures none { OnOk result ((D.state self.new.device).failures ≡ (D.state self.old.device).failures) }
        ensures end { self.new.end ≡ self.old.end }
        ensures at { OnOk result ((self.new.at ≡ self.old.at + length buf.old) × (self.new.end < self.new.at) × (self.new.at < max_device)) }
        ensures stopped { (D.state self.old.device).stopped ≡ true → IsErr result × (D.honest self.old.device → Keeps (D.state self.old.device) (D.state self.new.device)) }
    {
        if self.at >= MAX_DEVICE - buf.len() {
            return Err(Refusal::Full);
        }
        match put_ahead(&mut self.device, self.end, self.at, buf) {
            Ok(()) => {
                self.at += buf.len();
                Ok(())
            }
            Err(Stopped) => Err(Refusal::Down),
        }
    }

    /// Makes all bodies that are ahead the end of the list, by one byte; exactly four device calls. However many bodies there are, its
    /// first sync makes all of them durable, before that byte is written.
    ///
    /// `Down`: the list is the old one or has all of them; revive the device and open the log again.
    pub fn publish(&mut self) -> Result<(), Refusal>
        requires { self.old.end < self.old.at }
        ensures honest { D.honest self.old.device ↔ D.honest self.new.device }

        // At every moment of the call a stop leaves the old list, or the one with all of them.
        ensures any_moment { (ahead bodies : List (List ℕ)) → D.honest self.old.device → IsAhead (D.state self.old.device) self.old.end self.old.at ahead → HasList (D.state self.old.device) bodies
            → LeavesOnly D.moment D.left_since self.old.device self.new.device (IsOldOrLonger bodies ahead) }

        // From then on each stop leaves the longer one, and nothing is ahead of it. All that is read is durable.
        ensures ok { (ahead bodies : List (List ℕ)) → D.honest self.old.device → IsAhead (D.state self.old.device) self.old.end self.old.at ahead → HasList (D.state self.old.device) bodies
            → OnOk result (HasList (D.state self.new.device) (bodies ++ ahead)) }
        ensures ahead { D.honest self.old.device → OnOk result (IsAhead (D.state self.new.device) self.new.end self.new.at []) }
        ensures durable { D.honest self.old.device → OnOk result (IsAllDurable (D.state self.new.device)) }
        ensures up { D.honest self.old.device → OnOk result ((D.state self.new.device).stopped ≡ false) }
        ensures failed { IsErrOf result Refusal.Down → Failed (D.state self.old.device) (D.state self.new.device) }
        ensures err { IfErr result (λ e. e ≡ Refusal.Down) }
        ensures counts { (D.state self.old.device).failures ≤ (D.state self.new.device).failures }
        ensures none { OnOk result ((D.state self.new.device).failures ≡ (D.state self.old.device).failures) }
        ensures end { OnOk result ((self.new.end ≡ self.old.at) × (self.new.at ≡ self.old.at)) }
        ensures stopped { (D.state self.old.device).stopped ≡ true → IsErr result × (D.honest self.old.device → Keeps (D.state self.old.device) (D.state self.new.device)) }
    {
        match open_ahead(&mut self.device, self.end, self.at) {
            Ok(()) => {
                self.end = self.at;
                Ok(())
            }
            Err(Stopped) => Err(Refusal::Down),
        }
    }

    /// Empties the list, by one byte, and forgets what is ahead. Two device calls; none if the list is empty, since overwriting a closed
    /// gate might leave an open one. What was ahead of an empty list may then still wait for a sync.
    ///
    /// `Down`: the list is the old one or the empty one; revive the device and open the log again.
    pub fn clear(&mut self) -> Result<(), Refusal>
        ensures honest { D.honest self.old.device ↔ D.honest self.new.device }

        // At every moment of the call a stop leaves the old list, or the empty one.
        ensures any_moment { (bodies : List (List ℕ)) → D.honest self.old.device → HasList (D.state self.old.device) bodies → LeavesOnly D.moment D.left_since self.old.device self.new.device (IsOldOrNone bodies) }

        // From then on each stop leaves the empty one, and nothing is ahead of it. If there was a list, all that is read is durable.
        ensures ok { D.honest self.old.device → (D.state self.old.device).stopped ≡ false → OnOk result (HasList (D.state self.new.device) []) }
        ensures ahead { D.honest self.old.device → (D.state self.old.device).stopped ≡ false → OnOk result (IsAhead (D.state self.new.device) 0 0 []) }
        ensures durable { D.honest self.old.device → 0 < self.old.end → OnOk result (IsAllDurable (D.state self.new.device)) }
        ensures up { D.honest self.old.device → (D.state self.old.device).stopped ≡ false → OnOk result ((D.state self.new.device).stopped ≡ false) }
        ensures failed { IsErrOf result Refusal.Down → Failed (D.state self.old.device) (D.state self.new.device) }
        ensures err { IfErr result (λ e. e ≡ Refusal.Down) }
        ensures counts { (D.state self.old.device).failures ≤ (D.state self.new.device).failures }
        ensures none { OnOk result ((D.state self.new.device).failures ≡ (D.state self.old.device).failures) }
        ensures end { OnOk result ((self.new.end ≡ 0) × (self.new.at ≡ 0)) }
        ensures closed { self.old.end ≡ 0 → (result ≡ Ok tt) × (self.new.device ≡ self.old.device) }
        ensures stopped { (D.state self.old.device).stopped ≡ true → 0 < self.old.end → IsErr result × (D.honest self.old.device → Keeps (D.state self.old.device) (D.state self.new.device)) }
    {
        if self.end == 0 {
            self.at = 0;
            return Ok(());
        }
        match close_first(&mut self.device, self.end) {
            Ok(()) => {
                self.end = 0;
                self.at = 0;
                Ok(())
            }
            Err(Stopped) => Err(Refusal::Down),
        }
    }

    /// Sets the script of the device, and changes nothing else.
    pub fn fail(&mut self, n: u64, tear: Tear)
        ensures set { D.set_to_fail self.new.device n tear }
        ensures end { (self.new.end ≡ self.old.end) × (self.new.at ≡ self.old.at) }
        ensures honest { D.honest self.old.device ↔ D.honest self.new.device }
        ensures keeps { D.honest self.old.device → Keeps (D.state self.old.device) (D.state self.new.device) }
        ensures same { ((D.state self.new.device).failures ≡ (D.state self.old.device).failures) × ((D.state self.new.device).stopped ≡ (D.state self.old.device).stopped) }
        ensures time { D.honest self.old.device → Elapses (D.moment self.old.device) (D.moment self.new.device) (D.left_since self.old.device) (D.left_since self.new.device) (left (D.state self.new.device)) }
    {
        self.device.fail(n, tear);
    }

    /// The offset of the closed gate that ends the list.
    pub fn end(&self) -> usize
        ensures { result ≡ self.now.end }
    {
        self.end
    }

    /// Its device.
    pub fn device(&self) -> &D
        ensures { result.now ≡ self.now.device }
    {
        &self.device
    }

    /// Gives the device back.
    pub fn into_device(self) -> D
        ensures { result ≡ self.device }
    {
        let GatedLog {
            device,
            end: _,
            at: _,
        } = self;
        device
    }
}
