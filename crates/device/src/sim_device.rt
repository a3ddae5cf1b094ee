// A disk in memory is a device.
ghost use Rattle.std.specs.Prelude.{◌≡◌, ◌≤◌, ◌+◌, ◌<◌, List, length, take, drop, None, Some, true, false, IfOk, OnOk, OnErr, IsErr, IsOk};
ghost use Rattle.std.proofs.Common.{subst, sym, arith};
ghost use Rattle.std.proofs.lemmas.List.{take_all};
ghost use Rattle.device.specs.Device.{left, Wrote, Tore, Synced, Keeps, Revived, Failed, Elapses};
ghost use Rattle.device.specs.Faults.{IsDue, IsLater, or_old};
ghost use Rattle.device.specs.Sim.{CouldLeave, found};
ghost use Rattle.device.specs.declared.call.Call.{Call};
ghost use Rattle.device.specs.declared.tear.Tear.{Tear as AnyTear};
ghost use Rattle.device.specs.Disk.{state_of, moment_of, left_since_of, image_of, calls_of, script_of, tear_of, is_set_to_fail, FollowsScript, IsStruck};

use crate::{Device, SimDisk, Stopped, Tear};

impl Device for SimDisk {
    ghost state = { state_of };

    ghost honest = { λ d. Unit {0} };

    ghost moment = { moment_of };

    ghost left_since = { left_since_of };

    ghost set_to_fail = { is_set_to_fail };

    ghost reads_left = { λ d hon up. d.readable };

    ghost reads_longest = { λ d hon up. d.longest };

    ghost counts_now = { λ d t c hon le now. (length d.history.items, le, Prim.omega arith, subst (λ (calls : List Call). CouldLeave d.first.items calls c) (sym (take_all (length d.history.items) d.history.items (Prim.omega arith))) now) };

    ghost only_now = { λ d c hon since. subst (λ (calls : List Call). CouldLeave d.first.items calls c) (take_all since.0 d.history.items since.1) since.3 };

    fn len(&mut self) -> Result<usize, Stopped>
        ensures len { IfOk result (λ n. (n ≡ length (state_of self.old).seen) × ((state_of self.new).stopped ≡ false)) }
        ensures keeps { Keeps (state_of self.old) (state_of self.new) }
        ensures counts { (state_of self.old).failures ≤ (state_of self.new).failures }
        ensures none { OnOk result ((state_of self.new).failures ≡ (state_of self.old).failures) }
        ensures err { OnErr result (Failed (state_of self.old) (state_of self.new)) }
        ensures down { (state_of self.old).stopped ≡ true → IsErr result }
        ensures time { Elapses (moment_of self.old) (moment_of self.new) (left_since_of self.old) (left_since_of self.new) (left (state_of self.new)) }
        ensures script { FollowsScript self.old self.new result }

        // It needs no memory, so nothing else fails it.
        ensures waits { tear_of self.old ≡ None → IsLater (script_of self.old) → IsOk result }
    {
        let fault = self.faults.count();
        if fault.is_some() {
            return Err(self.faults.stop(fault));
        }
        Ok(self.seen.len())
    }

    fn read_at(&mut self, at: usize, buf: &mut [u8]) -> Result<(), Stopped>
        requires { (state_of self.old).stopped ≡ false → at + length buf.old ≤ length (state_of self.old).seen }
        ensures bytes { OnOk result ((buf.new ≡ take (length buf.old) (drop at (state_of self.old).seen)) × ((state_of self.new).stopped ≡ false)) }
        ensures keeps { Keeps (state_of self.old) (state_of self.new) }
        ensures counts { (state_of self.old).failures ≤ (state_of self.new).failures }
        ensures none { OnOk result ((state_of self.new).failures ≡ (state_of self.old).failures) }
        ensures err { OnErr result (Failed (state_of self.old) (state_of self.new)) }
        ensures down { (state_of self.old).stopped ≡ true → IsErr result }
        ensures time { Elapses (moment_of self.old) (moment_of self.new) (left_since_of self.old) (left_since_of self.new) (left (state_of self.new)) }
        ensures script { FollowsScript self.old self.new result }

        // It needs no memory, so nothing else fails it.
        ensures waits { tear_of self.old ≡ None → IsLater (script_of self.old) → IsOk result }
    {
        let fault = self.faults.count();
        if fault.is_some() {
            return Err(self.faults.stop(fault));
        }
        buf.copy_from_slice(self.part(at, buf.len()));
        Ok(())
    }

    fn write_at(&mut self, at: usize, bytes: &[u8]) -> Result<(), Stopped>
        requires { (state_of self.old).stopped ≡ false → at ≤ length (state_of self.old).seen }
        ensures ok { OnOk result (Wrote (state_of self.old) at bytes.now (state_of self.new)) }
        ensures torn { OnErr result (Tore (state_of self.old) at (length bytes.now) (state_of self.new)) }
        ensures counts { (state_of self.old).failures ≤ (state_of self.new).failures }
        ensures none { OnOk result ((state_of self.new).failures ≡ (state_of self.old).failures) }
        ensures err { OnErr result (Failed (state_of self.old) (state_of self.new)) }
        ensures down { (state_of self.old).stopped ≡ true → IsErr result × Keeps (state_of self.old) (state_of self.new) }
        ensures time { Elapses (moment_of self.old) (moment_of self.new) (left_since_of self.old) (left_since_of self.new) (left (state_of self.new)) }
        ensures script { FollowsScript self.old self.new result }

        // What is found after the failure has the write in its range, unless there was no memory to keep it.
        ensures struck { (tear : AnyTear) → tear_of self.old ≡ None → IsDue (script_of self.old) tear → IsStruck self.old at bytes.now self.new }

        // Without a script it fails only for lack of memory, and nothing is written.
        ensures waits { tear_of self.old ≡ None → IsLater (script_of self.old) → OnErr result (Keeps (state_of self.old) (state_of self.new)) }
    {
        let is_stopped = self.faults.is_stopped();
        let fault = self.faults.count();
        if is_stopped {
            return Err(self.faults.stop(fault));
        }
        // A write that fails is kept too: its range may have any bytes.
        match self.store(at, bytes) {
            Err(_) => {
                self.faults.is_lost = true;
                Err(self.faults.stop(fault))
            }
            Ok(()) => {
                self.faults.is_lost = false;
                if fault.is_some() {
                    return Err(self.faults.stop(fault));
                }
                Ok(())
            }
        }
    }

    fn sync(&mut self) -> Result<(), Stopped>
        ensures ok { OnOk result (Synced (state_of self.old) (state_of self.new)) }
        ensures keeps { OnErr result (Keeps (state_of self.old) (state_of self.new)) }
        ensures counts { (state_of self.old).failures ≤ (state_of self.new).failures }
        ensures none { OnOk result ((state_of self.new).failures ≡ (state_of self.old).failures) }
        ensures err { OnErr result (Failed (state_of self.old) (state_of self.new)) }
        ensures down { (state_of self.old).stopped ≡ true → IsErr result × Keeps (state_of self.old) (state_of self.new) }
        ensures time { Elapses (moment_of self.old) (moment_of self.new) (left_since_of self.old) (left_since_of self.new) (left (state_of self.new)) }
        ensures script { FollowsScript self.old self.new result }
    {
        if let Some(tear) = self.faults.count() {
            return Err(self.faults.stop(Some(tear)));
        }
        match self.keep_sync() {
            Err(_) => Err(self.faults.stop(None)),
            Ok(()) => Ok(()),
        }
    }

    fn revive(&mut self) -> Result<(), Stopped>
        ensures ok { OnOk result (Revived (state_of self.old) (state_of self.new)) }
        ensures keeps { OnErr result (Keeps (state_of self.old) (state_of self.new)) }
        ensures counts { (state_of self.old).failures ≤ (state_of self.new).failures }
        ensures none { OnOk result ((state_of self.new).failures ≡ (state_of self.old).failures) }
        ensures err { OnErr result (Failed (state_of self.old) (state_of self.new)) }
        ensures time { Elapses (moment_of self.old) (moment_of self.new) (left_since_of self.old) (left_since_of self.new) (left (state_of self.new)) }

        // What the script said of the failure is found; without one, what was last synced.
        ensures found { OnOk result (((state_of self.new).seen ≡ found (or_old (tear_of self.old)) (image_of self.old)) × (tear_of self.new ≡ None)) }
        ensures waits { OnErr result (tear_of self.new ≡ Some (or_old (tear_of self.old))) }
        ensures script { (script_of self.new ≡ script_of self.old) × (calls_of self.new ≡ calls_of self.old) }
    {
        let tear = self.faults.tear;
        match self.restore() {
            Err(_) => Err(self.faults.stop(tear)),
            Ok(()) => {
                self.faults.end();
                Ok(())
            }
        }
    }

    fn failures(&self) -> u64 {
        self.faults.failures
    }

    // Its bytes are in memory; each write finds out for itself whether there is room.
    fn has_room(&self, _len: usize) -> bool {
        true
    }

    fn fail(&mut self, n: u64, tear: Tear)
        ensures set { is_set_to_fail self.new n tear }
        ensures same { state_of self.new ≡ state_of self.old }
        ensures faults { (tear_of self.new ≡ tear_of self.old) × (calls_of self.new ≡ calls_of self.old) }
        ensures time { Elapses (moment_of self.old) (moment_of self.new) (left_since_of self.old) (left_since_of self.new) (left (state_of self.new)) }
    {
        self.faults.set(n, tear);
    }
}
