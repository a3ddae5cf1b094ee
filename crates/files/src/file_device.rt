// A device over a file, about which no contract says anything: each life reads only what it found when it was opened.
ghost use Rattle.std.specs.Prelude.{◌≡◌, ◌≤◌, ◌+◌, ◌<◌, ◌⊎◌, ◌^◌, ◌-◌, [], ◌∷◌, true, false, List, ℕ, IfOk, IfErr, IfSome, None, IsErr, IsOk, OnOk, OnErr, length, take, drop, vec_len};
ghost use Rattle.std.proofs.Common.{subst, arith};
ghost use Rattle.std.proofs.Props.{props};
ghost use Rattle.device.specs.Device.{Elapses, Failed, Keeps, Revived, Synced, Tore, Wrote, left};
ghost use Rattle.device.specs.Disk.{IsFresh};
ghost use Rattle.files.specs.Life.{opened, written, image, life_state, NoneLonger, LeftSince, CouldLeave};

use crate::RawFile;
use crate::history::History;
use device::{Device, Stopped, Tear};
use refusal::Refusal;
use std::alloc::Global;

/// A life of a device over a file. It reads what it found when it was opened, from memory; the first write discards that, and nothing can be
/// read any more.
///
/// | Call | Before the first write | After it |
/// |---|---|---|
/// | `len`, `read_at` | from memory, no call of the file | counts as a failure |
/// | `write_at`, `sync` | one call of the file | the same |
/// | `revive` | continues with what was found, if the file syncs | counts as a failure |
///
/// So a device that has failed after a write is down for good. Drop it and open the file again: the next life has what that finds.
#[derive(Drop)]
pub struct FileDevice<F: RawFile> {
    file: F,
    // what was found, until something is written
    found: Option<Vec<u8>>,
    is_stopped: bool,
    failures: u64,
    // what was done, for clauses alone
    history: History,
    ghost unread: { IfSome found (λ v. history.events ≡ opened v.items ∷ []) } by { Prim.hlevel props },
    ghost readable: { CouldLeave history.events (image history.events).seen },
    ghost longest: { NoneLonger history.events },
}

impl<F: RawFile> FileDevice<F> {
    /// Refreshes the file and reads all of it: that is durable, and what this life has found. It has written nothing, and no call has failed.
    /// `Down` if a call of the file fails, `NoMemory` for its bytes; nothing is written in either case.
    pub fn open(alloc: Global, mut file: F) -> Result<FileDevice<F>, Refusal>
        ensures fresh { IfOk result (λ d. IsFresh (image d.history.events).seen (life_state d.history.events d.is_stopped d.failures)) }
        ensures found { IfOk result (λ d. (a : F) × (b : F) × F.refreshed file a × F.told a (length (image d.history.events).seen) b × F.has_read b 0 (image d.history.events).seen d.file) }
        ensures err { IfErr result (λ e. ((e ≡ Refusal.Down) × (a : F) × (b : F) × F.failed a b) ⊎ (e ≡ Refusal.NoMemory)) }
    {
        if file.refresh().is_err() {
            return Err(Refusal::Down);
        }
        let Ok(len) = file.len() else {
            return Err(Refusal::Down);
        };
        let mut content = vec![in alloc; 0; len]?;
        if file.read_at(0, &mut content).is_err() {
            return Err(Refusal::Down);
        }
        let history = History::of(&content);
        Ok(FileDevice {
            file,
            found: Some(content),
            is_stopped: false,
            failures: 0,
            history,
        })
    }

    /// What was found, until the first write; then nothing.
    pub fn found(&self) -> &[u8]
        ensures found { IfSome self.now.found (λ v. result.now ≡ v.items) }
        ensures none { self.now.found ≡ None → result.now ≡ [] }
    {
        match &self.found {
            Some(found) => found,
            None => &[],
        }
    }

    pub(crate) fn file(&self) -> &F
        ensures { result.now ≡ self.now.file }
    {
        &self.file
    }

    // Counts a failure: from now on each call fails.
    fn stop(&mut self) -> Stopped
        ensures file { self.new.file ≡ self.old.file }
        ensures history { self.new.history ≡ self.old.history }
        ensures found { self.new.found ≡ self.old.found }
        ensures stopped { self.new.is_stopped ≡ true }
        ensures cause { (self.old.failures < self.new.failures) ⊎ (self.new.failures ≡ 2 ^ 64 - 1) }
        ensures counts { self.old.failures ≤ self.new.failures }
    {
        self.is_stopped = true;
        self.failures = self.failures.saturating_add(1);
        Stopped
    }
}

impl<F: RawFile> Device for FileDevice<F> {
    ghost state = { λ d. life_state d.history.events d.is_stopped d.failures };

    ghost honest = { λ d. Unit {0} };

    ghost moment = { λ d. length d.history.events };

    ghost left_since = { λ d t c. LeftSince d.history.events t c };

    // A file has no scripts.
    ghost set_to_fail = { λ d n tear. Unit {0} };

    ghost reads_left = { λ d hon up. d.readable };

    ghost reads_longest = { λ d hon up. d.longest };

    ghost counts_now = { λ d t c hon le now. let early : t ≤ length d.history.events = le in (0, Prim.omega (arith, early), now) };

    ghost only_now = { λ d c hon since. let late : since.0 + length d.history.events ≤ length d.history.events = since.1 in let none : since.0 ≡ 0 = Prim.omega (arith, late) in subst (λ (k : ℕ). CouldLeave (drop k d.history.events) c) none since.2 };

    fn len(&mut self) -> Result<usize, Stopped>
        ensures file { self.new.file ≡ self.old.file }
        ensures finds { self.old.is_stopped ≡ false → IfSome self.old.found (λ v. IsOk result) }
        ensures len { IfOk result (λ n. (n ≡ length (life_state self.old.history.events self.old.is_stopped self.old.failures).seen) × (self.new.is_stopped ≡ false)) }
        ensures keeps { Keeps (life_state self.old.history.events self.old.is_stopped self.old.failures) (life_state self.new.history.events self.new.is_stopped self.new.failures) }
        ensures counts { self.old.failures ≤ self.new.failures }
        ensures none { OnOk result (self.new.failures ≡ self.old.failures) }
        ensures err { OnErr result (Failed (life_state self.old.history.events self.old.is_stopped self.old.failures) (life_state self.new.history.events self.new.is_stopped self.new.failures)) }
        ensures down { self.old.is_stopped ≡ true → IsErr result × Keeps (life_state self.old.history.events self.old.is_stopped self.old.failures) (life_state self.new.history.events self.new.is_stopped self.new.failures) }
        ensures time { Elapses (length self.old.history.events) (length self.new.history.events) (LeftSince self.old.history.events) (LeftSince self.new.history.events) (CouldLeave self.new.history.events) }
    {
        if self.is_stopped {
            return Err(self.stop());
        }
        let Some(found) = &self.found else {
            return Err(self.stop());
        };
        Ok(found.len())
    }

    fn read_at(&mut self, at: usize, buf: &mut [u8]) -> Result<(), Stopped>
        requires { self.old.is_stopped ≡ false → at + length buf.old ≤ length (life_state self.old.history.events self.old.is_stopped self.old.failures).seen }
        ensures file { self.new.file ≡ self.old.file }
        ensures finds { self.old.is_stopped ≡ false → IfSome self.old.found (λ v. IsOk result) }
        ensures bytes { OnOk result ((buf.new ≡ take (length buf.old) (drop at (life_state self.old.history.events self.old.is_stopped self.old.failures).seen)) × (self.new.is_stopped ≡ false)) }
        ensures keeps { Keeps (life_state self.old.history.events self.old.is_stopped self.old.failures) (life_state self.new.history.events self.new.is_stopped self.new.failures) }
        ensures counts { self.old.failures ≤ self.new.failures }
        ensures none { OnOk result (self.new.failures ≡ self.old.failures) }
        ensures err { OnErr result (Failed (life_state self.old.history.events self.old.is_stopped self.old.failures) (life_state self.new.history.events self.new.is_stopped self.new.failures)) }
        ensures down { self.old.is_stopped ≡ true → IsErr result × Keeps (life_state self.old.history.events self.old.is_stopped self.old.failures) (life_state self.new.history.events self.new.is_stopped self.new.failures) }
        ensures time { Elapses (length self.old.history.events) (length self.new.history.events) (LeftSince self.old.history.events) (LeftSince self.new.history.events) (CouldLeave self.new.history.events) }
    {
        if self.is_stopped {
            return Err(self.stop());
        }
        let Some(found) = &self.found else {
            return Err(self.stop());
        };
        buf.copy_from_slice(&found[at..at + buf.len()]);
        Ok(())
    }

    fn write_at(&mut self, at: usize, bytes: &[u8]) -> Result<(), Stopped>
        requires { self.old.is_stopped ≡ false → at ≤ length (life_state self.old.history.events self.old.is_stopped self.old.failures).seen }
        ensures ok { OnOk result (Wrote (life_state self.old.history.events self.old.is_stopped self.old.failures) at bytes.now (life_state self.new.history.events self.new.is_stopped self.new.failures)) }
        ensures notes { self.old.is_stopped ≡ false → self.new.history.events ≡ written at bytes.now ∷ self.old.history.events }
        ensures torn { OnErr result (Tore (life_state self.old.history.events self.old.is_stopped self.old.failures) at (length bytes.now) (life_state self.new.history.events self.new.is_stopped self.new.failures)) }
        ensures counts { self.old.failures ≤ self.new.failures }
        ensures none { OnOk result (self.new.failures ≡ self.old.failures) }
        ensures err { OnErr result (Failed (life_state self.old.history.events self.old.is_stopped self.old.failures) (life_state self.new.history.events self.new.is_stopped self.new.failures)) }
        ensures down { self.old.is_stopped ≡ true → IsErr result × Keeps (life_state self.old.history.events self.old.is_stopped self.old.failures) (life_state self.new.history.events self.new.is_stopped self.new.failures) }
        ensures time { Elapses (length self.old.history.events) (length self.new.history.events) (LeftSince self.old.history.events) (LeftSince self.new.history.events) (CouldLeave self.new.history.events) }
        ensures call { OnOk result (F.wrote self.old.file at bytes.now self.new.file) }
        ensures fails { self.old.is_stopped ≡ false → OnErr result (F.failed self.old.file self.new.file) }
    {
        if self.is_stopped {
            return Err(self.stop());
        }
        self.found = None;
        let is_done = self.file.write_at(at, bytes).is_ok();
        // A failed write is noted too: its range may have any bytes.
        self.history.note_write(at, bytes);
        if !is_done {
            return Err(self.stop());
        }
        Ok(())
    }

    fn sync(&mut self) -> Result<(), Stopped>
        ensures ok { OnOk result (Synced (life_state self.old.history.events self.old.is_stopped self.old.failures) (life_state self.new.history.events self.new.is_stopped self.new.failures)) }
        ensures keeps { OnErr result (Keeps (life_state self.old.history.events self.old.is_stopped self.old.failures) (life_state self.new.history.events self.new.is_stopped self.new.failures)) }
        ensures counts { self.old.failures ≤ self.new.failures }
        ensures none { OnOk result (self.new.failures ≡ self.old.failures) }
        ensures err { OnErr result (Failed (life_state self.old.history.events self.old.is_stopped self.old.failures) (life_state self.new.history.events self.new.is_stopped self.new.failures)) }
        ensures down { self.old.is_stopped ≡ true → IsErr result × Keeps (life_state self.old.history.events self.old.is_stopped self.old.failures) (life_state self.new.history.events self.new.is_stopped self.new.failures) }
        ensures time { Elapses (length self.old.history.events) (length self.new.history.events) (LeftSince self.old.history.events) (LeftSince self.new.history.events) (CouldLeave self.new.history.events) }
        ensures call { OnOk result (F.synced self.old.file self.new.file) }
        ensures fails { self.old.is_stopped ≡ false → OnErr result (F.failed self.old.file self.new.file) }
    {
        if self.is_stopped {
            return Err(self.stop());
        }
        let is_synced = self.file.sync().is_ok();
        if !is_synced {
            return Err(self.stop());
        }
        // What was found is durable already.
        if self.found.is_none() {
            self.history.note_sync();
        }
        Ok(())
    }

    fn revive(&mut self) -> Result<(), Stopped>
        ensures ends { self.old.found ≡ None → IsErr result }
        ensures ok { OnOk result (Revived (life_state self.old.history.events self.old.is_stopped self.old.failures) (life_state self.new.history.events self.new.is_stopped self.new.failures)) }
        ensures keeps { OnErr result (Keeps (life_state self.old.history.events self.old.is_stopped self.old.failures) (life_state self.new.history.events self.new.is_stopped self.new.failures)) }
        ensures counts { self.old.failures ≤ self.new.failures }
        ensures none { OnOk result (self.new.failures ≡ self.old.failures) }
        ensures err { OnErr result (Failed (life_state self.old.history.events self.old.is_stopped self.old.failures) (life_state self.new.history.events self.new.is_stopped self.new.failures)) }
        ensures time { Elapses (length self.old.history.events) (length self.new.history.events) (LeftSince self.old.history.events) (LeftSince self.new.history.events) (CouldLeave self.new.history.events) }
        ensures call { OnOk result (F.synced self.old.file self.new.file) }
        ensures fails { OnErr result ((self.old.found ≡ None) ⊎ F.failed self.old.file self.new.file) }
    {
        let has_written = self.found.is_none();
        // What was written may be there or not: only the next life reads it.
        if has_written {
            return Err(self.stop());
        }
        if self.file.sync().is_err() {
            return Err(self.stop());
        }
        self.is_stopped = false;
        Ok(())
    }

    fn failures(&self) -> u64 {
        self.failures
    }

    fn has_room(&self, len: usize) -> bool {
        self.file.has_room(len)
    }

    fn fail(&mut self, _n: u64, _tear: Tear) {}
}
