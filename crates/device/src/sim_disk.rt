// A disk in memory, which keeps the list of its calls.
ghost use Rattle.std.specs.Prelude.{◌≡◌, ◌≤◌, ◌+◌, List, ℕ, length, take, drop, OnOk, OnErr, IfOk, None};
ghost use Rattle.device.specs.Device.{patched, left};
ghost use Rattle.device.specs.Faults.{or_old};
ghost use Rattle.device.specs.Sim.{replay, all_durable, overwritten, found, HasMade, CouldLeave, NoneLonger};

use crate::Tear;
use crate::call::Call;
use crate::content::{find, patch};
use crate::durable::durable_after;
use crate::faults::Faults;
use std::alloc::{AllocError, Global};

/// A disk in memory. A script says when it fails and what is found then.
///
/// It keeps each call that changed what a stop may leave, and replays them to find what was durable. Every such disk is honest.
#[derive(Drop)]
pub struct SimDisk {
    alloc: Global,
    // the durable content that it was made with
    pub(crate) first: Vec<u8>,
    // the calls that changed what a stop may leave, oldest first
    pub(crate) history: Vec<Call>,
    // as it reads now
    pub(crate) seen: Vec<u8>,
    pub(crate) faults: Faults,
    ghost reads: { seen.items ≡ (replay first.items history.items).seen },
    ghost readable: { CouldLeave first.items history.items seen.items },
    ghost longest: { NoneLonger first.items history.items seen.items },
}

impl SimDisk {
    ghost use Rattle.device.specs.Disk.{state_of, calls_of, script_of, tear_of, has_lost_of, IsFresh};

    /// A disk with this durable content and no calls so far.
    pub fn new(alloc: Global, content: Vec<u8>) -> Result<SimDisk, AllocError>
        ensures fresh { IfOk result (λ d. IsFresh content.items (state_of d)) }
        ensures only { IfOk result (λ d. (c : List ℕ) → left (state_of d) c → c ≡ content.items) }
        ensures calls { IfOk result (λ d. calls_of d ≡ 0) }
        ensures script { IfOk result (λ d. (script_of d ≡ None) × (tear_of d ≡ None)) }
    {
        Ok(SimDisk {
            alloc,
            first: content.to_vec(alloc)?,
            history: Vec::new(alloc),
            seen: content,
            faults: Faults::none(),
        })
    }

    /// The number of calls of `len`, `read_at`, `write_at` and `sync`, those that failed too; it stays at its greatest value.
    pub fn calls(&self) -> u64
        ensures { result ≡ calls_of self.now }
    {
        self.faults.calls
    }

    /// Whether there was no memory to keep the last write. Then it failed, and is not found after any failure, whatever a script says.
    pub fn has_lost(&self) -> bool
        ensures { result ≡ has_lost_of self.now }
    {
        self.faults.is_lost
    }

    // Writes, and keeps the write. If memory runs out, nothing has changed.
    pub(crate) fn store(&mut self, at: usize, bytes: &[u8]) -> Result<(), AllocError>
        requires { at ≤ length self.old.seen.items }
        ensures first { self.new.first.items ≡ self.old.first.items }
        ensures seen { OnOk result (self.new.seen.items ≡ patched self.old.seen.items at bytes.now) }
        ensures made { OnOk result (HasMade self.old.history.items (overwritten at bytes.now) self.new.history.items) }
        ensures err { OnErr result ((self.new.history.items ≡ self.old.history.items) × (self.new.seen.items ≡ self.old.seen.items)) }
        ensures faults { self.new.faults ≡ self.old.faults }
    {
        let kept = bytes.to_vec(self.alloc)?;
        // After this the push can't fail, so the two changes come together.
        self.history.reserve(1)?;
        patch(&mut self.seen, at, bytes)?;
        self.history.push(Call::Write { at, bytes: kept })?;
        Ok(())
    }

    // From now on a stop leaves what reads.
    pub(crate) fn keep_sync(&mut self) -> Result<(), AllocError>
        ensures first { self.new.first.items ≡ self.old.first.items }
        ensures seen { self.new.seen.items ≡ self.old.seen.items }
        ensures made { OnOk result (HasMade self.old.history.items (λ m. all_durable m.seen) self.new.history.items) }
        ensures err { OnErr result (self.new.history.items ≡ self.old.history.items) }
        ensures faults { self.new.faults ≡ self.old.faults }
    {
        self.history.push(Call::Sync)?;
        Ok(())
    }

    // What the tear says is found, and is durable. If memory runs out, nothing has changed.
    pub(crate) fn restore(&mut self) -> Result<(), AllocError>
        ensures first { self.new.first.items ≡ self.old.first.items }
        ensures seen { OnOk result (self.new.seen.items ≡ found (or_old self.old.faults.tear) (replay self.old.first.items self.old.history.items)) }
        ensures made { OnOk result (HasMade self.old.history.items (λ m. all_durable (found (or_old self.old.faults.tear) m)) self.new.history.items) }
        ensures err { OnErr result ((self.new.history.items ≡ self.old.history.items) × (self.new.seen.items ≡ self.old.seen.items)) }
        ensures faults { self.new.faults ≡ self.old.faults }
    {
        let tear = self.faults.tear.unwrap_or(Tear::Old);
        let (mut content, since) = durable_after(self.alloc, &self.first, &self.history)?;
        find(self.alloc, &mut content, &self.history[since..], tear)?;
        self.history.push(Call::Revive(tear))?;
        self.seen = content;
        Ok(())
    }

    pub(crate) fn part(&self, at: usize, len: usize) -> &[u8]
        requires { at + len ≤ length self.now.seen.items }
        ensures { result.now ≡ take len (drop at self.now.seen.items) }
    {
        &self.seen[at..at + len]
    }
}
