// Which calls of a disk in memory fail, and what is found after it.
ghost use Rattle.std.specs.Prelude.{◌≡◌, ◌≤◌, ◌<◌, ◌+◌, ◌-◌, ◌^◌, ◌⊎◌, min, is_some, Some, None};
ghost use Rattle.device.specs.Faults.{IsDue, IsLater, nearer, or_old};
ghost use Rattle.device.specs.declared.tear.Tear.{Tear as AnyTear};

use crate::{Stopped, Tear};

#[derive(Drop)]
pub(crate) struct Faults {
    // what is found after the current failure, if there is one
    pub(crate) tear: Option<Tear>,
    pub(crate) failures: u64,
    // the number of calls that a script counts, those on a stopped device too
    pub(crate) calls: u64,
    // how many calls from now one fails, and what is found then
    script: Option<(u64, Tear)>,
    // there was no memory to keep the last write
    pub(crate) is_lost: bool,
}

impl Faults {
    pub(crate) fn none() -> Faults
        ensures tear { result.tear ≡ None }
        ensures failures { result.failures ≡ 0 }
        ensures calls { result.calls ≡ 0 }
        ensures script { result.script ≡ None }
    {
        Faults {
            tear: None,
            failures: 0,
            calls: 0,
            script: None,
            is_lost: false,
        }
    }

    pub(crate) fn set(&mut self, n: u64, tear: Tear)
        ensures script { self.new.script ≡ Some (n, tear) }
        ensures failures { self.new.failures ≡ self.old.failures }
        ensures calls { self.new.calls ≡ self.old.calls }
        ensures tear { self.new.tear ≡ self.old.tear }
    {
        self.script = Some((n, tear));
    }

    pub(crate) fn is_stopped(&self) -> bool
        ensures { result ≡ is_some self.now.tear }
    {
        self.tear.is_some()
    }

    // Counts a call. Returns what it fails with, if it does: the current failure, or the script that names it.
    pub(crate) fn count(&mut self) -> Option<Tear>
        ensures strikes { (tear : AnyTear) → self.old.tear ≡ None → IsDue self.old.script tear → (result ≡ Some tear) × (self.new.script ≡ None) }
        ensures waits { self.old.tear ≡ None → IsLater self.old.script → (result ≡ None) × (self.new.script ≡ nearer self.old.script) }
        ensures down { (tear : AnyTear) → self.old.tear ≡ Some tear → (result ≡ Some tear) × (self.new.script ≡ self.old.script) }
        ensures goes { result ≡ None → self.old.tear ≡ None }
        ensures calls { self.new.calls ≡ min (self.old.calls + 1) (2 ^ 64 - 1) }
        ensures tear { self.new.tear ≡ self.old.tear }
        ensures failures { self.new.failures ≡ self.old.failures }
    {
        self.calls = self.calls.saturating_add(1);
        if self.tear.is_some() {
            return self.tear;
        }
        let (n, tear) = self.script?;
        if n <= 1 {
            self.script = None;
            return Some(tear);
        }
        self.script = Some((n - 1, tear));
        None
    }

    // Counts a failure: from now on each call fails. If no script says what is found, it is the content of the last sync.
    pub(crate) fn stop(&mut self, tear: Option<Tear>) -> Stopped
        ensures script { self.new.script ≡ self.old.script }
        ensures tear { self.new.tear ≡ Some (or_old tear) }
        ensures lost { self.new.is_lost ≡ self.old.is_lost }
        ensures calls { self.new.calls ≡ self.old.calls }
        ensures cause { (self.old.failures < self.new.failures) ⊎ (self.new.failures ≡ 2 ^ 64 - 1) }
        ensures counts { self.old.failures ≤ self.new.failures }
    {
        self.tear = Some(tear.unwrap_or(Tear::Old));
        self.failures = self.failures.saturating_add(1);
        Stopped
    }

    // Ends the failure; the script stays.
    pub(crate) fn end(&mut self)
        ensures script { self.new.script ≡ self.old.script }
        ensures tear { self.new.tear ≡ None }
        ensures calls { self.new.calls ≡ self.old.calls }
        ensures failures { self.new.failures ≡ self.old.failures }
    {
        self.tear = None;
    }
}
