// How long a session may be idle.
ghost use Rattle.std.specs.Prelude.{◌≡◌, ◌+◌, ◌-◌, ◌^◌, ◌<◌, ◌≤◌, ◌⊎◌, min, true, false};

use crate::signs::Signs;

/// What an idle session is given: so many ticks in a row while others wait, and for ever while nobody does.
#[derive(Drop)]
pub struct Patience<'a> {
    pub signs: &'a Signs,
    /// How many ticks the session may be idle while others wait; 0: for ever.
    pub idle: u64,
    /// How many ticks it has been idle.
    pub ticks: u64,
}

impl Patience<'_> {
    /// One more tick, by what the signs told of it. Whether the session is cut: exactly if the server closes, or if others wait and it was idle for
    /// the ticks that it may be.
    pub fn tick(&mut self, others_wait: bool, is_closing: bool) -> bool
        ensures idle { self.new.idle ≡ self.old.idle }
        ensures ticks { self.new.ticks ≡ min (self.old.ticks + 1) (2 ^ 64 - 1) }
        ensures cut { result ≡ true → (is_closing ≡ true) ⊎ ((others_wait ≡ true) × (0 < self.new.idle) × (self.new.idle ≤ self.new.ticks)) }
        ensures kept { result ≡ false → (is_closing ≡ false) × ((others_wait ≡ false) ⊎ (self.new.idle ≡ 0) ⊎ (self.new.ticks < self.new.idle)) }
    {
        self.count();
        is_cut(self.ticks, self.idle, others_wait, is_closing)
    }

    // One more tick.
    fn count(&mut self)
        ensures idle { self.new.idle ≡ self.old.idle }
        ensures ticks { self.new.ticks ≡ min (self.old.ticks + 1) (2 ^ 64 - 1) }
    {
        self.ticks = self.ticks.saturating_add(1);
    }
}

// Whether a session is cut after so many ticks in a row.
fn is_cut(ticks: u64, idle: u64, others_wait: bool, is_closing: bool) -> bool
    ensures cut { result ≡ true → (is_closing ≡ true) ⊎ ((others_wait ≡ true) × (0 < idle) × (idle ≤ ticks)) }
    ensures kept { result ≡ false → (is_closing ≡ false) × ((others_wait ≡ false) ⊎ (idle ≡ 0) ⊎ (ticks < idle)) }
{
    is_closing || others_wait && 0 < idle && idle <= ticks
}
