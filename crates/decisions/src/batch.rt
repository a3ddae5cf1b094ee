// Decisions on their way to a shard.
ghost use Rattle.std.specs.Prelude.{◌≡◌, ◌≤◌, ◌+◌, length};
ghost use Rattle.tuples.specs.Limits.{max_batch};
ghost use Rattle.records.specs.Replays.{greatest_number};
ghost use Rattle.decisions.specs.Values.{AreDecidedBy};

use device::Device;
use journal::Journal;
use std::marker::Model;
use tuples::Entry;

/// The decisions after a place, in the order of their places.
#[derive(Drop)]
pub struct Batch {
    from: u64,
    writes: Vec<Entry>,
}

impl Model for Batch {
    ghost use Rattle.std.specs.Prelude.{◌≤◌, ◌+◌, length};
    ghost use Rattle.tuples.specs.Limits.{max_batch};
    ghost use Rattle.records.specs.Replays.{greatest_number};
    ghost use Rattle.decisions.specs.Values.{BatchValue};

    ghost Value = { BatchValue };

    ghost view = { λ b. record { from = b.from; writes = b.writes.items } };

    ghost invariant = { λ b. (length b.writes.items ≤ max_batch) × (b.from + length b.writes.items ≤ greatest_number) };
}

impl Batch {
    /// Made by a coordinator whose journal shows that these are the decisions at the places from `from` + 1 on, and that every stop
    /// leaves them.
    pub fn from_log<D: Device>(journal: &Journal<D>, from: u64, writes: Vec<Entry>) -> Batch
        requires few { length writes.items ≤ max_batch }
        requires places { from + length writes.items ≤ greatest_number }
        requires decided { AreDecidedBy D.state D.honest journal.now from writes.items }
        ensures { result ≡ record { from = from; writes = writes.items } }
    {
        let _journal = journal;
        Batch { from, writes }
    }

    /// The place before its first decision.
    pub fn from(&self) -> u64
        ensures { result ≡ self.now.from }
    {
        self.from
    }

    /// The place of its last decision.
    pub fn to(&self) -> u64
        ensures value { result ≡ self.now.from + length self.now.writes }
        ensures greatest { result ≤ greatest_number }
    {
        self.from + self.writes.len() as u64
    }

    pub fn writes(&self) -> &[Entry]
        ensures value { result.now ≡ self.now.writes }
        ensures few { length self.now.writes ≤ max_batch }
    {
        &self.writes
    }
}
