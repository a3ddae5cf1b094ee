// A write that was begun.
ghost use Rattle.std.specs.Prelude.{◌≡◌, ◌<◌, ◌^◌, ◌↔◌, ℕ, true, IsBitSet};
ghost use Rattle.tuples.specs.Parts.{takes_part};
ghost use Rattle.records.specs.Replays.{AskOfLog};
ghost use Rattle.decisions.specs.Values.{IsBegunBy, IsGiven, IsIntent};

use device::Device;
use journal::Journal;
use std::marker::Model;
use tuples::{Entry, Shards, Write, WriteId};

/// A write that was begun, with its id. It has no `Drop`, so it has to be decided or left.
#[must_use]
pub struct Intent {
    entry: Entry,
    kept: u64,
}

impl Model for Intent {
    ghost use Rattle.records.specs.Replays.{AskOfLog};
    ghost use Rattle.decisions.specs.Values.{IntentValue, IsIntent};

    ghost Value = { IntentValue };

    ghost view = { λ i. record { write = i.entry; kept = i.kept } };

    ghost invariant = { λ i. IsIntent i.entry };
}

impl Intent {
    /// Made by a coordinator that has given the numbers 1 to `given` since its opening: its journal shows that the id comes next, and that
    /// `kept` is the place up to which every stop leaves the decisions. It has refused a write that asks about a place above its log.
    pub fn begin<D: Device>(
        journal: &Journal<D>,
        given: u64,
        id: WriteId,
        write: Write,
        kept: u64,
    ) -> Intent
        requires given { IsGiven id }
        requires places { AskOfLog write.conditions }
        requires begun { IsBegunBy D.state D.honest journal.now given id kept }
        ensures write { result.write ≡ record { id = id; changes = write.changes; conditions = write.conditions } }
        ensures kept { result.kept ≡ kept }
    {
        let _journal = journal;
        let _given = given;
        let (changes, conditions) = write.into_parts();
        let entry = Entry {
            id,
            changes,
            conditions,
        };
        Intent { entry, kept }
    }

    pub fn id(&self) -> WriteId
        ensures { result ≡ self.now.write.id }
    {
        self.entry.id
    }

    /// The write with its id.
    pub fn entry(&self) -> &Entry
        ensures value { result.now ≡ self.now.write }
        ensures whole { IsIntent self.now.write }
    {
        &self.entry
    }

    /// The place up to which all was kept when it was begun.
    pub fn kept(&self) -> u64
        ensures { result ≡ self.now.kept }
    {
        self.kept
    }

    /// The shards that take part in its write, in a store of this many: bit s for shard s.
    pub fn participants(&self, shards: Shards) -> u64
        ensures each { (s : ℕ) → IsBitSet result s ↔ (takes_part shards s self.now.write ≡ true) }
        ensures below { result < 2 ^ shards }
    {
        self.entry.participants(shards)
    }

    /// Spends it, and returns its write.
    pub fn into_entry(self) -> Entry
        ensures value { result ≡ self.write }
        ensures whole { IsIntent self.write }
    {
        let Intent { entry, kept: _ } = self;
        entry
    }

    /// Only spends it.
    pub fn leave(self) {
        let Intent { entry: _, kept: _ } = self;
    }
}
