// What a coordinator knows, as the records of a checkpoint.
ghost use Rattle.std.specs.Prelude.{◌≡◌, ◌≤◌, ◌+◌, ◌++◌, length};
ghost use Rattle.records.specs.Format.{AreRecords};
ghost use Rattle.tuples.specs.Limits.{max_number as greatest_number};
ghost use Rattle.coordinator.specs.Checkpoints.{told_from};

use journal::{RecordRef, Source};
use ledger::Ledger;
use records::Record;
use std::marker::Model;

/// The records that are left: those before the decisions, and the decisions after a place. Nothing is copied for them.
#[derive(Drop)]
pub(crate) struct Known<'a> {
    heads: &'a [Record],
    ledger: &'a Ledger,
    // the place up to which they were told
    told: u64,
}

impl<'a> Model for Known<'a> {
    ghost use Rattle.std.specs.Prelude.{◌≤◌, ◌+◌, ◌++◌, List, length};
    ghost use Rattle.records.specs.declared.record.Record.{Record as AnyRecord};
    ghost use Rattle.records.specs.Format.{AreRecords};
    ghost use Rattle.coordinator.specs.Checkpoints.{told_from};

    ghost Value = { List AnyRecord };

    ghost view = { λ k. k.heads.now ++ told_from (k.told + 1) k.ledger.now };

    ghost invariant = { λ k. AreRecords k.heads.now × (k.ledger.now.base ≤ k.told) × (k.told ≤ k.ledger.now.base + length k.ledger.now.log) };
}

impl<'a> Known<'a> {
    /// The decisions after a place, after these records.
    pub fn new(heads: &'a [Record], ledger: &'a Ledger, told: u64) -> Known<'a>
        requires spelled { AreRecords heads.now }
        requires behind { ledger.now.base ≤ told }
        requires within { told ≤ ledger.now.base + length ledger.now.log }
        ensures { result ≡ heads.now ++ told_from (told + 1) ledger.now }
    {
        Known {
            heads,
            ledger,
            told,
        }
    }
}

impl<'a> Source<'a> for Known<'a> {
    ghost records = { λ k. k };

    fn next(&mut self) -> Option<RecordRef<'a>> {
        if let Some((head, rest)) = self.heads.split_first() {
            self.heads = rest;
            return Some(RecordRef::Whole(head));
        }
        if self.told >= self.ledger.end() {
            return None;
        }
        self.told += 1;
        Some(RecordRef::Decision {
            place: self.told,
            write: self.ledger.at(self.told),
        })
    }
}
