// What a shard knows, as the records of a checkpoint.
ghost use Rattle.std.specs.Prelude.{◌≡◌, ◌∷◌, ◌++◌, [], map, MatchOption};
ghost use Rattle.records.specs.declared.record.Record.{Record as AnyRecord};
ghost use Rattle.records.specs.Format.{AreRecords, IsRecord};
ghost use Rattle.replay.specs.Checkpoints.{prepare_of, row_of};
ghost use Rattle.versions.specs.Walks.{IsInOrder};
ghost use Rattle.journal.specs.Sources.{record_of};

use journal::{RecordRef, Source};
use records::Record;
use replay::Memory;
use std::collections::btree_map::Values;
use std::marker::Model;
use tuples::{Entry, WriteId};
use versions::Walk;

/// The records that are left: those before the versions, the versions, and the writes in doubt. Nothing is copied for them.
#[derive(Drop)]
pub(crate) struct Known<'a> {
    heads: &'a [Record],
    versions: Walk<'a>,
    doubts: Values<'a, WriteId, Entry>,
}

impl<'a> Model for Known<'a> {
    ghost use Rattle.std.specs.Prelude.{List, map, ◌++◌};
    ghost use Rattle.std.specs.List.{AllByRecursion};
    ghost use Rattle.records.specs.declared.record.Record.{Record as AnyRecord};
    ghost use Rattle.records.specs.Format.{AreRecords, IsPrepared};
    ghost use Rattle.replay.specs.Checkpoints.{prepare_of, row_of};

    ghost Value = { List AnyRecord };

    ghost view = { λ k. k.heads.now ++ (map row_of k.versions ++ map prepare_of k.doubts) };

    ghost invariant = { λ k. AreRecords k.heads.now × AllByRecursion IsPrepared k.doubts };
}

impl<'a> Known<'a> {
    /// What the memory has, after these records.
    pub fn new(heads: &'a [Record], memory: &'a Memory) -> Known<'a>
        requires { AreRecords heads.now }
        ensures all { result ≡ heads.now ++ (map row_of memory.now.rows ++ map prepare_of memory.now.in_doubt) }
        ensures in_order { IsInOrder memory.now.rows }
    {
        Known {
            heads,
            versions: memory.walk(),
            doubts: memory.doubts(),
        }
    }
}

impl<'a> Source<'a> for Known<'a> {
    ghost records = { λ k. k };

    fn next(&mut self) -> Option<RecordRef<'a>> {
        if let Some((head, rest)) = self.heads.split_first() {
            self.heads = rest;
            return Some(RecordRef::Whole(head));
        }
        if let Some((tuple, row)) = self.versions.next() {
            // The record has a tuple in its grammar.
            tuple.keeps_grammar();
            return Some(RecordRef::Row {
                place: row.place,
                tuple,
                is_touch: row.is_touch,
            });
        }
        if let Some(part) = self.doubts.next() {
            return Some(RecordRef::Prepare(part));
        }
        None
    }
}
