// What a new node is to know, as the records of a checkpoint.
ghost use Rattle.std.specs.Prelude.{◌≡◌, ◌++◌, map, IfOk};
ghost use Rattle.journal.specs.Sources.{record_of};
ghost use Rattle.reshard.specs.Merging.{merged, version_at};
ghost use Rattle.records.specs.Format.{AreRecords, IsRecord};
ghost use Rattle.replay.specs.Checkpoints.{row_of};
ghost use Rattle.tuples.specs.Versions.{of_shard};

use crate::least::next;
use crate::own::{Head, Own};
use crate::rows::Rows;
use journal::{RecordRef, Source};
use records::{Identity, Record};
use std::alloc::{AllocError, Global};
use std::marker::Model;

/// The records that are left: those before the versions, and those of the node's versions, by tuple and then by place. Nothing is copied for them.
#[derive(Drop)]
pub struct Told<'h, 'r> {
    heads: &'h [Record],
    owns: Vec<Own<'r>>,
}

impl<'h, 'r> Model for Told<'h, 'r> {
    ghost use Rattle.std.specs.Prelude.{List, map, ◌++◌};
    ghost use Rattle.reshard.specs.Merging.{merged};
    ghost use Rattle.records.specs.Format.{AreRecords};
    ghost use Rattle.records.specs.declared.record.Record.{Record as AnyRecord};
    ghost use Rattle.replay.specs.Checkpoints.{row_of};

    ghost Value = { List AnyRecord };

    ghost view = { λ t. t.heads.now ++ map row_of (merged t.owns.items) };

    ghost invariant = { λ t. AreRecords t.heads.now };
}

impl<'h, 'r> Told<'h, 'r> {
    /// The node's versions, after these records. It takes the memory of a few words for each list.
    pub fn new(
        alloc: Global,
        heads: &'h [Record],
        rows: &Rows<'r>,
        me: Identity,
    ) -> Result<Told<'h, 'r>, AllocError>
        requires { AreRecords heads.now }
        ensures { IfOk result (λ told. told ≡ heads.now ++ map row_of (of_shard me.shards me.node (merged rows.now))) }
    {
        match rows.own(alloc, me) {
            Ok(owns) => Ok(Told { heads, owns }),
            Err(_) => Err(AllocError),
        }
    }
}

// The record of a version.
fn row<'h, 'r: 'h>(head: Head<'r>) -> RecordRef<'h>
    ensures is { record_of result ≡ row_of (version_at head.entry) }
    ensures spelled { IsRecord (record_of result) }
{
    // The record has a tuple in its grammar.
    head.tuple.keeps_grammar();
    RecordRef::Row {
        place: head.row.place,
        tuple: head.tuple,
        is_touch: head.row.is_touch,
    }
}

impl<'h, 'r: 'h> Source<'h> for Told<'h, 'r> {
    ghost records = { λ t. t };

    fn next(&mut self) -> Option<RecordRef<'h>> {
        if let Some((head, rest)) = self.heads.split_first() {
            self.heads = rest;
            return Some(RecordRef::Whole(head));
        }
        match next(&mut self.owns) {
            Some(head) => Some(row(head)),
            None => None,
        }
    }
}
