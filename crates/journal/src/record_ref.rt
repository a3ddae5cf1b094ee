// A record whose parts lie elsewhere.
ghost use Rattle.std.specs.Prelude.{◌≡◌, ◌≤◌, ◌<◌, ◌+◌, ◌++◌, false, length, vec_capacity, vec_len, OnOk, OnErr};
ghost use Rattle.journal.specs.Sources.{record_of};
ghost use Rattle.records.specs.Format.{IsRecord, record_bytes};

use records::{Record, encode_decision, encode_prepare, encode_row};
use std::alloc::AllocError;
use tuples::{Entry, Packed};

/// A record that is spelled from where its parts lie: nothing is copied for it.
#[derive(Clone, Copy)]
pub enum RecordRef<'a> {
    /// That record.
    Whole(&'a Record),
    /// The mark of a version: at a place a touch of the tuple, or else a delete.
    Row {
        place: u64,
        tuple: &'a Packed,
        is_touch: bool,
    },
    /// The prepare of a part.
    Prepare(&'a Entry),
    /// A decision at a place.
    Decision {
        place: u64,
        write: &'a Entry,
    },
}

impl RecordRef<'_> {
    /// Appends its bytes. Memory is as in `Record::encode`.
    pub(crate) fn encode(self, out: &mut Vec<u8>) -> Result<(), AllocError>
        requires { IsRecord (record_of self) }
        ensures ok { OnOk result (out.new.items ≡ out.old.items ++ record_bytes false (record_of self.entry)) }
        ensures err { OnErr result ((out.new.items ≡ out.old.items) × (vec_capacity out.old < vec_len out.old + length (record_bytes false (record_of self.entry)))) }
        ensures room { vec_capacity out.old ≤ vec_capacity out.new }
    {
        match self {
            RecordRef::Whole(record) => record.encode(out),
            RecordRef::Row {
                place,
                tuple,
                is_touch,
            } => encode_row(place, tuple, is_touch, out),
            RecordRef::Prepare(part) => encode_prepare(part, out),
            RecordRef::Decision { place, write } => encode_decision(place, write, out),
        }
    }
}
