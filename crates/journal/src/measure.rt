// How long a checkpoint would be, before anything of it is written.
ghost use Rattle.std.specs.Prelude.{◌≡◌, ◌-◌, ◌^◌, [], false, length, min, IfOk};
ghost use Rattle.journal.specs.Measures.{bytes_of};
ghost use Rattle.journal.specs.Sources.{record_of};
ghost use Rattle.records.specs.Format.{IsRecord, record_bytes};

use crate::batch::Batch;
use crate::checkpoint::put_first;
use crate::{Journal, RecordRef, Source};
use device::Device;
use std::alloc::{AllocError, Global};

// More than what stands around the records of one checkpoint: the two that begin and end it, and the head of a batch.
const AROUND: u64 = 4096;

// How many bytes a record has, which the batch takes for it and lets go again.
fn record_len(piece: &mut Batch, next: RecordRef<'_>) -> u64
    requires spelled { IsRecord (record_of next) }
    requires empty { piece.old ≡ [] }
    ensures empty { piece.new ≡ [] }
    ensures len { result ≡ length (record_bytes false (record_of next.entry)) }
{
    put_first(piece, next);
    let size = piece.size();
    piece.forget_first(size);
    size.len as u64
}

/// How many bytes the records of the source have. It takes the memory of one batch.
pub fn len_of<'a, S: Source<'a>>(alloc: Global, source: &mut S) -> Result<u64, AllocError>
    ensures { IfOk result (λ n. n ≡ min (2 ^ 64 - 1) (bytes_of (S.records source.old))) }
{
    let mut piece = Batch::new(alloc)?;
    let mut len = 0;
    while let Some(next) = source.next() {
        len = record_len(&mut piece, next).saturating_add(len);
    }
    Ok(len)
}

impl<D: Device> Journal<D> {
    /// Whether the device to which a checkpoint would be written has the room for one of records of so many bytes, as `Device::has_room` tells it: it is
    /// advice, and no clause holds the device to it.
    pub fn has_point_room(&self, len: u64) -> bool {
        let other = if self.is_b { &self.a } else { &self.b };
        // Batches have at least half a MiB each, and heads of a few bytes.
        let all = len.saturating_add(len / 1024).saturating_add(AROUND);
        other.device().has_room(all as usize)
    }
}
