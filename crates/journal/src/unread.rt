// The records that an opening found, read batch by batch.
ghost use Rattle.std.specs.Prelude.{◌≡◌, ◌⊎◌, ◌<◌, [], Some, None, map, length, IfOk, IfErr, IfSome, IsErrOf, MatchOption};
ghost use Rattle.journal.specs.Records.{batches};
ghost use Rattle.journal.specs.Unread.{IsBatchRead, IsRead};
ghost use Rattle.records.specs.Format.{AreRecords, IsRecord};

use records::{Record, decode_batch};
use std::alloc::Global;
use std::collections::VecDeque;
use std::marker::Model;
use std::vec::IntoIter;
use tuples::Refusal;

/// The records of a journal that were not read yet, oldest first. In memory are their batches as bytes, and of one batch its records: what was
/// read is let go.
#[derive(Drop)]
pub struct Unread {
    // what is left of the batch that is being read
    batch: IntoIter<Record>,
    // the batches after it
    bodies: VecDeque<Vec<u8>>,
}

impl Model for Unread {
    ghost use Rattle.std.specs.Prelude.{map};
    ghost use Rattle.std.specs.Vec.Iter.{into_iter_items};
    ghost use Rattle.journal.specs.Unread.{Left, left_of};
    ghost use Rattle.records.specs.Format.{AreRecords};

    ghost Value = { Left };

    ghost view = { λ u. left_of (into_iter_items u.batch) (map (λ b. b.items) u.bodies.items) };

    ghost invariant = { λ u. AreRecords (into_iter_items u.batch) };
}

// The records of the first batch, which is let go; none if no batch is left. A refusal changes nothing.
fn next_batch(alloc: Global, bodies: &mut VecDeque<Vec<u8>>) -> Result<Option<Vec<Record>>, Refusal>
    ensures ok { IfOk result (λ o. MatchOption o (bodies.old.items ≡ []) (λ rs. IsBatchRead (map (λ b. b.items) bodies.old.items) rs.items (map (λ b. b.items) bodies.new.items))) }
    ensures shorter { IfOk result (λ o. MatchOption o (bodies.old.items ≡ []) (λ rs. length bodies.new.items < length bodies.old.items)) }
    ensures spelled { IfOk result (λ o. IfSome o (λ rs. AreRecords rs.items)) }
    ensures damaged { IsErrOf result Refusal.Damaged → batches (map (λ b. b.items) bodies.old.items) ≡ None }
    ensures err { IfErr result (λ e. (bodies.new.items ≡ bodies.old.items) × ((e ≡ Refusal.NoMemory) ⊎ (e ≡ Refusal.Damaged))) }
{
    let Some(body) = bodies.front() else {
        return Ok(None);
    };
    let records = decode_batch(alloc, body)?;
    let _read = bodies.pop_front();
    Ok(Some(records))
}

impl Unread {
    pub(crate) fn new(alloc: Global, bodies: Vec<Vec<u8>>) -> Unread
        ensures { result.records ≡ batches (map (λ b. b.items) bodies.items) }
    {
        Unread {
            batch: Vec::new(alloc).into_iter(),
            bodies: VecDeque::from(bodies),
        }
    }

    /// The next record, or none if all were read; `Damaged` if its batch is no batch, `NoMemory`. A refusal changes nothing.
    pub fn next(&mut self, alloc: Global) -> Result<Option<Record>, Refusal>
        ensures ok { IfOk result (λ o. MatchOption o (self.old.records ≡ Some []) (λ r. IsRead self.old r self.new)) }
        ensures spelled { IfOk result (λ o. IfSome o IsRecord) }
        ensures damaged { IsErrOf result Refusal.Damaged → self.old.records ≡ None }
        ensures err { IfErr result (λ e. (self.new.records ≡ self.old.records) × ((e ≡ Refusal.NoMemory) ⊎ (e ≡ Refusal.Damaged))) }
    {
        loop {
            if let Some(record) = self.batch.next() {
                return Ok(Some(record));
            }
            let Some(records) = next_batch(alloc, &mut self.bodies)? else {
                return Ok(None);
            };
            self.batch = records.into_iter();
        }
    }

    /// All that are left.
    pub(crate) fn read_all(mut self, alloc: Global) -> Result<Vec<Record>, Refusal>
        ensures ok { IfOk result (λ rs. self.records ≡ Some rs.items) }
        ensures damaged { IsErrOf result Refusal.Damaged → self.records ≡ None }
        ensures err { IfErr result (λ e. (e ≡ Refusal.NoMemory) ⊎ (e ≡ Refusal.Damaged)) }
    {
        let mut records = Vec::new(alloc);
        while let Some(record) = self.next(alloc)? {
            let Ok(()) = records.reserve(1) else {
                drop(record);
                return Err(Refusal::NoMemory);
            };
            records.push_reserved(record);
        }
        Ok(records)
    }
}
