// Whether a record fits that was not made yet.
ghost use Rattle.std.specs.Prelude.{◌≡◌, true, false, length};
ghost use Rattle.journal.specs.Records.{HasNoRoom};
ghost use Rattle.records.specs.declared.record.Record.{Record as AnyRecord};
ghost use Rattle.records.specs.Format.{record_bytes};

use crate::Journal;
use crate::batch::{Batch, MAX_LEN};
use device::Device;
use records::MAX_RECORDS;

impl Batch {
    /// Whether one record of so many bytes more fits.
    pub(crate) fn has_room_for(&self, bytes: usize) -> bool
        ensures room { (r : AnyRecord) → length (record_bytes false r) ≡ bytes → result ≡ true → HasNoRoom self.now r → ⊥ }
        ensures full { (r : AnyRecord) → length (record_bytes false r) ≡ bytes → result ≡ false → HasNoRoom self.now r }
    {
        let count = self.count;
        if count == MAX_RECORDS {
            return false;
        }
        bytes <= MAX_LEN - self.bytes.len()
    }
}

impl<D: Device> Journal<D> {
    /// Whether one record of so many bytes more fits into what is staged.
    pub fn has_room_for(&self, bytes: usize) -> bool
        ensures room { (r : AnyRecord) → length (record_bytes false r) ≡ bytes → result ≡ true → HasNoRoom self.now.staged r → ⊥ }
        ensures full { (r : AnyRecord) → length (record_bytes false r) ≡ bytes → result ≡ false → HasNoRoom self.now.staged r }
    {
        self.staged.has_room_for(bytes)
    }
}
