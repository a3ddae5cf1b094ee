// The records that are staged, as the bytes of their batch.
ghost use Rattle.std.specs.Prelude.{◌≡◌, ◌≤◌, ◌<◌, ◌+◌, ◌++◌, ◌∷◌, ◌↔◌, ◌⊎◌, [], List, ℕ, Some, true, false, length, take, drop, vec_capacity, IfOk, IfErr, OnOk, OnErr};
ghost use Rattle.std.specs.Int.{w16, to_be_bytes};
ghost use Rattle.device.specs.Device.{LeavesOnly, HasFailed};
ghost use Rattle.gated.specs.Gated.{HasList, IsAhead, IsOldOrNew, body_of, gated, record_head};
ghost use Rattle.journal.specs.Records.{HasNoRoom, LacksRoom, batch_size};
ghost use Rattle.journal.specs.Lending.{Flies};
ghost use Rattle.journal.specs.Staging.{max_len, staged_in, IsSpelled};
ghost use Rattle.journal.specs.Sources.{record_of};
ghost use Rattle.records.specs.Format.{IsRecord, batch_bytes, record_bytes};
ghost use Rattle.records.specs.Reading.{batch};

use crate::{RecordRef, Sent};
use device::Device;
use gated::{GatedLog, MAX_BODY};
use records::{MAX_RECORDS, Record, VERSION};
use std::alloc::{AllocError, Global};
use std::marker::Model;
use tuples::Refusal;

/// Before the records: four bytes that the log fills itself, the version, and two bytes of the number of records.
const HEAD: usize = 7;

/// The most bytes before the last one, which the log fills itself.
pub(crate) const MAX_LEN: usize = MAX_BODY + 4;

/// More bytes than any record has. With room for them the bytes of a record that turns out too long take no memory.
const MORE_THAN_A_RECORD: usize = 1 << 16;

/// Staged records, which contracts see as their list.
#[derive(Drop)]
pub(crate) struct Batch {
    // the head, which is written last, and the records
    pub(crate) bytes: Vec<u8>,
    pub(crate) count: usize,
}

impl Model for Batch {
    ghost use Rattle.std.specs.Prelude.{List, vec_capacity};
    ghost use Rattle.records.specs.declared.record.Record.{Record as AnyRecord};
    ghost use Rattle.journal.specs.Staging.{staged_in, IsSpelled};

    ghost Value = { List AnyRecord };

    ghost view = { λ b. staged_in b.count b.bytes.items };

    ghost invariant = { λ b. IsSpelled b.bytes.items (vec_capacity b.bytes) b.count };
}

impl Batch {
    /// No records, and the memory for as many as a batch may have.
    pub(crate) fn new(alloc: Global) -> Result<Batch, AllocError>
        ensures { IfOk result (λ b. b ≡ []) }
    {
        let mut bytes = Vec::with_capacity(alloc, MAX_LEN + MORE_THAN_A_RECORD)?;
        bytes.extend_from_slice(&[0; HEAD])?;
        Ok(Batch { bytes, count: 0 })
    }

    /// How many there are.
    pub(crate) fn len(&self) -> usize
        ensures { result ≡ length self.now }
    {
        self.count
    }

    /// Adds a record, or is `Full`.
    pub(crate) fn push(&mut self, next: RecordRef<'_>) -> Result<(), Refusal>
        requires { IsRecord (record_of next) }
        ensures ok { OnOk result (self.new ≡ self.old ++ record_of next.entry ∷ []) }
        ensures room { OnOk result (HasNoRoom self.old (record_of next.entry) → ⊥) }
        ensures full { OnErr result (HasNoRoom self.old (record_of next.entry)) }
        ensures err { IfErr result (λ e. (e ≡ Refusal.Full) × (self.new ≡ self.old)) }
    {
        if self.count == MAX_RECORDS {
            return Err(Refusal::Full);
        }
        spell(next, &mut self.bytes)?;
        self.count += 1;
        Ok(())
    }

    /// Whether one record more fits. It takes no memory.
    pub(crate) fn has_room(&mut self, next: &Record) -> bool
        requires { IsRecord next.now }
        ensures same { self.new ≡ self.old }
        ensures room { result ≡ true → HasNoRoom self.old next.now → ⊥ }
        ensures full { result ≡ false → HasNoRoom self.old next.now }
    {
        let count = self.count;
        if count == MAX_RECORDS {
            return false;
        }
        let end = self.bytes.len();
        match spell(RecordRef::Whole(next), &mut self.bytes) {
            Ok(()) => {
                self.bytes.truncate(end);
                true
            }
            Err(_) => false,
        }
    }

    /// The same records as another, in the memory that this one has.
    pub(crate) fn copy(&mut self, other: &Batch)
        ensures { self.new ≡ other.now }
    {
        self.bytes.clear();
        match self.bytes.extend_from_slice(&other.bytes) {
            Ok(()) => {}
            Err(_) => unreachable!(),
        }
        self.count = other.count;
    }

    /// How many there are, and in how many bytes.
    pub(crate) fn size(&self) -> Sent
        ensures all { result.count ≡ length self.now }
        ensures sent { Flies self.now result }
    {
        Sent {
            count: self.count,
            len: self.bytes.len() - HEAD,
        }
    }

    /// Forgets the first of them.
    pub(crate) fn forget_first(&mut self, sent: Sent)
        requires { Flies self.old sent }
        ensures { self.new ≡ drop sent.count self.old }
    {
        let end = self.bytes.len();
        self.bytes.copy_within(HEAD + sent.len..end, HEAD);
        self.bytes.truncate(end - sent.len);
        self.count -= sent.count;
    }

    /// Appends them to a log as one batch. Whatever comes of it, none are staged any more.
    pub(crate) fn append_to<D: Device>(&mut self, log: &mut GatedLog<D>) -> Result<(), Refusal>
        requires some { 1 ≤ length self.old }
        requires up { D.honest log.old.device → (D.state log.old.device).stopped ≡ false }
        ensures empty { self.new ≡ [] }
        ensures read { batch (batch_bytes false self.old) ≡ Some self.old }
        ensures honest { D.honest log.old.device ↔ D.honest log.new.device }
        ensures any_moment { (bodies : List (List ℕ)) → D.honest log.old.device → HasList (D.state log.old.device) bodies → LeavesOnly D.moment D.left_since log.old.device log.new.device (IsOldOrNew bodies (batch_bytes false self.old)) }
        ensures ok { (bodies : List (List ℕ)) → D.honest log.old.device → HasList (D.state log.old.device) bodies → OnOk result (HasList (D.state log.new.device) (bodies ++ batch_bytes false self.old ∷ [])) }
        ensures up { D.honest log.old.device → OnOk result ((D.state log.new.device).stopped ≡ false) }
        ensures counts { (D.state log.old.device).failures ≤ (D.state log.new.device).failures }
        ensures none { OnOk result ((D.state log.new.device).failures ≡ (D.state log.old.device).failures) }
        ensures ahead { D.honest log.old.device → OnOk result (IsAhead (D.state log.new.device) log.new.end log.new.at []) }
        ensures end { OnOk result (log.new.end ≡ log.old.end + batch_size self.old + record_head) }
        ensures unmoved { OnErr result (log.new.end ≡ log.old.end) }
        ensures cause { OnErr result (HasFailed (D.state log.old.device) (D.state log.new.device) ⊎ LacksRoom D.state D.honest log.old.device log.old.end self.old) }
    {
        complete(&mut self.bytes, self.count);
        let result = log.append(&mut self.bytes);
        self.bytes.truncate(HEAD);
        self.count = 0;
        result
    }

    /// Writes them ahead of the list of a log as one batch. Whatever comes of it, none are left.
    pub(crate) fn write_ahead_to<D: Device>(&mut self, log: &mut GatedLog<D>) -> Result<(), Refusal>
        requires some { 1 ≤ length self.old }
        requires up { D.honest log.old.device → (D.state log.old.device).stopped ≡ false }
        ensures empty { self.new ≡ [] }
        ensures read { batch (batch_bytes false self.old) ≡ Some self.old }
        ensures honest { D.honest log.old.device ↔ D.honest log.new.device }
        ensures any_moment { (bodies : List (List ℕ)) → D.honest log.old.device → HasList (D.state log.old.device) bodies → LeavesOnly D.moment D.left_since log.old.device log.new.device (λ c. gated c ≡ Some bodies) }
        ensures list { (bodies : List (List ℕ)) → D.honest log.old.device → HasList (D.state log.old.device) bodies → HasList (D.state log.new.device) bodies }
        ensures ok { (ahead : List (List ℕ)) → D.honest log.old.device → IsAhead (D.state log.old.device) log.old.end log.old.at ahead
            → OnOk result (IsAhead (D.state log.new.device) log.new.end log.new.at (ahead ++ batch_bytes false self.old ∷ [])) }
        ensures up { D.honest log.old.device → OnOk result ((D.state log.new.device).stopped ≡ false) }
        ensures counts { (D.state log.old.device).failures ≤ (D.state log.new.device).failures }
        ensures none { OnOk result ((D.state log.new.device).failures ≡ (D.state log.old.device).failures) }
        ensures end { log.new.end ≡ log.old.end }
        ensures at { OnOk result (log.new.end < log.new.at) }
        ensures cause { OnErr result (HasFailed (D.state log.old.device) (D.state log.new.device) ⊎ LacksRoom D.state D.honest log.new.device log.new.at self.old) }
    {
        complete(&mut self.bytes, self.count);
        let result = log.write_ahead(&mut self.bytes);
        self.bytes.truncate(HEAD);
        self.count = 0;
        result
    }
}

// Adds the bytes of the record, if a batch may be so long.
fn spell(next: RecordRef<'_>, bytes: &mut Vec<u8>) -> Result<(), Refusal>
    requires spellable { IsRecord (record_of next) }
    requires fits { length bytes.old.items ≤ max_len }
    requires room { max_len + 1 ≤ vec_capacity bytes.old }
    ensures ok { OnOk result ((bytes.new.items ≡ bytes.old.items ++ record_bytes false (record_of next.entry)) × (length bytes.new.items ≤ max_len)) }
    ensures full { OnErr result (max_len < length bytes.old.items + length (record_bytes false (record_of next.entry))) }
    ensures err { IfErr result (λ e. (e ≡ Refusal.Full) × (bytes.new.items ≡ bytes.old.items)) }
    ensures capacity { vec_capacity bytes.old ≤ vec_capacity bytes.new }
{
    let end = bytes.len();
    let Ok(()) = next.encode(bytes) else {
        return Err(Refusal::Full);
    };
    if bytes.len() > MAX_LEN {
        bytes.truncate(end);
        return Err(Refusal::Full);
    }
    Ok(())
}

// Makes of the bytes of so many records what a log appends.
fn complete(bytes: &mut Vec<u8>, count: usize)
    requires { IsSpelled bytes.old.items (vec_capacity bytes.old) count }
    ensures body { body_of bytes.new.items ≡ batch_bytes false (staged_in count bytes.old.items) }
    ensures len { length bytes.new.items ≡ length bytes.old.items + 1 }
    ensures capacity { vec_capacity bytes.new ≡ vec_capacity bytes.old }
{
    write_head(bytes, count as u16);
    bytes.push_reserved(0);
}

// Writes the version and the number of records before them.
fn write_head(bytes: &mut [u8], count: u16)
    requires { 7 ≤ length bytes.old }
    ensures { bytes.new ≡ take 4 bytes.old ++ 2 ∷ to_be_bytes w16 count ++ drop 7 bytes.old }
{
    bytes[4] = VERSION;
    bytes[5..HEAD].copy_from_slice(&count.to_be_bytes());
}
