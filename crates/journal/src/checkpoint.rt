// A checkpoint: one list of records takes the place of all that the journal has, on the other bank.
ghost use Rattle.std.specs.Prelude.{◌≡◌, ◌⊎◌, ◌↔◌, ◌≤◌, ◌<◌, ◌+◌, ◌++◌, ◌∷◌, [], List, ℕ, Some, OnOk, OnErr, IfOk, IfErr, IsErrOf, MatchOption, All, Contains, Err, length, not, true, false};
ghost use Rattle.device.specs.Device.{HasFailed, LeavesOnly};
ghost use Rattle.gated.specs.Gated.{HasList, IsAhead};
ghost use Rattle.journal.specs.Ahead.{HasOldOrNewOr, IsOldNoneOr, IsPut, IsWriting, KeepsLists, HasPointCause, LacksRoomAhead, StaysOrGains, checkpoint_of};
ghost use Rattle.gated.specs.Gated.{record_head};
ghost use Rattle.journal.specs.Records.{BankLacksRoom, HasNoRoom, HasRecords, LacksRoom, bank_records, batch_size, durable_of, LeavesEach};
ghost use Rattle.journal.specs.Sources.{record_of};
ghost use Rattle.journal.specs.Rest.{AreLed, BankHas, IsAtRest, IsPlain, bank_of};
ghost use Rattle.records.specs.Checkpoints.{generation_of};
ghost use Rattle.records.specs.Format.{Fits64, IsRecord};
ghost use Rattle.tuples.specs.Limits.{max_number as greatest_number};
ghost use Rattle.records.specs.declared.mark.Mark.TheVariants.{Begins as begins_mark, Ends as ends_mark};
ghost use Rattle.records.specs.declared.record.Record.{Record as AnyRecord};
ghost use Rattle.records.specs.declared.record.Record.TheVariants.{Checkpoint as checkpoint_record};

use crate::batch::Batch;
use crate::journal::append_batch;
use crate::{Journal, RecordRef};
use device::Device;
use gated::GatedLog;
use records::{Mark, Record};
use std::alloc::Global;
use tuples::{MAX_NUMBER, Refusal};

/// The records of a checkpoint between its begin and its end, one after another. Each is told from where it lies, so that none takes memory.
pub trait Source<'a> {
    /// Those that are left.
    ghost records: { Self → List AnyRecord };

    /// The next one, or none.
    fn next(&mut self) -> Option<RecordRef<'a>>
        ensures { MatchOption result (records self.old ≡ []) (λ r. (records self.old ≡ record_of r ∷ records self.new) × IsRecord (record_of r)) };
}

// Writes a batch ahead of the list of a log.
pub(crate) fn write_piece<D: Device>(
    log: &mut GatedLog<D>,
    piece: &mut Batch,
) -> Result<(), Refusal>
    requires some { 1 ≤ length piece.old }
    requires up { D.honest log.old.device → (D.state log.old.device).stopped ≡ false }
    ensures honest { D.honest log.old.device ↔ D.honest log.new.device }
    ensures empty { piece.new ≡ [] }
    ensures lists { D.honest log.old.device → KeepsLists D.state D.moment D.left_since log.old.device log.new.device }
    ensures up { D.honest log.old.device → OnOk result ((D.state log.new.device).stopped ≡ false) }
    ensures ok { (rs : List AnyRecord) → D.honest log.old.device → IsWriting (D.state log.old.device) log.old.end log.old.at rs
        → OnOk result (IsWriting (D.state log.new.device) log.new.end log.new.at (rs ++ piece.old)) }
    ensures ahead { OnOk result (log.new.end < log.new.at) }
    ensures end { log.new.end ≡ log.old.end }
    ensures err { IfErr result (λ e. e ≡ Refusal.Down) }
    ensures cause { OnErr result (HasFailed (D.state log.old.device) (D.state log.new.device) ⊎ LacksRoomAhead D.state D.honest log.new.device) }
    ensures counts { (D.state log.old.device).failures ≤ (D.state log.new.device).failures }
    ensures none { OnOk result ((D.state log.new.device).failures ≡ (D.state log.old.device).failures) }
{
    match piece.write_ahead_to(log) {
        Ok(()) => Ok(()),
        Err(_) => Err(Refusal::Down),
    }
}

// Begins a batch with a record, which fits.
pub(crate) fn put_first(piece: &mut Batch, next: RecordRef<'_>)
    requires spelled { IsRecord (record_of next) }
    requires empty { piece.old ≡ [] }
    ensures { piece.new ≡ record_of next.entry ∷ [] }
{
    match piece.push(next) {
        Ok(()) => {}
        Err(_) => unreachable!(),
    }
}

// Puts one record more; a batch that is full is written ahead.
fn put<D: Device>(
    log: &mut GatedLog<D>,
    piece: &mut Batch,
    next: RecordRef<'_>,
) -> Result<(), Refusal>
    requires spelled { IsRecord (record_of next) }
    requires up { D.honest log.old.device → (D.state log.old.device).stopped ≡ false }
    ensures honest { D.honest log.old.device ↔ D.honest log.new.device }
    ensures lists { D.honest log.old.device → KeepsLists D.state D.moment D.left_since log.old.device log.new.device }
    ensures up { D.honest log.old.device → OnOk result ((D.state log.new.device).stopped ≡ false) }
    ensures ok { (all : List AnyRecord) → D.honest log.old.device → IsPut (D.state log.old.device) log.old.end log.old.at piece.old all
        → OnOk result (IsPut (D.state log.new.device) log.new.end log.new.at piece.new (all ++ record_of next.entry ∷ [])) }
    ensures some { OnOk result (1 ≤ length piece.new) }
    ensures end { log.new.end ≡ log.old.end }
    ensures err { IfErr result (λ e. e ≡ Refusal.Down) }
    ensures cause { OnErr result (HasFailed (D.state log.old.device) (D.state log.new.device) ⊎ LacksRoomAhead D.state D.honest log.new.device) }
    ensures counts { (D.state log.old.device).failures ≤ (D.state log.new.device).failures }
    ensures none { OnOk result ((D.state log.new.device).failures ≡ (D.state log.old.device).failures) }
{
    match piece.push(next) {
        Ok(()) => Ok(()),
        Err(_) => {
            write_piece(log, piece)?;
            put_first(piece, next);
            Ok(())
        }
    }
}

// Puts one record more, and lets it go.
fn put_next<D: Device>(
    log: &mut GatedLog<D>,
    piece: &mut Batch,
    next: Record,
) -> Result<(), Refusal>
    requires spelled { IsRecord next }
    requires up { D.honest log.old.device → (D.state log.old.device).stopped ≡ false }
    ensures honest { D.honest log.old.device ↔ D.honest log.new.device }
    ensures lists { D.honest log.old.device → KeepsLists D.state D.moment D.left_since log.old.device log.new.device }
    ensures up { D.honest log.old.device → OnOk result ((D.state log.new.device).stopped ≡ false) }
    ensures ok { (all : List AnyRecord) → D.honest log.old.device → IsPut (D.state log.old.device) log.old.end log.old.at piece.old all
        → OnOk result (IsPut (D.state log.new.device) log.new.end log.new.at piece.new (all ++ next ∷ [])) }
    ensures some { OnOk result (1 ≤ length piece.new) }
    ensures end { log.new.end ≡ log.old.end }
    ensures err { IfErr result (λ e. e ≡ Refusal.Down) }
    ensures cause { OnErr result (HasFailed (D.state log.old.device) (D.state log.new.device) ⊎ LacksRoomAhead D.state D.honest log.new.device) }
    ensures counts { (D.state log.old.device).failures ≤ (D.state log.new.device).failures }
    ensures none { OnOk result ((D.state log.new.device).failures ≡ (D.state log.old.device).failures) }
{
    let put = put(log, piece, RecordRef::Whole(&next));
    drop(next);
    put
}

// Puts all that a source has.
fn put_all<'a, D: Device, S: Source<'a>>(
    log: &mut GatedLog<D>,
    piece: &mut Batch,
    source: &mut S,
) -> Result<(), Refusal>
    requires up { D.honest log.old.device → (D.state log.old.device).stopped ≡ false }
    ensures honest { D.honest log.old.device ↔ D.honest log.new.device }
    ensures lists { D.honest log.old.device → KeepsLists D.state D.moment D.left_since log.old.device log.new.device }
    ensures up { D.honest log.old.device → OnOk result ((D.state log.new.device).stopped ≡ false) }
    ensures ok { (all : List AnyRecord) → D.honest log.old.device → IsPut (D.state log.old.device) log.old.end log.old.at piece.old all
        → OnOk result (IsPut (D.state log.new.device) log.new.end log.new.at piece.new (all ++ S.records source.old)) }
    ensures end { log.new.end ≡ log.old.end }
    ensures err { IfErr result (λ e. e ≡ Refusal.Down) }
    ensures cause { OnErr result (HasFailed (D.state log.old.device) (D.state log.new.device) ⊎ LacksRoomAhead D.state D.honest log.new.device) }
    ensures counts { (D.state log.old.device).failures ≤ (D.state log.new.device).failures }
    ensures none { OnOk result ((D.state log.new.device).failures ≡ (D.state log.old.device).failures) }
{
    while let Some(next) = source.next() {
        put(log, piece, next)?;
    }
    Ok(())
}

// Puts the rest of a checkpoint that has begun, and writes all of it ahead.
pub(crate) fn write_rest<'a, D: Device, S: Source<'a>>(
    log: &mut GatedLog<D>,
    piece: &mut Batch,
    generation: u64,
    source: &mut S,
) -> Result<(), Refusal>
    requires up { D.honest log.old.device → (D.state log.old.device).stopped ≡ false }
    ensures honest { D.honest log.old.device ↔ D.honest log.new.device }
    ensures lists { D.honest log.old.device → KeepsLists D.state D.moment D.left_since log.old.device log.new.device }
    ensures up { D.honest log.old.device → OnOk result ((D.state log.new.device).stopped ≡ false) }
    ensures ok { (all : List AnyRecord) → D.honest log.old.device → IsPut (D.state log.old.device) log.old.end log.old.at piece.old all
        → OnOk result (IsWriting (D.state log.new.device) log.new.end log.new.at (all ++ S.records source.old ++ checkpoint_record (ends_mark generation) ∷ [])) }
    ensures ahead { OnOk result (log.new.end < log.new.at) }
    ensures err { IfErr result (λ e. e ≡ Refusal.Down) }
    ensures cause { OnErr result (HasFailed (D.state log.old.device) (D.state log.new.device) ⊎ LacksRoomAhead D.state D.honest log.new.device) }
    ensures counts { (D.state log.old.device).failures ≤ (D.state log.new.device).failures }
    ensures none { OnOk result ((D.state log.new.device).failures ≡ (D.state log.old.device).failures) }
{
    put_all(log, piece, source)?;
    put_next(log, piece, Record::Checkpoint(Mark::Ends(generation)))?;
    write_piece(log, piece)
}

// Writes a whole checkpoint ahead of the list.
fn write_all<'a, D: Device, S: Source<'a>>(
    log: &mut GatedLog<D>,
    piece: &mut Batch,
    generation: u64,
    source: &mut S,
) -> Result<(), Refusal>
    requires empty { piece.old ≡ [] }
    requires up { D.honest log.old.device → (D.state log.old.device).stopped ≡ false }
    requires none { D.honest log.old.device → IsAhead (D.state log.old.device) log.old.end log.old.at [] }
    ensures honest { D.honest log.old.device ↔ D.honest log.new.device }
    ensures lists { D.honest log.old.device → KeepsLists D.state D.moment D.left_since log.old.device log.new.device }
    ensures ok { D.honest log.old.device → OnOk result (IsWriting (D.state log.new.device) log.new.end log.new.at (checkpoint_of generation (S.records source.old))) }
    ensures ahead { OnOk result (log.new.end < log.new.at) }
    ensures err { IfErr result (λ e. e ≡ Refusal.Down) }
    ensures cause { OnErr result (HasFailed (D.state log.old.device) (D.state log.new.device) ⊎ LacksRoomAhead D.state D.honest log.new.device) }
    ensures counts { (D.state log.old.device).failures ≤ (D.state log.new.device).failures }
    ensures none { OnOk result ((D.state log.new.device).failures ≡ (D.state log.old.device).failures) }
{
    put_next(log, piece, Record::Checkpoint(Mark::Begins(generation)))?;
    write_rest(log, piece, generation, source)
}

// Empties the list of a log, and makes the checkpoint its list by one byte.
pub(crate) fn write_checkpoint<'a, D: Device, S: Source<'a>>(
    log: &mut GatedLog<D>,
    piece: &mut Batch,
    generation: u64,
    source: &mut S,
) -> Result<(), Refusal>
    requires empty { piece.old ≡ [] }
    requires up { D.honest log.old.device → (D.state log.old.device).stopped ≡ false }
    ensures honest { D.honest log.old.device ↔ D.honest log.new.device }
    ensures any_moment { (bodies : List (List ℕ)) → D.honest log.old.device → HasList (D.state log.old.device) bodies
        → LeavesOnly D.moment D.left_since log.old.device log.new.device (IsOldNoneOr bodies (checkpoint_of generation (S.records source.old))) }
    ensures ok { D.honest log.old.device → OnOk result (BankHas (D.state log.new.device) (checkpoint_of generation (S.records source.old))) }
    ensures rest { D.honest log.old.device → OnOk result (IsAtRest (D.state log.new.device)) }
    ensures err { IfErr result (λ e. e ≡ Refusal.Down) }
    ensures cause { OnErr result (HasFailed (D.state log.old.device) (D.state log.new.device) ⊎ LacksRoomAhead D.state D.honest log.new.device) }
    ensures counts { (D.state log.old.device).failures ≤ (D.state log.new.device).failures }
    ensures none { OnOk result ((D.state log.new.device).failures ≡ (D.state log.old.device).failures) }
{
    log.clear()?;
    write_all(log, piece, generation, source)?;
    log.publish()
}

// Makes durable what is staged, on one bank.
fn flush_bank<D: Device>(log: &mut GatedLog<D>, staged: &mut Batch) -> Result<(), Refusal>
    requires rest { D.honest log.old.device → IsAtRest (D.state log.old.device) }
    ensures honest { D.honest log.old.device ↔ D.honest log.new.device }
    ensures empty { staged.new ≡ [] }
    ensures rest { D.honest log.old.device → OnOk result (IsAtRest (D.state log.new.device)) }
    ensures any_moment { (durable : List AnyRecord) → D.honest log.old.device → BankHas (D.state log.old.device) durable
        → LeavesOnly D.moment D.left_since log.old.device log.new.device (λ c. (bank_records c ≡ Some durable) ⊎ (bank_records c ≡ Some (durable ++ staged.old))) }
    ensures ok { (durable : List AnyRecord) → D.honest log.old.device → BankHas (D.state log.old.device) durable → OnOk result (BankHas (D.state log.new.device) (durable ++ staged.old)) }
    ensures cause { OnErr result (HasFailed (D.state log.old.device) (D.state log.new.device) ⊎ LacksRoom D.state D.honest log.old.device log.old.end staged.old) }
    ensures counts { (D.state log.old.device).failures ≤ (D.state log.new.device).failures }
    ensures none { OnOk result ((D.state log.new.device).failures ≡ (D.state log.old.device).failures) }
    ensures end { OnOk result ((staged.old ≡ []) ⊎ (log.new.end ≡ log.old.end + batch_size staged.old + record_head)) }
    ensures moved { StaysOrGains log.old.end staged.old log.new.end }
{
    if staged.len() == 0 {
        return Ok(());
    }
    append_batch(log, staged)
}

// Makes durable what is staged on the current bank, and writes the checkpoint to the other one.
fn replace<'a, D: Device, S: Source<'a>>(
    current: &mut GatedLog<D>,
    other: &mut GatedLog<D>,
    staged: &mut Batch,
    piece: &mut Batch,
    generation: u64,
    source: &mut S,
) -> Result<(), Refusal>
    requires empty { piece.old ≡ [] }
    requires rest { D.honest current.old.device → IsAtRest (D.state current.old.device) }
    requires rest_other { D.honest other.old.device → IsAtRest (D.state other.old.device) }
    ensures honest { (D.honest current.old.device ↔ D.honest current.new.device) × (D.honest other.old.device ↔ D.honest other.new.device) }
    ensures empty { staged.new ≡ [] }
    ensures any_moment { (durable : List AnyRecord) → D.honest current.old.device → BankHas (D.state current.old.device) durable
        → LeavesOnly D.moment D.left_since current.old.device current.new.device (λ c. (bank_records c ≡ Some durable) ⊎ (bank_records c ≡ Some (durable ++ staged.old))) }
    ensures any_moment_other { (bodies : List (List ℕ)) → D.honest other.old.device → HasList (D.state other.old.device) bodies
        → LeavesOnly D.moment D.left_since other.old.device other.new.device (IsOldNoneOr bodies (checkpoint_of generation (S.records source.old))) }
    ensures has { (durable : List AnyRecord) → D.honest current.old.device → BankHas (D.state current.old.device) durable
        → OnOk result (BankHas (D.state current.new.device) (durable ++ staged.old)) }
    ensures rest { D.honest current.old.device → OnOk result (IsAtRest (D.state current.new.device)) }
    ensures ok { D.honest other.old.device → OnOk result (BankHas (D.state other.new.device) (checkpoint_of generation (S.records source.old)) × IsAtRest (D.state other.new.device)) }
    ensures err { IfErr result (λ e. e ≡ Refusal.Down) }
    ensures cause { OnErr result (HasFailed (D.state current.old.device) (D.state current.new.device) ⊎ (HasFailed (D.state other.old.device) (D.state other.new.device)
        ⊎ (LacksRoom D.state D.honest current.old.device current.old.end staged.old ⊎ LacksRoomAhead D.state D.honest other.new.device))) }
    ensures moved { StaysOrGains current.old.end staged.old current.new.end }
    ensures counts { ((D.state current.old.device).failures ≤ (D.state current.new.device).failures) × ((D.state other.old.device).failures ≤ (D.state other.new.device).failures) }
    ensures none { OnOk result (((D.state current.new.device).failures ≡ (D.state current.old.device).failures) × ((D.state other.new.device).failures ≡ (D.state other.old.device).failures)) }
{
    let Ok(()) = flush_bank(current, staged) else {
        return Err(Refusal::Down);
    };
    write_checkpoint(other, piece, generation, source)
}

// The same of two banks, of which b is the current one or not.
pub(crate) fn replace_other<'a, D: Device, S: Source<'a>>(
    a: &mut GatedLog<D>,
    b: &mut GatedLog<D>,
    is_b: bool,
    staged: &mut Batch,
    piece: &mut Batch,
    generation: u64,
    source: &mut S,
) -> Result<(), Refusal>
    requires empty { piece.old ≡ [] }
    requires plain { All IsPlain staged.old }
    requires rest_a { D.honest a.old.device → IsAtRest (D.state a.old.device) }
    requires rest_b { D.honest b.old.device → IsAtRest (D.state b.old.device) }
    ensures honest { (D.honest a.old.device ↔ D.honest a.new.device) × (D.honest b.old.device ↔ D.honest b.new.device) }
    ensures empty { staged.new ≡ [] }
    ensures any_moment { (now : ℕ) → generation ≡ now + 1 → D.honest a.old.device → D.honest b.old.device → AreLed (D.state a.old.device) (D.state b.old.device) is_b now
        → LeavesEach D.moment D.left_since a.old.device b.old.device a.new.device b.new.device
        (HasOldOrNewOr (durable_of (D.state a.old.device) (D.state b.old.device)) staged.old (checkpoint_of generation (S.records source.old))) }
    ensures ok { (now : ℕ) → generation ≡ now + 1 → D.honest a.old.device → D.honest b.old.device → AreLed (D.state a.old.device) (D.state b.old.device) is_b now
        → OnOk result (AreLed (D.state a.new.device) (D.state b.new.device) (not is_b) generation
        × (durable_of (D.state a.new.device) (D.state b.new.device) ≡ checkpoint_of generation (S.records source.old))) }
    ensures rest_a { D.honest a.old.device → OnOk result (IsAtRest (D.state a.new.device)) }
    ensures rest_b { D.honest b.old.device → OnOk result (IsAtRest (D.state b.new.device)) }
    ensures err { IfErr result (λ e. e ≡ Refusal.Down) }
    ensures cause { OnErr result (HasFailed (D.state a.old.device) (D.state a.new.device) ⊎ (HasFailed (D.state b.old.device) (D.state b.new.device)
        ⊎ (BankLacksRoom D.state D.honest a.old.device b.old.device (bank_of is_b a.old.end b.old.end) staged.old ⊎ (LacksRoomAhead D.state D.honest a.new.device ⊎ LacksRoomAhead D.state D.honest b.new.device)))) }
    ensures moved { StaysOrGains (bank_of is_b a.old.end b.old.end) staged.old (bank_of is_b a.new.end b.new.end) }
    ensures counts { ((D.state a.old.device).failures ≤ (D.state a.new.device).failures) × ((D.state b.old.device).failures ≤ (D.state b.new.device).failures) }
    ensures none { OnOk result (((D.state a.new.device).failures ≡ (D.state a.old.device).failures) × ((D.state b.new.device).failures ≡ (D.state b.old.device).failures)) }
{
    if is_b {
        replace(b, a, staged, piece, generation, source)
    } else {
        replace(a, b, staged, piece, generation, source)
    }
}

impl<D: Device> Journal<D> {
    /// Makes durable what is staged, and then one checkpoint in place of all that the journal has: a record that begins the next generation, the
    /// records of the source, and one that ends it. It stands on the other bank, which is the current one from then on. It takes the memory of
    /// one batch, before any call of a device.
    ///
    /// On the other bank each batch, of at most 1 MiB, takes one write and no sync. Two syncs follow: of all that was written, and of the byte that
    /// makes it count. If the bank had a list, it is emptied first, by one write and one sync.
    ///
    /// `Full` after the last generation, and `NoMemory`: nothing is changed. `Down`, as of a flush: the next opening finds the old records, with
    /// what was staged or without, or the checkpoint.
    pub fn checkpoint<'a, S: Source<'a>>(
        &mut self,
        alloc: Global,
        source: &mut S,
    ) -> Result<(), Refusal>
        ensures honest { (D.honest self.old.a ↔ D.honest self.new.a) × (D.honest self.old.b ↔ D.honest self.new.b) }

        // At every moment of the call a stop leaves the durable records, with all that is staged or without, or the whole checkpoint.
        ensures any_moment { D.honest self.old.a → D.honest self.old.b → self.old.is_down ≡ false → LeavesEach D.moment D.left_since self.old.a self.old.b self.new.a self.new.b
            (HasOldOrNewOr self.old.durable self.old.staged (checkpoint_of (generation_of self.old.durable + 1) (S.records source.old))) }

        // From then on each stop leaves the checkpoint.
        ensures ok { D.honest self.old.a → D.honest self.old.b → OnOk result ((self.new.durable ≡ checkpoint_of (generation_of self.old.durable + 1) (S.records source.old))
            × HasRecords (D.state self.new.a) (D.state self.new.b) self.new.durable) }
        ensures next { D.honest self.old.a → D.honest self.old.b → OnOk result (generation_of self.old.durable < greatest_number) }
        ensures up { OnOk result ((self.old.is_down ≡ false) × (self.new.is_down ≡ false) × (self.new.staged ≡ [])) }
        ensures err { IfErr result (λ e. ((e ≡ Refusal.Down) × (self.new.is_down ≡ true)) ⊎ ((self.new ≡ self.old) × ((e ≡ Refusal.NoMemory) ⊎ (e ≡ Refusal.Full)))) }
        ensures full { D.honest self.old.a → D.honest self.old.b → IsErrOf result Refusal.Full → greatest_number ≤ generation_of self.old.durable }
        ensures cause { IsErrOf result Refusal.Down → (self.old.is_down ≡ true) ⊎ HasPointCause D.state D.honest self.old self.new }
        ensures counts { ((D.state self.old.a).failures ≤ (D.state self.new.a).failures) × ((D.state self.old.b).failures ≤ (D.state self.new.b).failures) }
        ensures none { IsErrOf result Refusal.Down ⊎ (((D.state self.new.a).failures ≡ (D.state self.old.a).failures) × ((D.state self.new.b).failures ≡ (D.state self.old.b).failures)) }

        // If it is refused, the list of the current bank ends where it did, or, after `Down`, after what was staged.
        ensures moved { OnErr result (StaysOrGains self.old.end self.old.staged self.new.end) }

        // If a device failed before, no call is made, and after the last generation none either.
        ensures quiet { self.old.is_down ≡ true → (result ≡ Err Refusal.Down) × (self.new ≡ self.old) }
        ensures last { D.honest self.old.a → D.honest self.old.b → self.old.is_down ≡ false → greatest_number ≤ generation_of self.old.durable → (result ≡ Err Refusal.Full) × (self.new ≡ self.old) }
    {
        if self.is_down {
            return Err(Refusal::Down);
        }
        if self.generation >= MAX_NUMBER {
            return Err(Refusal::Full);
        }
        let Ok(mut piece) = Batch::new(alloc) else {
            return Err(Refusal::NoMemory);
        };
        let next = self.generation + 1;
        let written = replace_other(
            &mut self.a,
            &mut self.b,
            self.is_b,
            &mut self.staged,
            &mut piece,
            next,
            source,
        );
        match written {
            Ok(()) => {
                self.is_b = !self.is_b;
                self.generation = next;
                Ok(())
            }
            Err(_) => {
                self.is_down = true;
                Err(Refusal::Down)
            }
        }
    }
}
