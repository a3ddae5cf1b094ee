// The first checkpoint of devices that were empty: that it begins is durable before anything of it is there.
ghost use Rattle.std.specs.Prelude.{◌≡◌, ◌⊎◌, ◌↔◌, ◌≤◌, ◌<◌, ◌∷◌, [], List, ℕ, IfErr, IfOk, Err, IsErrOf, MatchResult, OnErr, OnOk, Some, false, map, true};
ghost use Rattle.refusal.specs.Refusals.{IsOneOf};
ghost use Rattle.device.specs.Device.{HasFailed, LeavesOnly};
ghost use Rattle.gated.specs.Gated.{HasList, gated};
ghost use Rattle.journal.specs.Ahead.{LacksRoomAhead, checkpoint_of};
ghost use Rattle.journal.specs.Beginnings.{HasBegun, HasBeginsOr, HasNone, HasNoneOrBegins, HasNoneOrNeverOpens, NeverOpens, NeverOpensOr, begins};
ghost use Rattle.journal.specs.Records.{HasRecords, LeavesEach};
ghost use Rattle.journal.specs.Rest.{BankHas};

use crate::batch::Batch;
use crate::checkpoint::{put_first, write_rest};
use crate::{RecordRef, Refused, Source};
use device::Device;
use gated::GatedLog;
use records::{Mark, Record};
use std::alloc::Global;
use std::marker::Model;
use tuples::Refusal;

// That of the first checkpoint.
const FIRST: u64 = 1;

/// Two devices on which the first checkpoint has begun: each opening finds damage, until it has its end.
#[derive(Drop)]
pub struct Begun<D: Device> {
    // while it is open it has the record that begins the checkpoint
    a: GatedLog<D>,
    // it has none
    b: GatedLog<D>,
    // while it is open none
    piece: Batch,
    // whether its end was not tried yet
    is_open: bool,
}

impl<D: Device> Model for Begun<D> {
    ghost use Rattle.std.specs.Prelude.{◌≡◌, [], true};
    ghost use Rattle.gated.specs.Gated.{HasList};
    ghost use Rattle.journal.specs.Beginnings.{BegunView, HasBegun};

    ghost Value = { BegunView D };

    ghost view = { λ c. record { a = c.a.device; b = c.b.device; is_open = c.is_open } };

    ghost invariant = { λ c. c.is_open ≡ true → (c.piece ≡ []) × (D.honest c.a.device → HasBegun (D.state c.a.device) c.a.end c.a.at) × (D.honest c.b.device → HasList (D.state c.b.device) []) };
}

// Begins a batch with a record that fits, and lets it go.
fn put_begin(piece: &mut Batch, next: Record)
    requires is { next ≡ begins }
    requires empty { piece.old ≡ [] }
    ensures { piece.new ≡ begins ∷ [] }
{
    put_first(piece, RecordRef::Whole(&next));
    drop(next);
}

// Makes the record that begins the checkpoint durable.
fn append_begin<D: Device>(log: &mut GatedLog<D>, piece: &mut Batch) -> Result<(), Refusal>
    requires begins { piece.old ≡ begins ∷ [] }
    requires up { D.honest log.old.device → (D.state log.old.device).stopped ≡ false }
    ensures honest { D.honest log.old.device ↔ D.honest log.new.device }
    ensures empty { piece.new ≡ [] }
    ensures begun { D.honest log.old.device → HasList (D.state log.old.device) [] → OnOk result (HasBegun (D.state log.new.device) log.new.end log.new.at) }
    ensures any_moment { D.honest log.old.device → HasList (D.state log.old.device) [] → LeavesOnly D.moment D.left_since log.old.device log.new.device HasNoneOrBegins }
    ensures err { IfErr result (λ e. e ≡ Refusal.Down) }
    ensures cause { OnErr result (HasFailed (D.state log.old.device) (D.state log.new.device) ⊎ LacksRoomAhead D.state D.honest log.old.device) }
    ensures counts { (D.state log.old.device).failures ≤ (D.state log.new.device).failures }
    ensures none { OnOk result ((D.state log.new.device).failures ≡ (D.state log.old.device).failures) }
{
    match piece.append_to(log) {
        Ok(()) => Ok(()),
        Err(_) => Err(Refusal::Down),
    }
}

// Begins the checkpoint on bank a, if neither bank has a record. It reserves the memory for a whole batch.
fn begin_in<D: Device>(
    alloc: Global,
    log: &mut GatedLog<D>,
    in_a: Vec<Vec<u8>>,
    in_b: Vec<Vec<u8>>,
) -> Result<Batch, Refusal>
    requires up { D.honest log.old.device → (D.state log.old.device).stopped ≡ false }
    ensures honest { D.honest log.old.device ↔ D.honest log.new.device }
    ensures empty { IfOk result (λ piece. (piece ≡ []) × (map (λ b. b.items) in_a.items ≡ []) × (map (λ b. b.items) in_b.items ≡ [])) }
    ensures begun { D.honest log.old.device → HasList (D.state log.old.device) [] → OnOk result (HasBegun (D.state log.new.device) log.new.end log.new.at) }
    ensures any_moment { D.honest log.old.device → HasList (D.state log.old.device) [] → LeavesOnly D.moment D.left_since log.old.device log.new.device HasNoneOrBegins }
    ensures err { IfErr result (λ e. IsOneOf e (Refusal.Down ∷ Refusal.NoMemory ∷ Refusal.Damaged ∷ [])) }
    ensures damaged { IsErrOf result Refusal.Damaged → (map (λ b. b.items) in_a.items ≡ []) → (map (λ b. b.items) in_b.items ≡ []) → ⊥ }
    ensures down { IsErrOf result Refusal.Down → HasFailed (D.state log.old.device) (D.state log.new.device) ⊎ LacksRoomAhead D.state D.honest log.old.device }
    ensures counts { (D.state log.old.device).failures ≤ (D.state log.new.device).failures }
    ensures none { IsErrOf result Refusal.Down ⊎ ((D.state log.new.device).failures ≡ (D.state log.old.device).failures) }
{
    if !in_a.is_empty() || !in_b.is_empty() {
        return Err(Refusal::Damaged);
    }
    let Ok(mut piece) = Batch::new(alloc) else {
        return Err(Refusal::NoMemory);
    };
    put_begin(&mut piece, Record::Checkpoint(Mark::Begins(FIRST)));
    match append_begin(log, &mut piece) {
        Ok(()) => Ok(piece),
        Err(refusal) => Err(refusal),
    }
}

// Writes the rest of the checkpoint ahead of the record that begins it, and makes all of it count by one byte.
fn finish_in<'a, D: Device, S: Source<'a>>(
    log: &mut GatedLog<D>,
    piece: &mut Batch,
    source: &mut S,
) -> Result<(), Refusal>
    requires empty { piece.old ≡ [] }
    requires begun { D.honest log.old.device → HasBegun (D.state log.old.device) log.old.end log.old.at }
    ensures honest { D.honest log.old.device ↔ D.honest log.new.device }
    ensures any_moment { D.honest log.old.device → LeavesOnly D.moment D.left_since log.old.device log.new.device (HasBeginsOr (checkpoint_of 1 (S.records source.old))) }
    ensures ok { D.honest log.old.device → OnOk result (BankHas (D.state log.new.device) (checkpoint_of 1 (S.records source.old))) }
    ensures err { IfErr result (λ e. e ≡ Refusal.Down) }
    ensures cause { OnErr result (HasFailed (D.state log.old.device) (D.state log.new.device) ⊎ LacksRoomAhead D.state D.honest log.new.device) }
    ensures counts { (D.state log.old.device).failures ≤ (D.state log.new.device).failures }
    ensures none { OnOk result ((D.state log.new.device).failures ≡ (D.state log.old.device).failures) }
{
    write_rest(log, piece, FIRST, source)?;
    log.publish()
}

impl<D: Device> Begun<D> {
    /// Begins the first checkpoint of two devices that have no record, on bank a, and makes that durable. It reserves the memory for a whole batch.
    ///
    /// Each refusal gives the devices back: `Down` if a call of a device failed, `NoMemory`, and `Damaged` if a bank has a record, or no list of
    /// batches.
    pub fn begin(alloc: Global, a: D, b: D) -> Result<Begun<D>, Refused<D>>
        ensures honest { MatchResult result (λ r. (D.honest a ↔ D.honest r.a) × (D.honest b ↔ D.honest r.b)) (λ e. (D.honest a ↔ D.honest e.a) × (D.honest b ↔ D.honest e.b)) }

        // From then on no stop leaves what an opening takes.
        ensures ok { D.honest a → D.honest b → IfOk result (λ r. NeverOpens (D.state r.a) (D.state r.b)) }

        // At every moment of the call a stop leaves no record, or what no opening takes.
        ensures any_moment { D.honest a → D.honest b → HasList (D.state a) [] → HasList (D.state b) [] → MatchResult result
            (λ r. LeavesEach D.moment D.left_since a b r.a r.b HasNoneOrNeverOpens) (λ e. LeavesEach D.moment D.left_since a b e.a e.b HasNoneOrNeverOpens) }
        ensures moments { D.honest a → D.honest b → HasList (D.state a) [] → HasList (D.state b) [] → MatchResult result
            (λ r. LeavesOnly D.moment D.left_since a r.a HasNoneOrBegins × LeavesOnly D.moment D.left_since b r.b HasNone)
            (λ e. LeavesOnly D.moment D.left_since a e.a HasNoneOrBegins × LeavesOnly D.moment D.left_since b e.b HasNone) }
        ensures open { IfOk result (λ r. r.is_open ≡ true) }
        ensures err { IfErr result (λ e. IsOneOf e.refusal (Refusal.Down ∷ Refusal.NoMemory ∷ Refusal.Damaged ∷ [])) }

        // Not if both read as devices without a record, as those without a byte do.
        ensures damaged { D.honest a → D.honest b → IfErr result (λ e. e.refusal ≡ Refusal.Damaged → gated (D.state a).seen ≡ Some [] → gated (D.state b).seen ≡ Some [] → ⊥) }
        ensures counts { MatchResult result (λ r. ((D.state a).failures ≤ (D.state r.a).failures) × ((D.state b).failures ≤ (D.state r.b).failures))
            (λ e. ((D.state a).failures ≤ (D.state e.a).failures) × ((D.state b).failures ≤ (D.state e.b).failures)) }
    {
        let (mut a, in_a) = match GatedLog::open(alloc, a) {
            Ok(opened) => opened,
            Err((refusal, a)) => return Err(Refused { refusal, a, b }),
        };
        let (b, in_b) = match GatedLog::open(alloc, b) {
            Ok(opened) => opened,
            Err((refusal, b)) => {
                return Err(Refused {
                    refusal,
                    a: a.into_device(),
                    b,
                });
            }
        };
        match begin_in(alloc, &mut a, in_a, in_b) {
            Ok(piece) => Ok(Begun {
                a,
                b,
                piece,
                is_open: true,
            }),
            Err(refusal) => Err(Refused {
                refusal,
                a: a.into_device(),
                b: b.into_device(),
            }),
        }
    }

    /// Ends the checkpoint after the records of the source: from then on the devices have it, and nothing else. Its end is tried once. `Down`: the devices
    /// have it or are damaged. It takes no memory.
    pub fn finish<'a, S: Source<'a>>(&mut self, source: &mut S) -> Result<(), Refusal>
        ensures honest { (D.honest self.old.a ↔ D.honest self.new.a) × (D.honest self.old.b ↔ D.honest self.new.b) }
        ensures ok { D.honest self.old.a → D.honest self.old.b → OnOk result (HasRecords (D.state self.new.a) (D.state self.new.b) (checkpoint_of 1 (S.records source.old))) }

        // At every moment of the call a stop leaves what no opening takes, or the whole checkpoint.
        ensures any_moment { self.old.is_open ≡ true → D.honest self.old.a → D.honest self.old.b
            → LeavesEach D.moment D.left_since self.old.a self.old.b self.new.a self.new.b (NeverOpensOr (checkpoint_of 1 (S.records source.old))) }
        ensures moments { self.old.is_open ≡ true → D.honest self.old.a → LeavesOnly D.moment D.left_since self.old.a self.new.a (HasBeginsOr (checkpoint_of 1 (S.records source.old))) }
        ensures same { self.new.b ≡ self.old.b }
        ensures closed { self.new.is_open ≡ false }
        ensures was_open { OnOk result (self.old.is_open ≡ true) }
        ensures quiet { self.old.is_open ≡ false → (result ≡ Err Refusal.Down) × (self.new ≡ self.old) }
        ensures err { IfErr result (λ e. e ≡ Refusal.Down) }
        ensures cause { OnErr result ((self.old.is_open ≡ false) ⊎ (HasFailed (D.state self.old.a) (D.state self.new.a) ⊎ LacksRoomAhead D.state D.honest self.new.a)) }
        ensures counts { ((D.state self.old.a).failures ≤ (D.state self.new.a).failures) × ((D.state self.old.b).failures ≤ (D.state self.new.b).failures) }
    {
        if !self.is_open {
            return Err(Refusal::Down);
        }
        self.is_open = false;
        finish_in(&mut self.a, &mut self.piece, source)
    }

    /// Gives the devices back.
    pub fn into_devices(self) -> (D, D)
        ensures { (result.0 ≡ self.a) × (result.1 ≡ self.b) }
    {
        let Begun {
            a,
            b,
            piece: _,
            is_open: _,
        } = self;
        (a.into_device(), b.into_device())
    }
}
