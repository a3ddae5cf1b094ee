// Opening a journal: its batches are found, and read one after the other.
ghost use Rattle.std.specs.Prelude.{◌≡◌, ◌⊎◌, ◌↔◌, ◌≤◌, ◌<◌, [], List, Some, None, IfOk, IfErr, IsErr, IsErrOf, MatchResult, length, map, true, false, ◌∷◌};
ghost use Rattle.refusal.specs.Refusals.{IsOneOf};
ghost use Rattle.device.specs.Device.{HasFailed};
ghost use Rattle.journal.specs.Records.{IsOpened, LeavesBoth, WasLeftOrFound, batches, found, of_current};
ghost use Rattle.journal.specs.Summaries.{IsChosen};
ghost use Rattle.journal.specs.Unread.{journal_of};
ghost use Rattle.records.specs.declared.record.Record.{Record as AnyRecord};

use crate::batch::Batch;
use crate::summary::{Chosen, choose};
use crate::{Journal, Refused, Unread};
use device::Device;
use gated::GatedLog;
use records::Record;
use std::alloc::Global;
use std::marker::Model;
use tuples::Refusal;

/// Two devices whose batches were found. They are a journal once each batch was read.
#[derive(Drop)]
pub struct Opening<D: Device> {
    a: GatedLog<D>,
    b: GatedLog<D>,
    // whether bank b is the current one
    is_b: bool,
    // that of the current bank
    generation: u64,
    // none
    staged: Batch,
}

impl<D: Device> Model for Opening<D> {
    ghost use Rattle.std.specs.Prelude.{◌≡◌, []};
    ghost use Rattle.journal.specs.Records.{found};
    ghost use Rattle.journal.specs.Rest.{AreLed, IsAtRest, bank_of};
    ghost use Rattle.journal.specs.Unread.{OpeningView};

    ghost Value = { OpeningView D };

    ghost view = { λ o. record { a = o.a.device; b = o.b.device; end = bank_of o.is_b o.a.end o.b.end; records = found (D.state o.a.device).durable (D.state o.b.device).durable } };

    ghost invariant = { λ o. (o.staged ≡ []) × (D.honest o.a.device → IsAtRest (D.state o.a.device)) × (D.honest o.b.device → IsAtRest (D.state o.b.device))
        × (D.honest o.a.device → D.honest o.b.device → AreLed (D.state o.a.device) (D.state o.b.device) o.is_b o.generation) };
}

// The memory of a batch, and the current one of two banks.
fn chosen(alloc: Global, in_a: Vec<Vec<u8>>, in_b: Vec<Vec<u8>>) -> Result<(Batch, Chosen), Refusal>
    ensures ok { IfOk result (λ r. (r.0 ≡ []) × IsChosen (map (λ b. b.items) in_a.items) (map (λ b. b.items) in_b.items) r.1.is_b r.1.generation r.1.unread.records) }
    ensures damaged { IsErrOf result Refusal.Damaged → of_current (batches (map (λ b. b.items) in_a.items)) (batches (map (λ b. b.items) in_b.items)) ≡ None }
    ensures err { IfErr result (λ e. (e ≡ Refusal.NoMemory) ⊎ (e ≡ Refusal.Damaged)) }
{
    let Ok(staged) = Batch::new(alloc) else {
        return Err(Refusal::NoMemory);
    };
    let chosen = choose(alloc, in_a, in_b)?;
    Ok((staged, chosen))
}

impl<D: Device> Opening<D> {
    /// Finds the records of two devices, of which none is read yet. It reserves the memory for a whole batch.
    ///
    /// Each refusal gives the devices back: `Down` if a call of a device failed, `NoMemory`, and `Damaged` if a bank has no list
    /// of batches, or none is current. Both banks are read whole; the records are those of the current one.
    pub fn find(alloc: Global, a: D, b: D) -> Result<(Opening<D>, Unread), Refused<D>>
        ensures honest { MatchResult result (λ r. (D.honest a ↔ D.honest r.0.a) × (D.honest b ↔ D.honest r.0.b)) (λ e. (D.honest a ↔ D.honest e.a) × (D.honest b ↔ D.honest e.b)) }

        // Exactly the records that the devices have, if each batch is one.
        ensures ok { D.honest a → D.honest b → IfOk result (λ r. (found (D.state a).seen (D.state b).seen ≡ r.1.records) × (r.0.records ≡ r.1.records)) }
        ensures opened { D.honest a → D.honest b → IfOk result (λ r. (rs : List AnyRecord) → r.1.records ≡ Some rs → IsOpened D.state a b rs (journal_of r.0)) }
        ensures damaged { D.honest a → D.honest b → IfErr result (λ e. e.refusal ≡ Refusal.Damaged → found (D.state a).seen (D.state b).seen ≡ None) }
        ensures down { IfErr result (λ e. e.refusal ≡ Refusal.Down → HasFailed (D.state a) (D.state e.a) ⊎ HasFailed (D.state b) (D.state e.b)) }
        ensures err { IfErr result (λ e. IsOneOf e.refusal (Refusal.Down ∷ Refusal.NoMemory ∷ Refusal.Damaged ∷ [])) }
        ensures stopped { ((D.state a).stopped ≡ true) ⊎ ((D.state b).stopped ≡ true) → IsErr result }
        ensures counts_a { MatchResult result (λ r. (D.state a).failures ≤ (D.state r.0.a).failures) (λ e. (D.state a).failures ≤ (D.state e.a).failures) }
        ensures counts_b { MatchResult result (λ r. (D.state b).failures ≤ (D.state r.0.b).failures) (λ e. (D.state b).failures ≤ (D.state e.b).failures) }
        ensures none { MatchResult result (λ r. ((D.state r.0.a).failures ≡ (D.state a).failures) × ((D.state r.0.b).failures ≡ (D.state b).failures))
            (λ e. (e.refusal ≡ Refusal.Down) ⊎ (((D.state e.a).failures ≡ (D.state a).failures) × ((D.state e.b).failures ≡ (D.state b).failures))) }
        ensures end { D.honest a → D.honest b → IfOk result (λ r. (r.0.end < length (D.state r.0.a).seen) ⊎ (r.0.end < length (D.state r.0.b).seen)) }

        // At every moment of the call a stop leaves what it could leave before, or the records found.
        ensures any_moment { D.honest a → D.honest b → MatchResult result
            (λ r. LeavesBoth D.moment D.left_since a b r.0.a r.0.b (WasLeftOrFound (D.state a) (D.state b)))
            (λ e. LeavesBoth D.moment D.left_since a b e.a e.b (WasLeftOrFound (D.state a) (D.state b))) }
    {
        let (a, in_a) = match GatedLog::open(alloc, a) {
            Ok(opened) => opened,
            Err((refusal, a)) => return Err(Refused { refusal, a, b }),
        };
        let (b, in_b) = match GatedLog::open(alloc, b) {
            Ok(opened) => opened,
            Err((refusal, b)) => {
                return Err(Refused {
                    refusal,
                    a: a.into_device(),
                    b,
                });
            }
        };
        match chosen(alloc, in_a, in_b) {
            Ok((staged, chosen)) => {
                let opening = Opening {
                    a,
                    b,
                    is_b: chosen.is_b,
                    generation: chosen.generation,
                    staged,
                };
                Ok((opening, chosen.unread))
            }
            Err(refusal) => Err(Refused {
                refusal,
                a: a.into_device(),
                b: b.into_device(),
            }),
        }
    }

    /// The journal of the two devices, whose records were found and read.
    pub fn into_journal(self) -> Journal<D>
        requires { D.honest self.a → D.honest self.b → (rs : List AnyRecord) × (self.records ≡ Some rs) }
        ensures { result ≡ journal_of self }
    {
        let Opening {
            a,
            b,
            is_b,
            generation,
            staged,
        } = self;
        Journal::new(a, b, is_b, generation, staged)
    }

    /// Gives the devices back, with a refusal.
    pub fn refuse(self, refusal: Refusal) -> Refused<D>
        ensures refusal { result.refusal ≡ refusal }
        ensures devices { (result.a ≡ self.a) × (result.b ≡ self.b) }
    {
        let Opening {
            a,
            b,
            is_b: _,
            generation: _,
            staged: _,
        } = self;
        Refused {
            refusal,
            a: a.into_device(),
            b: b.into_device(),
        }
    }
}

impl<D: Device> Journal<D> {
    /// Opens the journal of two devices, with the records found, oldest first. It reserves the memory for a whole batch.
    ///
    /// Each refusal gives the devices back: `Down` if a call of a device failed, `NoMemory`, and `Damaged` if the devices
    /// have no records.
    pub fn open(alloc: Global, a: D, b: D) -> Result<(Journal<D>, Vec<Record>), Refused<D>>
        ensures honest { MatchResult result (λ r. (D.honest a ↔ D.honest r.0.a) × (D.honest b ↔ D.honest r.0.b)) (λ e. (D.honest a ↔ D.honest e.a) × (D.honest b ↔ D.honest e.b)) }

        // Exactly the records that the devices have.
        ensures ok { D.honest a → D.honest b → IfOk result (λ r. IsOpened D.state a b r.1.items r.0) }
        ensures fresh { IfOk result (λ r. (r.0.staged ≡ []) × (r.0.is_down ≡ false)) }
        ensures damaged { D.honest a → D.honest b → IfErr result (λ e. e.refusal ≡ Refusal.Damaged → found (D.state a).seen (D.state b).seen ≡ None) }
        ensures down { IfErr result (λ e. e.refusal ≡ Refusal.Down → HasFailed (D.state a) (D.state e.a) ⊎ HasFailed (D.state b) (D.state e.b)) }
        ensures err { IfErr result (λ e. IsOneOf e.refusal (Refusal.Down ∷ Refusal.NoMemory ∷ Refusal.Damaged ∷ [])) }
        ensures stopped { ((D.state a).stopped ≡ true) ⊎ ((D.state b).stopped ≡ true) → IsErr result }
        ensures counts_a { MatchResult result (λ r. (D.state a).failures ≤ (D.state r.0.a).failures) (λ e. (D.state a).failures ≤ (D.state e.a).failures) }
        ensures counts_b { MatchResult result (λ r. (D.state b).failures ≤ (D.state r.0.b).failures) (λ e. (D.state b).failures ≤ (D.state e.b).failures) }
        ensures none { MatchResult result (λ r. ((D.state r.0.a).failures ≡ (D.state a).failures) × ((D.state r.0.b).failures ≡ (D.state b).failures))
            (λ e. (e.refusal ≡ Refusal.Down) ⊎ (((D.state e.a).failures ≡ (D.state a).failures) × ((D.state e.b).failures ≡ (D.state b).failures))) }
        ensures end { D.honest a → D.honest b → IfOk result (λ r. (r.0.end < length (D.state r.0.a).seen) ⊎ (r.0.end < length (D.state r.0.b).seen)) }

        // At every moment of the call a stop leaves what it could leave before, or the records found.
        ensures any_moment { D.honest a → D.honest b → MatchResult result
            (λ r. LeavesBoth D.moment D.left_since a b r.0.a r.0.b (WasLeftOrFound (D.state a) (D.state b)))
            (λ e. LeavesBoth D.moment D.left_since a b e.a e.b (WasLeftOrFound (D.state a) (D.state b))) }
    {
        let (opening, unread) = match Opening::find(alloc, a, b) {
            Ok(found) => found,
            Err(refused) => return Err(refused),
        };
        match unread.read_all(alloc) {
            Ok(records) => Ok((opening.into_journal(), records)),
            Err(refusal) => Err(opening.refuse(refusal)),
        }
    }
}
