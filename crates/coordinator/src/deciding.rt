// Deciding an open write.
ghost use Rattle.std.specs.Prelude.{ℕ, ◌≡◌, ◌⊎◌, ◌↔◌, ◌≤◌, ◌<◌, ◌+◌, ◌++◌, ◌∷◌, [], true, length, Some, None, Contains, IfOk, IfErr, OnErr, OnOk, IsErr};
ghost use Rattle.journal.specs.Records.{HasNoRoom};
ghost use Rattle.ledger.specs.Ledgers.{IsOther};
ghost use Rattle.records.specs.declared.record.Record.TheVariants.{Decision as decision_record};
ghost use Rattle.records.specs.Replays.{greatest_number};
ghost use Rattle.tuples.specs.declared.entry.Entry.{Entry as AnyEntry};
ghost use Rattle.decisions.specs.Values.{IsIntent};
ghost use Rattle.decisions.specs.Coordinators.{DecidesAt, HasNoPlace, HaveVoted, IsDecidedAbove, IsRunning};

use crate::Coordinator;
use crate::decided::{Decided, NotDecided, leave_votes};
use crate::open_writes::close;
use crate::staging::stage_fitting;
use decisions::{Intent, Vote};
use device::Device;
use journal::Journal;
use ledger::Ledger;
use records::{Record, decision_len};
use tuples::{Entry, MAX_NUMBER, Refusal};

// Takes the room for the decision of a write: in the batch, at a place and in memory. Nothing has changed after a refusal.
fn make_room<D: Device>(
    journal: &Journal<D>,
    ledger: &mut Ledger,
    write: &Entry,
) -> Result<u64, Refusal>
    requires whole { IsIntent write.now }
    requires settled { ledger.old.awaited ≡ None }
    requires new { IsOther write.now.id ledger.old.log }
    ensures place { IfOk result (λ place. (place ≡ ledger.old.base + length ledger.old.log + 1) × (place ≤ greatest_number)) }
    ensures room { IfOk result (λ place. HasNoRoom journal.now.staged (decision_record place write.now) → ⊥) }
    ensures ledger { OnOk result (ledger.new ≡ record ledger.old { awaited = Some write.now.id }) }
    ensures err { IfErr result (λ e. (ledger.new ≡ ledger.old)
        × (((e ≡ Refusal.Full) × (HasNoRoom journal.now.staged (decision_record (ledger.old.base + length ledger.old.log + 1) write.now) ⊎ (greatest_number ≤ ledger.old.base + length ledger.old.log)))
        ⊎ ((e ≡ Refusal.NoMemory) × ((HasNoRoom journal.now.staged (decision_record (ledger.old.base + length ledger.old.log + 1) write.now) ⊎ (greatest_number ≤ ledger.old.base + length ledger.old.log)) → ⊥)))) }
{
    let end = ledger.end();
    if end >= MAX_NUMBER {
        return Err(Refusal::Full);
    }
    if !journal.has_room_for(decision_len(write)) {
        return Err(Refusal::Full);
    }
    ledger.reserve(write.id)?;
    Ok(end + 1)
}

// The write that a record decides.
fn decided_entry(found: Record) -> Option<Entry>
    ensures { (place : ℕ) (w : AnyEntry) → found ≡ decision_record place w → result ≡ Some w }
{
    match found {
        Record::Decision { place: _, entry } => Some(entry),
        other => {
            drop(other);
            None
        }
    }
}

// Stages the decision of a write for which there is room, and lists it.
fn list<D: Device>(journal: &mut Journal<D>, ledger: &mut Ledger, place: u64, entry: Entry)
    requires whole { IsIntent entry }
    requires awaited { ledger.old.awaited ≡ Some entry.id }
    requires room { HasNoRoom journal.old.staged (decision_record place entry) → ⊥ }
    ensures staged { journal.new ≡ record journal.old { staged = journal.old.staged ++ decision_record place entry ∷ [] } }
    ensures listed { ledger.new ≡ record ledger.old { log = ledger.old.log ++ entry ∷ []; awaited = None } }
{
    let next = Record::Decision { place, entry };
    stage_fitting(journal, &next);
    if let Some(entry) = decided_entry(next) {
        ledger.push_reserved(entry);
    }
}

// A refusal that spends the intent.
fn spent(refusal: Refusal, intent: Intent, votes: Vec<Vote>) -> NotDecided
    ensures { (result.refusal ≡ refusal) × (result.intent ≡ None) × (result.votes.items ≡ votes.items) }
{
    intent.leave();
    NotDecided {
        refusal,
        intent: None,
        votes,
    }
}

impl<D: Device> Coordinator<D> {
    /// Decides an open write, at the next place, by one vote of each shard that takes part in it. The decision is staged: it is no promise
    /// before a flush. Several can be staged and flushed together.
    ///
    /// Nothing has changed after a refusal; they are tested in this order: `Down`, `Aborted` if the write is not open (or its id is one
    /// of another write, which no coordinator of this store gave), `Full` if the batch or the log is, `NoMemory`. The votes come back,
    /// and the intent after the last two.
    pub fn decide(&mut self, intent: Intent, votes: Vec<Vote>) -> Result<Decided, NotDecided>
        requires voted { HaveVoted self.old.me.shards intent.write votes.items }
        ensures ok { IsRunning D.state D.honest self.old → IfOk result (λ d. DecidesAt self.old intent.write d self.new × IsRunning D.state D.honest self.new) }
        ensures down { IfErr result (λ e. (e.refusal ≡ Refusal.Down) ↔ (self.old.is_down ≡ true)) }
        ensures aborted { IsRunning D.state D.honest self.old → IfErr result (λ e. (e.refusal ≡ Refusal.Aborted) ↔ ((Contains self.old.open_ids intent.write.id → ⊥) ⊎ IsDecidedAbove self.old intent.write.id)) }
        ensures full { IsRunning D.state D.honest self.old → IfErr result (λ e. e.refusal ≡ Refusal.Full → HasNoPlace self.old intent.write) }
        ensures memory { IsRunning D.state D.honest self.old → IfErr result (λ e. e.refusal ≡ Refusal.NoMemory → HasNoPlace self.old intent.write → ⊥) }
        ensures same { OnErr result (self.new ≡ self.old) }
        ensures votes { IfErr result (λ e. e.votes.items ≡ votes.items) }
        ensures spent { IfErr result (λ e. ((e.refusal ≡ Refusal.Down) ⊎ (e.refusal ≡ Refusal.Aborted)) × (e.intent ≡ None) ⊎ (((e.refusal ≡ Refusal.Full) ⊎ (e.refusal ≡ Refusal.NoMemory)) × (e.intent ≡ Some intent))) }
        ensures up { self.old.is_down ≡ true → IsErr result }
    {
        if self.journal.is_down() {
            return Err(spent(Refusal::Down, intent, votes));
        }
        let id = intent.id();
        if !self.is_open(id) {
            return Err(spent(Refusal::Aborted, intent, votes));
        }
        if self.ledger.contains(id) {
            return Err(spent(Refusal::Aborted, intent, votes));
        }
        match make_room(&self.journal, &mut self.ledger, intent.entry()) {
            Ok(place) => {
                close(&mut self.open_numbers, self.epoch, id);
                list(
                    &mut self.journal,
                    &mut self.ledger,
                    place,
                    intent.into_entry(),
                );
                leave_votes(votes);
                Ok(Decided {
                    place,
                    epoch: self.epoch,
                })
            }
            Err(refusal) => Err(NotDecided {
                refusal,
                intent: Some(intent),
                votes,
            }),
        }
    }
}
