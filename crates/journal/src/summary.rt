// Which bank is the current one: the complete one, of two the one of greater generation.
ghost use Rattle.std.specs.Prelude.{◌≡◌, ◌⊎◌, ◌∷◌, [], List, Option, Some, None, map, true, false, IfOk, IfErr, OnOk, IsErrOf, if◌then◌else◌};
ghost use Rattle.records.specs.Checkpoints.{is_end};
ghost use Rattle.records.specs.Inside.{begun_by};
ghost use Rattle.journal.specs.Records.{batches, current_bank, later_bank, of_current};
ghost use Rattle.journal.specs.Rest.{IsPlain};
ghost use Rattle.journal.specs.Summaries.{IsChosen, first_summary, generation_in, no_summary, summary_from, summary_step, then_summary};
ghost use Rattle.records.specs.declared.record.Record.{Record as AnyRecord};
ghost use Rattle.records.specs.Reading.{batch};

use crate::Unread;
use records::{Mark, Record, decode_batch};
use std::alloc::Global;
use tuples::Refusal;

/// What is to be known of the records of a bank.
#[derive(Clone, Copy)]
pub(crate) struct Summary {
    /// That of the checkpoint with which they begin; 0 if they begin with none.
    pub(crate) generation: u64,
    /// There is a record, and the checkpoint with which they begin has its end.
    pub(crate) is_complete: bool,
    pub(crate) is_empty: bool,
}

/// The current bank, its generation and its records.
#[derive(Drop)]
pub(crate) struct Chosen {
    pub(crate) is_b: bool,
    pub(crate) generation: u64,
    pub(crate) unread: Unread,
}

/// Whether the record begins no checkpoint: such a one is staged by nobody, `checkpoint` writes it itself.
pub fn is_plain(next: &Record) -> bool
    ensures { result ≡ true → IsPlain next.now }
{
    match next {
        Record::Checkpoint(Mark::Begins(_)) => false,
        _ => true,
    }
}

// The generation that the record begins.
fn generation_begun(next: &Record) -> Option<u64>
    ensures { result ≡ generation_in (begun_by next.now) }
{
    match next {
        Record::Checkpoint(Mark::Begins(generation)) => Some(*generation),
        _ => None,
    }
}

// Whether the record ends this generation.
fn ends(next: &Record, generation: u64) -> bool
    ensures { result ≡ is_end generation next.now }
{
    match next {
        Record::Checkpoint(Mark::Ends(ended)) => *ended == generation,
        _ => false,
    }
}

fn first_of(next: &Record) -> Summary
    ensures { result ≡ first_summary (generation_in (begun_by next.now)) }
{
    match generation_begun(next) {
        None => Summary {
            generation: 0,
            is_complete: true,
            is_empty: false,
        },
        Some(generation) => Summary {
            generation,
            is_complete: false,
            is_empty: false,
        },
    }
}

impl Summary {
    fn with(self, next: &Record) -> Summary
        ensures { result ≡ summary_step self next.now }
    {
        if self.is_empty {
            return first_of(next);
        }
        Summary {
            generation: self.generation,
            is_complete: self.is_complete || ends(next, self.generation),
            is_empty: false,
        }
    }

    fn with_all(self, records: &[Record]) -> Summary
        ensures { result ≡ summary_from self records.now }
    {
        let mut summary = self;
        for record in records {
            summary = summary.with(record);
        }
        summary
    }

    fn with_batch(self, alloc: Global, body: &[u8]) -> Result<Summary, Refusal>
        ensures ok { IfOk result (λ s. Some s ≡ then_summary self (batch body.now)) }
        ensures damaged { IsErrOf result Refusal.Damaged → batch body.now ≡ None }
        ensures err { IfErr result (λ e. (e ≡ Refusal.NoMemory) ⊎ (e ≡ Refusal.Damaged)) }
    {
        let records = decode_batch(alloc, body)?;
        Ok(self.with_all(&records))
    }
}

// Of the records of a bank, a batch of which is decoded at a time.
fn summarised(alloc: Global, bodies: &[Vec<u8>]) -> Result<Summary, Refusal>
    ensures ok { IfOk result (λ s. Some s ≡ then_summary no_summary (batches (map (λ b. b.items) bodies.now))) }
    ensures damaged { IsErrOf result Refusal.Damaged → batches (map (λ b. b.items) bodies.now) ≡ None }
    ensures err { IfErr result (λ e. (e ≡ Refusal.NoMemory) ⊎ (e ≡ Refusal.Damaged)) }
{
    let mut summary = Summary {
        generation: 0,
        is_complete: false,
        is_empty: true,
    };
    for body in bodies {
        summary = summary.with_batch(alloc, body)?;
    }
    Ok(summary)
}

// Whether bank b is the current one, if one is.
fn later(a: Summary, b: Summary) -> Option<bool>
    ensures { result ≡ later_bank a.is_complete b.is_complete (if a.is_empty then b.is_empty else false) a.generation b.generation }
{
    if a.is_complete && b.is_complete {
        if a.generation > b.generation {
            return Some(false);
        }
        if b.generation > a.generation {
            return Some(true);
        }
        return None;
    }
    if a.is_complete || b.is_complete {
        return Some(b.is_complete);
    }
    if a.is_empty && b.is_empty {
        return Some(false);
    }
    None
}

// Which of two banks is the current one; none if bank b has records that no checkpoint begins.
fn current(a: Summary, b: Summary) -> Option<bool>
    ensures { (rs ss : List AnyRecord) → a ≡ summary_from no_summary rs → b ≡ summary_from no_summary ss → result ≡ current_bank rs ss }
{
    if !b.is_empty && b.generation == 0 {
        return None;
    }
    later(a, b)
}

/// Chooses the current one of two banks; `Damaged` if neither is, or a body is no batch.
pub(crate) fn choose(
    alloc: Global,
    in_a: Vec<Vec<u8>>,
    in_b: Vec<Vec<u8>>,
) -> Result<Chosen, Refusal>
    ensures ok { IfOk result (λ c. IsChosen (map (λ b. b.items) in_a.items) (map (λ b. b.items) in_b.items) c.is_b c.generation c.unread.records) }
    ensures damaged { IsErrOf result Refusal.Damaged → of_current (batches (map (λ b. b.items) in_a.items)) (batches (map (λ b. b.items) in_b.items)) ≡ None }
    ensures err { IfErr result (λ e. (e ≡ Refusal.NoMemory) ⊎ (e ≡ Refusal.Damaged)) }
{
    let a = summarised(alloc, &in_a)?;
    let b = summarised(alloc, &in_b)?;
    let Some(is_b) = current(a, b) else {
        return Err(Refusal::Damaged);
    };
    if is_b {
        return Ok(Chosen {
            is_b,
            generation: b.generation,
            unread: Unread::new(alloc, in_b),
        });
    }
    Ok(Chosen {
        is_b,
        generation: a.generation,
        unread: Unread::new(alloc, in_a),
    })
}
