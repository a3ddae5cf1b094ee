// A flow that begins and makes its calls to its end.
ghost use Rattle.std.specs.Prelude.{◌≡◌, ◌⊎◌, None, Option, Some, IfErr, IfOk};
ghost use Rattle.cluster.specs.declared.event.What.{What as AnyWhat};
ghost use Rattle.cluster.specs.declared.event.What.TheVariants.{Ended};
ghost use Rattle.dumping.specs.Gathering.{Plays, refusal_in};
ghost use Rattle.dumping.specs.Steps.{IsLooking, LooksOn};
ghost use Rattle.scripts.specs.Going.{Goes};

use cluster::{Answer, Step, What};
use scripts::Store;
use tuples::Refusal;

fn turn<S: Store>(store: &mut S, slot: usize) -> Result<Option<What>, Refusal>
    ensures ok { IfOk result (λ told. S.takes store.old (Step.Turn slot) told store.new) }
    ensures err { IfErr result (λ e. e ≡ Refusal.NoMemory) }
    ensures looks { LooksOn S.takes store.old store.new }
{
    match store.take(Step::Turn(slot)) {
        Ok(told) => Ok(told),
        Err(_) => Err(Refusal::NoMemory),
    }
}

// The calls of the flow in the slot, one after another; what the last of them told.
fn run_out<S: Store>(store: &mut S, slot: usize) -> Result<Option<What>, Refusal>
    ensures ok { IfOk result (λ told. Goes S.takes S.nexts slot None store.old told store.new) }
    ensures err { IfErr result (λ e. e ≡ Refusal.NoMemory) }
    ensures looks { LooksOn S.takes store.old store.new }
{
    let mut told = None;
    for _ in 0..u64::MAX {
        let Some(_) = store.next(slot) else {
            return Ok(told);
        };
        told = turn(store, slot)?;
    }
    // It has made more calls than can be counted.
    Err(Refusal::NoMemory)
}

// The step is taken, and a flow that it begins makes its calls to its end; returns what was told last.
fn play<S: Store>(store: &mut S, first: Step) -> Result<Option<What>, Refusal>
    requires looking { IsLooking first }
    ensures ok { IfOk result (λ last. Plays S.takes S.nexts first store.old last store.new) }
    ensures err { IfErr result (λ e. e ≡ Refusal.NoMemory) }
    ensures looks { LooksOn S.takes store.old store.new }
{
    match store.take(first) {
        Ok(Some(What::Began(slot))) => run_out(store, slot),
        Ok(told) => Ok(told),
        Err(_) => Err(Refusal::NoMemory),
    }
}

// The answer that was told last, or why there is none.
fn answer_in(last: Option<What>) -> Result<Answer, Refusal>
    ensures ok { IfOk result (λ answer. last ≡ Some (Ended answer)) }
    ensures err { IfErr result (λ e. e ≡ refusal_in last) }
{
    match last {
        Some(What::Ended(answer)) => Ok(answer),
        Some(What::Refused(refusal)) => Err(refusal),
        // What lies beyond the numbers of places is ahead of every log.
        None => Err(Refusal::Future),
        // No flow ends so.
        Some(_) => Err(Refusal::Damaged),
    }
}

/// The step is taken, and the flow that it begins makes its calls to its end, which is an answer.
pub(crate) fn serve<S: Store>(store: &mut S, first: Step) -> Result<Answer, Refusal>
    requires looking { IsLooking first }
    ensures ok { IfOk result (λ answer. Plays S.takes S.nexts first store.old (Some (Ended answer)) store.new) }
    ensures err { IfErr result (λ e. (e ≡ Refusal.NoMemory) ⊎ ((last : Option AnyWhat) × Plays S.takes S.nexts first store.old last store.new × (e ≡ refusal_in last))) }
    ensures looks { LooksOn S.takes store.old store.new }
{
    let last = play(store, first)?;
    answer_in(last)
}
