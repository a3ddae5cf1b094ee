// A care of a node of the old store, from its beginning to its end.
ghost use Rattle.std.specs.Prelude.{◌≡◌, ◌⊎◌, ◌↔◌, IfErr, IsTrue, MatchResult, OnOk, Option, Some};
ghost use Rattle.cluster.specs.Begun.{MayCare};
ghost use Rattle.cluster.specs.Steps.{Takes};
ghost use Rattle.cluster.specs.declared.event.What.{What as AnyWhat};
ghost use Rattle.reshard.specs.Caring.{HoldsCare, IsOfClosing, Serves};
ghost use Rattle.reshard.specs.Refusing.{BeginsNot, ComesTo, Plays, RefusesCare, TellsBeginning};

use cluster::{Step, What, World};
use device::Device;
use names::{CallName, Care};
use tuples::Refusal;

// What a flow has come to that told this; None if it goes on.
fn outcome_of(told: Option<What>) -> Option<Result<(), Refusal>>
    ensures { ComesTo told result }
{
    let outcome = match &told {
        Some(What::Ended(_)) => Some(Ok(())),
        Some(What::Refused(refusal)) => Some(Err(*refusal)),
        Some(What::Began(_) | What::Next(_) | What::Up) | None => None,
    };
    drop(told);
    outcome
}

// The flow in the slot makes its turn. What it has come to; None if it goes on.
fn turn<D: Device>(world: &mut World<D>, slot: usize) -> Option<Result<(), Refusal>>
    ensures { (told : Option AnyWhat) × Takes D.state D.honest D.moment D.left_since world.old (Step.Turn slot) told world.new × ComesTo told result }
{
    let step = Step::Turn(slot);
    let told = world.take(&step);
    drop(step);
    match told {
        Ok(told) => outcome_of(told),
        // A turn takes no memory.
        Err(_) => unreachable!(),
    }
}

// Whether a shard is asked once more how far it has learned, right after a batch: what it is to learn the coordinator has forgotten. Nobody else lets a
// shard learn here, so it would be asked for ever.
fn is_left_behind(made: Option<CallName>, next: CallName) -> bool
    ensures { IsTrue result ↔ ((made ≡ Some CallName.Batch) × (next ≡ CallName.Learned)) }
{
    matches!(made, Some(CallName::Batch)) && matches!(next, CallName::Learned)
}

// The calls of the care in the slot, one after another, to its end.
fn run_out<D: Device>(world: &mut World<D>, slot: usize) -> Result<(), Refusal>
    requires { HoldsCare world.old slot }
    ensures { Plays D.state D.honest D.moment D.left_since slot world.old result world.new }
{
    let mut made = None;
    for _ in 0..u64::MAX {
        let Some(name) = world.next(slot) else {
            unreachable!()
        };
        if is_left_behind(made, name) {
            return Err(Refusal::Damaged);
        }
        if let Some(outcome) = turn(world, slot) {
            return outcome;
        }
        made = Some(name);
    }
    // It has made more calls than can be counted.
    Err(Refusal::NoMemory)
}

// The slot in which a care has begun by what its first step told.
fn begun(told: Option<What>) -> Result<usize, Refusal>
    requires { TellsBeginning told }
    ensures { MatchResult result (λ slot. told ≡ Some (What.Began slot)) (λ e. told ≡ Some (What.Refused e)) }
{
    let slot = match &told {
        Some(What::Began(slot)) => Ok(*slot),
        Some(What::Refused(cause)) => Err(*cause),
        _ => unreachable!(),
    };
    drop(told);
    slot
}

fn begin<D: Device>(world: &mut World<D>, care: Care) -> Result<usize, Refusal>
    requires { MayCare world.old.shards care }
    ensures { MatchResult result (λ slot. Takes D.state D.honest D.moment D.left_since world.old (Step.Care care) (Some (What.Began slot)) world.new)
        (λ e. BeginsNot D.state D.honest D.moment D.left_since care world.old e world.new) }
{
    let step = Step::Care(care);
    let told = world.take(&step);
    drop(step);
    match told {
        Ok(told) => begun(told),
        Err(_) => Err(Refusal::NoMemory),
    }
}

/// The care is done, or refused.
pub(crate) fn serve<D: Device>(world: &mut World<D>, care: Care) -> Result<(), Refusal>
    requires of_closing { IsOfClosing care }
    requires may { MayCare world.old.shards care }
    ensures ok { OnOk result (Serves D.state D.honest D.moment D.left_since care world.old world.new) }
    ensures err { IfErr result (λ e. RefusesCare D.state D.honest D.moment D.left_since world.old e world.new) }
    ensures shards { world.new.shards ≡ world.old.shards }
{
    match begin(world, care) {
        Ok(slot) => run_out(world, slot),
        Err(refusal) => Err(refusal),
    }
}
