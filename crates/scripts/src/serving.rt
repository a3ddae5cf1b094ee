// A flow without a name, which begins and ends within its line.
ghost use Rattle.std.specs.Prelude.{◌≡◌, ◌≤◌, ◌<◌, ◌+◌, ◌⊎◌, ◌++◌, List, ℕ, None, Option, OnOk, OnErr, length, vec_capacity, vec_len};
ghost use Rattle.cluster.specs.declared.event.What.{What as AnyWhat};
ghost use Rattle.scripts.specs.Going.{Goes};
ghost use Rattle.scripts.specs.Refusing.{EndsNot, GivesUp, IsLong, ServesNot, line_room};
ghost use Rattle.scripts.specs.Scripts.{Ends, Serves, unbegun_text};
ghost use Rattle.scripts.specs.Telling.{told_text};

use crate::Store;
use crate::going::{cancel, go};
use crate::printing::print_told;
use cluster::{Step, What};
use script_text::Printed;
use std::alloc::AllocError;
use tuples::Refusal;

/// Prints what has begun no flow.
pub(crate) fn print_unbegun(
    id: u64,
    told: Option<What>,
    out: &mut Vec<u8>,
) -> Result<(), AllocError>
    ensures ok { OnOk result (out.new.items ≡ out.old.items ++ unbegun_text id told) }
    ensures err { OnErr result (out.new.items ≡ out.old.items) }
    ensures memory { OnErr result (vec_capacity out.old < vec_len out.old + length (unbegun_text id told)) }
    ensures capacity { vec_capacity out.old ≤ vec_capacity out.new }
{
    match told {
        None => Printed::Refused(Refusal::Future).write_to(id, out),
        told => print_told(id, told, out),
    }
}

// The flow in the slot ends, and its end is printed.
fn run_out<S: Store>(
    store: &mut S,
    id: u64,
    slot: usize,
    each: usize,
    out: &mut Vec<u8>,
) -> Result<(), AllocError>
    requires room { vec_len out.old + line_room ≤ vec_capacity out.old }
    ensures ok { OnOk result ((end : Option AnyWhat) × Goes S.takes S.nexts slot None store.old end store.new × (out.new.items ≡ out.old.items ++ told_text id end)) }
    ensures err { OnErr result (out.new.items ≡ out.old.items) }
    ensures refused { OnErr result (GivesUp S.takes S.nexts slot each store.old store.new ⊎ ((end : Option AnyWhat) × Goes S.takes S.nexts slot None store.old end store.new × IsLong (told_text id end))) }
    ensures capacity { vec_capacity out.old ≤ vec_capacity out.new }
{
    match go(store, slot, None, each, out) {
        Ok(end) => print_told(id, end, out),
        Err(error) => {
            // It has no name by which a later line could end it.
            let _ = cancel(store, slot, out);
            Err(error)
        }
    }
}

fn end<S: Store>(
    store: &mut S,
    id: u64,
    told: Option<What>,
    each: usize,
    out: &mut Vec<u8>,
) -> Result<(), AllocError>
    requires room { vec_len out.old + line_room ≤ vec_capacity out.old }
    ensures ok { OnOk result ((text : List ℕ) × Ends S.takes S.nexts id told store.old text store.new × (out.new.items ≡ out.old.items ++ text)) }
    ensures err { OnErr result (out.new.items ≡ out.old.items) }
    ensures refused { OnErr result (EndsNot S.takes S.nexts id each told store.old store.new) }
    ensures capacity { vec_capacity out.old ≤ vec_capacity out.new }
{
    match told {
        Some(What::Began(slot)) => run_out(store, id, slot, each, out),
        told => print_unbegun(id, told, out),
    }
}

/// The step begins a flow, which makes its calls to its end, each once there is this much more room; what it tells is printed. An `Err` is for lack of
/// memory: none has begun, or it was cancelled, or what it told is longer than the room for it.
pub(crate) fn serve<S: Store>(
    store: &mut S,
    id: u64,
    first: Step,
    each: usize,
    out: &mut Vec<u8>,
) -> Result<(), AllocError>
    requires room { vec_len out.old + line_room ≤ vec_capacity out.old }
    ensures ok { OnOk result ((text : List ℕ) × Serves S.takes S.nexts id first store.old text store.new × (out.new.items ≡ out.old.items ++ text)) }
    ensures err { OnErr result (out.new.items ≡ out.old.items) }
    ensures refused { OnErr result (ServesNot S.takes S.nexts id each first store.old store.new) }
    ensures capacity { vec_capacity out.old ≤ vec_capacity out.new }
{
    let told = store.take(first)?;
    end(store, id, told, each, out)
}
