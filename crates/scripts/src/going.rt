// The turns of a flow, one after another.
ghost use Rattle.std.specs.Prelude.{◌≡◌, ◌≤◌, ◌<◌, ◌↔◌, IfOk, IsTrue, OnErr, OnOk, vec_capacity};
ghost use Rattle.scripts.specs.Going.{Goes, GoesOn, IsAsked, LeavesOff};
ghost use Rattle.scripts.specs.Refusing.{CancelsInPart};
ghost use Rattle.scripts.specs.Scripts.{Cancels};

use crate::Store;
use cluster::{Step, What};
use names::CallName;
use std::alloc::AllocError;

// Whether the call is the one that is asked for.
fn is_asked(until: Option<CallName>, call: CallName) -> bool
    ensures { IsTrue result ↔ IsAsked until call }
{
    match until {
        None => false,
        Some(name) => name == call,
    }
}

fn goes_on(until: Option<CallName>, next: Option<CallName>) -> bool
    ensures { IsTrue result ↔ GoesOn until next }
{
    match next {
        None => false,
        Some(call) => !is_asked(until, call),
    }
}

// Room for this much text, if there is to be any.
fn make_room(out: &mut Vec<u8>, room: usize) -> Result<(), AllocError>
    ensures same { out.new.items ≡ out.old.items }
    ensures capacity { vec_capacity out.old ≤ vec_capacity out.new }
    ensures some { OnErr result (0 < room) }
{
    if room == 0 {
        return Ok(());
    }
    out.reserve(room)
}

/// The flow in the slot makes its calls: to its end, or until this one is next. Returns what the last of them told. Each call is made once there is this
/// much more room for all its text, if it is to have any.
pub(crate) fn go<S: Store>(
    store: &mut S,
    slot: usize,
    until: Option<CallName>,
    each: usize,
    out: &mut Vec<u8>,
) -> Result<Option<What>, AllocError>
    ensures goes { IfOk result (λ told. Goes S.takes S.nexts slot until store.old told store.new) }
    ensures left { OnErr result (LeavesOff S.takes S.nexts slot until each store.old store.new) }
    ensures same { out.new.items ≡ out.old.items }
    ensures capacity { vec_capacity out.old ≤ vec_capacity out.new }
{
    let mut told = None;
    let mut room: usize = 0;
    for _ in 0..u64::MAX {
        if !goes_on(until, store.next(slot)) {
            return Ok(told);
        }
        room = room.saturating_add(each);
        make_room(out, room)?;
        told = store.take(Step::Turn(slot))?;
    }
    if goes_on(until, store.next(slot)) {
        return Err(AllocError);
    }
    Ok(told)
}

/// The flow in the slot is cancelled, and makes its calls to its end.
pub(crate) fn cancel<S: Store>(
    store: &mut S,
    slot: usize,
    out: &mut Vec<u8>,
) -> Result<(), AllocError>
    ensures cancels { OnOk result (Cancels S.takes S.nexts slot store.old store.new) }
    ensures left { OnErr result (CancelsInPart S.takes S.nexts slot store.old store.new) }
    ensures same { out.new.items ≡ out.old.items }
    ensures capacity { vec_capacity out.old ≤ vec_capacity out.new }
{
    // Nothing is told of either.
    let _told = store.take(Step::Cancel(slot))?;
    let _end = go(store, slot, None, 0, out)?;
    Ok(())
}
