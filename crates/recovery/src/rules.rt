// Which record may come next at a coordinator.
ghost use Rattle.std.specs.Prelude.{◌↔◌, ◌≡◌, ◌≤◌, IfOk, IsTrue};
ghost use Rattle.records.specs.Coordinators.{MayDecide, MayEndDecisions, MayOpenAgain, MayRaise, MayTakeOpening};
ghost use Rattle.records.specs.Replays.{greatest_number};

use crate::Recovery;
use records::{COORDINATOR, Identity, Inside, Stage, ask_of_log};
use std::alloc::AllocError;
use tuples::{Entry, MAX_NUMBER};

// epochs and numbers of writes begin at 1
fn is_number(number: u64) -> bool
    ensures { IsTrue result ↔ ((1 ≤ number) × (number ≤ greatest_number)) }
{
    number >= 1 && number <= MAX_NUMBER
}

/// The next place, a new id, and conditions that hold there and ask about places of a log.
pub(crate) fn may_decide(
    so_far: &mut Recovery,
    place: u64,
    write: &Entry,
) -> Result<bool, AllocError>
    ensures same { so_far.new ≡ so_far.old }
    ensures ok { IfOk result (λ may. IsTrue may ↔ MayDecide so_far.old place write.now) }
{
    if so_far.epoch() == 0 || !is_number(write.id.epoch) || !is_number(write.id.number) {
        return Ok(false);
    }
    if so_far.end() >= MAX_NUMBER || place != so_far.end() + 1 {
        return Ok(false);
    }
    let conditions = write.conditions.as_slice();
    if !ask_of_log(conditions) || !so_far.is_new(write.id) {
        return Ok(false);
    }
    so_far.all_hold(conditions)
}

/// The next opening, of this very coordinator.
pub(crate) fn may_open(
    me: Identity,
    so_far: &Recovery,
    epoch: u64,
    store: u64,
    shards: u8,
    node: u8,
) -> bool
    ensures { IsTrue result ↔ MayOpenAgain me so_far.now epoch store shards node }
{
    // Nothing follows the greatest number.
    if so_far.epoch() >= MAX_NUMBER || epoch != so_far.epoch() + 1 {
        return false;
    }
    me.is(store, shards, node) && me.node() == COORDINATOR
}

/// The horizon only rises, and stays within the log.
pub(crate) fn may_raise(so_far: &Recovery, place: u64) -> bool
    ensures { IsTrue result ↔ MayRaise so_far.now place }
{
    so_far.epoch() != 0 && so_far.horizon() <= place && place <= so_far.end()
}

/// The openings so far, of this very coordinator.
pub(crate) fn may_take_opening(
    me: Identity,
    inside: Inside,
    epoch: u64,
    store: u64,
    shards: u8,
    node: u8,
) -> bool
    ensures { IsTrue result ↔ MayTakeOpening me inside epoch store shards node }
{
    inside.may_take_epoch(me, epoch, store, shards, node) && me.node() == COORDINATOR
}

/// The end of this very checkpoint, whose horizon is known.
pub(crate) fn may_end(inside: Inside, generation: u64) -> bool
    ensures { IsTrue result ↔ MayEndDecisions inside generation }
{
    inside.stage == Stage::Bounded && generation == inside.generation
}
