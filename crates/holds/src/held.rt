// The tuples that writes hold, as a set.
ghost use Rattle.std.specs.Prelude.{◌≡◌, ◌||◌, ◌&&◌, not, false, IfOk, OnOk, OnErr};
ghost use Rattle.std.specs.List.{list_any};
ghost use Rattle.tuples.specs.Changes.{changed, conditioned, has_tuple};
ghost use Rattle.tuples.specs.Order.{tuple_eq};
ghost use Rattle.tuples.specs.declared.tuple.Tuple.{Tuple as AnyTuple};
ghost use Rattle.records.specs.Replays.{named};
ghost use Rattle.holds.specs.Holds.{is_in};

use std::alloc::AllocError;
use std::collections::BTreeSet;
use tuples::{Change, Condition, Entry, Tuple};

/// Whether a tuple of the changes is held.
pub(crate) fn holds_change(held: &BTreeSet<Tuple>, changes: &[Change]) -> bool
    ensures { result ≡ list_any (is_in held.now.keys) (changed changes.now) }
{
    for change in changes {
        if held.contains(change.tuple()) {
            return true;
        }
    }
    false
}

/// Whether a tuple of the conditions is held.
pub(crate) fn holds_condition(held: &BTreeSet<Tuple>, conditions: &[Condition]) -> bool
    ensures { result ≡ list_any (is_in held.now.keys) (conditioned conditions.now) }
{
    for condition in conditions {
        if held.contains(&condition.tuple) {
            return true;
        }
    }
    false
}

/// Holds the tuples of a write. If memory is refused, some of them may be held.
pub(crate) fn hold(held: &mut BTreeSet<Tuple>, write: &Entry) -> Result<(), AllocError>
    ensures ok { OnOk result ((t : AnyTuple) → is_in held.new.keys t ≡ (has_tuple t (named write.now) || is_in held.old.keys t)) }
    ensures others { (t : AnyTuple) → has_tuple t (named write.now) ≡ false → is_in held.new.keys t ≡ is_in held.old.keys t }
{
    hold_changes(held, write.changes.as_slice())?;
    hold_conditions(held, write.conditions.as_slice())
}

fn hold_changes(held: &mut BTreeSet<Tuple>, changes: &[Change]) -> Result<(), AllocError>
    ensures ok { OnOk result ((t : AnyTuple) → is_in held.new.keys t ≡ (has_tuple t (changed changes.now) || is_in held.old.keys t)) }
    ensures others { (t : AnyTuple) → has_tuple t (changed changes.now) ≡ false → is_in held.new.keys t ≡ is_in held.old.keys t }
{
    for change in changes {
        hold_tuple(held, change.tuple())?;
    }
    Ok(())
}

fn hold_conditions(held: &mut BTreeSet<Tuple>, conditions: &[Condition]) -> Result<(), AllocError>
    ensures ok { OnOk result ((t : AnyTuple) → is_in held.new.keys t ≡ (has_tuple t (conditioned conditions.now) || is_in held.old.keys t)) }
    ensures others { (t : AnyTuple) → has_tuple t (conditioned conditions.now) ≡ false → is_in held.new.keys t ≡ is_in held.old.keys t }
{
    for condition in conditions {
        hold_tuple(held, &condition.tuple)?;
    }
    Ok(())
}

fn hold_tuple(held: &mut BTreeSet<Tuple>, tuple: &Tuple) -> Result<(), AllocError>
    ensures ok { OnOk result ((t : AnyTuple) → is_in held.new.keys t ≡ (tuple_eq t tuple.now || is_in held.old.keys t)) }
    ensures err { OnErr result ((t : AnyTuple) → is_in held.new.keys t ≡ is_in held.old.keys t) }
{
    held.insert(copy(tuple)?)?;
    Ok(())
}

fn copy(tuple: &Tuple) -> Result<Tuple, AllocError>
    ensures { IfOk result (λ copy. copy ≡ tuple.now) }
{
    tuple.clone()
}

/// Releases the tuples of a write; allocates nothing.
pub(crate) fn let_go(held: &mut BTreeSet<Tuple>, write: &Entry)
    ensures { (t : AnyTuple) → is_in held.new.keys t ≡ (not (has_tuple t (named write.now)) && is_in held.old.keys t) }
{
    let_go_changes(held, write.changes.as_slice());
    let_go_conditions(held, write.conditions.as_slice());
}

fn let_go_changes(held: &mut BTreeSet<Tuple>, changes: &[Change])
    ensures { (t : AnyTuple) → is_in held.new.keys t ≡ (not (has_tuple t (changed changes.now)) && is_in held.old.keys t) }
{
    for change in changes {
        let_tuple_go(held, change.tuple());
    }
}

fn let_go_conditions(held: &mut BTreeSet<Tuple>, conditions: &[Condition])
    ensures { (t : AnyTuple) → is_in held.new.keys t ≡ (not (has_tuple t (conditioned conditions.now)) && is_in held.old.keys t) }
{
    for condition in conditions {
        let_tuple_go(held, &condition.tuple);
    }
}

fn let_tuple_go(held: &mut BTreeSet<Tuple>, tuple: &Tuple)
    ensures { (t : AnyTuple) → is_in held.new.keys t ≡ (not (tuple_eq t tuple.now) && is_in held.old.keys t) }
{
    held.remove(tuple);
}
