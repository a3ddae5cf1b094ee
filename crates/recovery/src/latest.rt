// The last change of each tuple, so that no condition needs a walk over the log.
ghost use Rattle.std.specs.Prelude.{◌≡◌, ◌+◌, IfOk, IfSome, MatchOption, None, OnOk, option_map};
ghost use Rattle.std.specs.BTreeMap.{get};
ghost use Rattle.std.specs.List.{list_all};
ghost use Rattle.tuples.specs.declared.tuple.Tuple.{Tuple as AnyTuple};
ghost use Rattle.tuples.specs.declared.change.Condition.{Condition as AnyCondition};
ghost use Rattle.tuples.specs.Log.{meets_want};
ghost use Rattle.tuples.specs.Order.{tuple_cmp};
ghost use Rattle.tuples.specs.Versions.{is_touch as is_touch_change};
ghost use Rattle.recovery.specs.Latest.{AreLatestFrom, holds_after, last_change};

use ledger::Ledger;
use std::alloc::{AllocError, Global};
use std::collections::BTreeMap;
use tuples::{Change, Condition, Tuple, Want};

/// The last change of a tuple: its place, and whether the tuple is there then.
#[derive(Clone, Copy)]
pub struct LastChange {
    pub place: u64,
    pub is_there: bool,
}

fn is_touch(change: &Change) -> bool
    ensures { result ≡ is_touch_change change.now }
{
    matches!(change, Change::Touch(_))
}

fn copied(tuple: &Tuple) -> Result<Tuple, AllocError>
    ensures { IfOk result (λ t. t ≡ tuple.now) }
{
    tuple.clone()
}

// Enters the changes of a write at its place. If memory is refused, some may have been entered.
fn enter(
    latest: &mut BTreeMap<Tuple, LastChange>,
    place: u64,
    changes: &[Change],
) -> Result<(), AllocError>
    ensures { OnOk result ((t : AnyTuple) → get tuple_cmp latest.new t ≡ last_change place changes.now t (get tuple_cmp latest.old t)) }
{
    for change in changes {
        let last = LastChange {
            place,
            is_there: is_touch(change),
        };
        let Ok(_) = latest.insert(copied(change.tuple())?, last) else {
            return Err(AllocError);
        };
    }
    Ok(())
}

// The last change of each tuple by all decisions of a ledger.
fn latest_of(alloc: Global, ledger: &Ledger) -> Result<BTreeMap<Tuple, LastChange>, AllocError>
    ensures { IfOk result (λ m. AreLatestFrom (ledger.now.base + 1) (λ t. get tuple_cmp m t) ledger.now.log) }
{
    let mut latest = BTreeMap::new(alloc);
    for place in ledger.base()..ledger.end() {
        let write = ledger.at(place + 1);
        enter(&mut latest, place + 1, write.changes.as_slice())?;
    }
    Ok(latest)
}

/// The index that is kept, or a new one.
pub(crate) fn kept_or_made(
    alloc: Global,
    ledger: &Ledger,
    kept: Option<BTreeMap<Tuple, LastChange>>,
) -> Result<BTreeMap<Tuple, LastChange>, AllocError>
    requires { IfSome (option_map (λ m. λ t. get tuple_cmp m t) kept) (λ at. AreLatestFrom (ledger.now.base + 1) at ledger.now.log) }
    ensures { IfOk result (λ m. AreLatestFrom (ledger.now.base + 1) (λ t. get tuple_cmp m t) ledger.now.log) }
{
    match kept {
        Some(latest) => Ok(latest),
        None => latest_of(alloc, ledger),
    }
}

/// Enters the changes of a write at its place if an index is kept, else does nothing.
pub(crate) fn enter_where_kept(
    latest: &mut Option<BTreeMap<Tuple, LastChange>>,
    place: u64,
    changes: &[Change],
) -> Result<(), AllocError>
    ensures { OnOk result (MatchOption latest.old (latest.new ≡ None) (λ old. IfSome latest.new (λ new. (t : AnyTuple) → get tuple_cmp new t ≡ last_change place changes.now t (get tuple_cmp old t)))) }
{
    match latest {
        Some(latest) => enter(latest, place, changes),
        None => Ok(()),
    }
}

fn meets(want: Want, place: u64, is_there: bool) -> bool
    ensures { result ≡ meets_want want place is_there }
{
    match want {
        Want::NotAfter(since) => place <= since,
        Want::Exists => is_there,
        Want::Absent => !is_there,
    }
}

/// Whether a condition holds after the writes that were entered, as far as they tell: for a tuple that none of them changes, only if
/// they are all.
pub(crate) fn holds(
    latest: &BTreeMap<Tuple, LastChange>,
    are_all: bool,
    condition: &Condition,
) -> bool
    ensures { result ≡ holds_after are_all condition.now.want (get tuple_cmp latest.now condition.now.tuple) }
{
    match latest.get(&condition.tuple) {
        Some(change) => meets(condition.want, change.place, change.is_there),
        None => !are_all || meets(condition.want, 0, false),
    }
}

/// Whether all of these conditions hold.
pub(crate) fn all_hold(
    latest: &BTreeMap<Tuple, LastChange>,
    are_all: bool,
    conditions: &[Condition],
) -> bool
    ensures { result ≡ list_all (λ (c : AnyCondition). holds_after are_all c.want (get tuple_cmp latest.now c.tuple)) conditions.now }
{
    for condition in conditions {
        if !holds(latest, are_all, condition) {
            return false;
        }
    }
    true
}
