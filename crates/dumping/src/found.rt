// The tuples that versions name, as a set.
ghost use Rattle.std.specs.Prelude.{◌≡◌, ◌||◌, true, OnOk, IfOk};
ghost use Rattle.dumping.specs.Gathering.{HasAll};
ghost use Rattle.holds.specs.Holds.{is_in};
ghost use Rattle.tuples.specs.Order.{tuple_eq};
ghost use Rattle.tuples.specs.declared.tuple.Tuple.{Tuple as AnyTuple};

use std::alloc::AllocError;
use std::collections::BTreeSet;
use tuples::{Tuple, Version};

fn copy(tuple: &Tuple) -> Result<Tuple, AllocError>
    ensures { IfOk result (λ copy. copy ≡ tuple.now) }
{
    tuple.clone()
}

fn put(found: &mut BTreeSet<Tuple>, tuple: &Tuple) -> Result<(), AllocError>
    ensures { OnOk result ((t : AnyTuple) → is_in found.new.keys t ≡ (tuple_eq t tuple.now || is_in found.old.keys t)) }
{
    found.insert(copy(tuple)?)?;
    Ok(())
}

/// Puts the tuple of each version into the set.
pub(crate) fn put_all(found: &mut BTreeSet<Tuple>, versions: &[Version]) -> Result<(), AllocError>
    ensures all { OnOk result (HasAll found.new.keys versions.now) }
    ensures keeps { OnOk result ((t : AnyTuple) → is_in found.old.keys t ≡ true → is_in found.new.keys t ≡ true) }
{
    for version in versions {
        put(found, version.change.tuple())?;
    }
    Ok(())
}
