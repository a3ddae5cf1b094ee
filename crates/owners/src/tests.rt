ghost use Rattle.std.specs.Prelude.{◌≡◌, ◌∷◌, []};
ghost use Rattle.accord.specs.OwnedLists.{found_list, no_list, undecided, with_listed, with_open};
ghost use Rattle.accord.specs.Owning.{decided_of};
ghost use Rattle.laws.specs.LogLaws.{IsUnlisted};
ghost use Rattle.owners.specs.Examples.{first_write, next_write};

use crate::{CallerPass, ListPass, Owners};
use std::marker::Brand;
use std::test::*;

// One caller's write is decided.
fn decide_one(owners: &Owners, list: &mut ListPass, caller: &mut CallerPass)
    requires own { (list.old.table ≡ owners.now) × (caller.old.table ≡ owners.now) }
    requires empty { list.old.part ≡ found_list [] 1 }
    requires nothing { caller.old.begun ≡ [] }
    ensures own { (list.new.table ≡ owners.now) × (caller.new.table ≡ owners.now) }
    ensures list { list.new.part ≡ with_listed (with_open (found_list [] 1) first_write) first_write }
    ensures begun { caller.new.begun ≡ decided_of (undecided first_write) ∷ [] }
{
    owners.begin::<Brand>(list, caller);
    owners.decide::<Brand>(list, caller);
}

// That of the next one is aborted, and not listed.
fn abort_next(owners: &Owners, list: &mut ListPass, caller: &mut CallerPass)
    requires own { (list.old.table ≡ owners.now) × (caller.old.table ≡ owners.now) }
    requires one { list.old.part ≡ with_listed (with_open (found_list [] 1) first_write) first_write }
    requires nothing { caller.old.begun ≡ [] }
    ensures own { list.new.table ≡ owners.now }
    ensures begun { caller.new.begun ≡ undecided next_write ∷ [] }
    ensures unlisted { IsUnlisted next_write.id list.new.part.log }
{
    owners.begin::<Brand>(list, caller);
    owners.abort::<Brand>(list);
    owners.look(list, caller);
}

#[test]
fn a_write_that_was_aborted_is_not_listed(rt: HostRuntime) -> Result<(), Fail> {
    let (owners, mut list) = Owners::new(rt.alloc())?;
    let mut one = owners.caller(&mut list);
    let mut next = owners.another(&mut one);
    owners.open::<Brand>(&mut list);
    decide_one(&owners, &mut list, &mut one);
    abort_next(&owners, &mut list, &mut next);
    owners.look(&mut list, &mut one);
    Ok(())
}
