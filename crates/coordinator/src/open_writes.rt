// The numbers of the open writes, in the order in which they were begun.
ghost use Rattle.std.specs.Prelude.{◌≡◌, ◌↔◌, ℕ, [], All, Contains, IsTrue};
ghost use Rattle.decisions.specs.Coordinators.{without_id};
ghost use Rattle.coordinator.specs.Keeping.{IsGivenNumber, newest_first, others};

use tuples::WriteId;

/// Whether the write with this id is open, of those with these numbers of an epoch.
pub(crate) fn is_open(numbers: &[u64], epoch: u64, id: WriteId) -> bool
    ensures { IsTrue result ↔ Contains (newest_first epoch numbers.now []) id }
{
    if id.epoch != epoch {
        return false;
    }
    numbers.contains(&id.number)
}

// The write with this number is open no longer.
fn take_out(numbers: &mut Vec<u64>, number: u64)
    ensures { numbers.new.items ≡ others number numbers.old.items }
{
    numbers.retain(|other| *other != number);
}

/// The write with this id is open no longer, of those with these numbers of an epoch.
pub(crate) fn close(numbers: &mut Vec<u64>, epoch: u64, id: WriteId)
    ensures ids { newest_first epoch numbers.new.items [] ≡ without_id id (newest_first epoch numbers.old.items []) }
    ensures given { (given : ℕ) → All (IsGivenNumber given) numbers.old.items → All (IsGivenNumber given) numbers.new.items }
{
    if id.epoch == epoch {
        take_out(numbers, id.number);
    }
}
