// A read of versions that counts the rows that it looks at.
ghost use Rattle.std.specs.Prelude.{◌≡◌, ◌<◌};

use std::alloc::Global;
use std::marker::Brand;
use std::sync::ledger::{Blank, Ledger};
use tuples::{Change, Refusal, Tuple, Tupleset};
use versions::{Budget, Steps, Versions};

fn apply(alloc: Global, versions: &mut Versions, place: u64, text: &str) -> Result<(), Refusal> {
    let tuple = Tuple::parse(alloc, text.as_bytes())?;
    versions.apply(place, &[Change::Touch(tuple)])?;
    Ok(())
}

// How many tuples are read; none if memory was refused.
fn read_counted(alloc: Global, versions: &Versions, place: u64, text: &str) -> Option<usize> {
    let Ok(set) = Tupleset::parse(alloc, text.as_bytes()) else {
        return None;
    };
    let found = counted::<Brand>(alloc, versions, place, &set, Blank::new(1));
    drop(set);
    found
}

fn counted<L: Ledger>(
    alloc: Global,
    versions: &Versions,
    place: u64,
    set: &Tupleset,
    blank: Blank,
) -> Option<usize>
    requires name { blank.name ≡ L.name }
    requires parts { blank.parts ≡ L.parts }
    requires some { 0 < blank.parts }
{
    let mut steps = Steps::<L>::new(blank);
    counted_by(alloc, versions, place, set, &mut steps)
}

fn counted_by<L: Ledger>(
    alloc: Global,
    versions: &Versions,
    place: u64,
    set: &Tupleset,
    steps: &mut Steps<L>,
) -> Option<usize> {
    match versions.at_counted(alloc, place, set, &mut Budget::unbounded(), steps) {
        Ok(tuples) => {
            let count = tuples.len();
            drop(tuples);
            Some(count)
        }
        Err(_) => None,
    }
}

const TOUCHED: &[(u64, &str)] = &[
    (1, "doc:a#viewer@u1"),
    (1, "doc:b#viewer@u1"),
    (2, "doc:a#owner@u1"),
];

const READ: &[(u64, &str, usize)] = &[
    (0, "doc:a", 0),
    (1, "doc:a", 1),
    (2, "doc:a", 2),
    (2, "doc#viewer@u1", 2),
];

fn apply_all(alloc: Global, versions: &mut Versions) -> Result<(), Refusal> {
    for &(place, text) in TOUCHED {
        apply(alloc, versions, place, text)?;
    }
    Ok(())
}

// How many tuples of a set are read at a place after these.
fn read_behind(alloc: Global, place: u64, text: &str) -> Option<usize> {
    let mut versions = Versions::new(alloc);
    let applied = apply_all(alloc, &mut versions);
    let found = read_counted(alloc, &versions, place, text);
    drop(versions);
    applied.ok()?;
    found
}

#[test]
fn a_read_that_is_counted_finds_its_tuples(rt: HostRuntime) {
    for &(place, set, wanted) in READ {
        let found = read_behind(rt.alloc(), place, set);
        assert!(rt; found == Some(wanted), "{set} at {place}");
    }
}
