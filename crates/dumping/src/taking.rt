// All tuples of a store at one place.
ghost use Rattle.std.specs.Prelude.{◌≡◌, ◌∷◌, ◌++◌, [], List, ℕ, IfOk, IfSome, OnOk, MatchOption};
ghost use Rattle.answer_flow.specs.ReadViews.{rows_of};
ghost use Rattle.dumping.specs.Gathering.{AllRead, Reads};
ghost use Rattle.dumping.specs.Dumps.{Dumps, FindsAll, FindsPlace};
ghost use Rattle.dumping.specs.Steps.{LooksOn};
ghost use Rattle.std.specs.List.Sorted.{IsStrictlySortedBy};
ghost use Rattle.tuples.specs.contracts.tuple.TupleOrd.TheImpl.{ghosts};
ghost use Rattle.tuples.specs.declared.tuple.Tuple.{Tuple as AnyTuple};
ghost use Rattle.tuples.specs.declared.tupleset.Tupleset.TheVariants.{Key as key_of};

use crate::gathering::gather;
use crate::reading::{place_of, read};
use scripts::Store;
use std::alloc::{AllocError, Global};
use std::collections::BTreeSet;
use tuples::{Freshness, Refusal, Shards, Tuple, Tupleset};

/// A place, and all tuples that are there, ascending.
#[derive(Drop)]
pub struct Dump {
    pub place: u64,
    pub tuples: Vec<Tuple>,
}

// The rows of the one tupleset that there is.
fn only(mut sets: Vec<Vec<Tuple>>) -> Option<Vec<Tuple>>
    ensures { IfSome result (λ row. rows_of sets.items ≡ row.items ∷ []) }
{
    let row = sets.pop()?;
    if sets.is_empty() { Some(row) } else { None }
}

fn key(tuple: &Tuple) -> Result<Tupleset, AllocError>
    ensures { IfOk result (λ q. q ≡ key_of tuple.now) }
{
    Ok(Tupleset::Key(tuple.clone()?))
}

// Reads one tuple at the place, and appends it if it is there.
fn read_one<S: Store>(
    alloc: Global,
    store: &mut S,
    place: u64,
    tuple: &Tuple,
    tuples: &mut Vec<Tuple>,
) -> Result<(), Refusal>
    ensures ok { OnOk result ((at : ℕ) × (row : List AnyTuple) × Reads S.takes S.nexts (Freshness.Exact place) (key_of tuple.now) store.old at (row ∷ []) store.new × (tuples.new.items ≡ tuples.old.items ++ row)) }
    ensures looks { LooksOn S.takes store.old store.new }
{
    let Ok(set) = key(tuple) else {
        return Err(Refusal::NoMemory);
    };
    let selected = read(alloc, store, Freshness::Exact(place), set)?;
    append(tuples, selected.sets)
}

fn append(tuples: &mut Vec<Tuple>, sets: Vec<Vec<Tuple>>) -> Result<(), Refusal>
    ensures { OnOk result ((row : List AnyTuple) × (rows_of sets.items ≡ row ∷ []) × (tuples.new.items ≡ tuples.old.items ++ row)) }
{
    // A read of one tupleset has the rows of one.
    let Some(mut row) = only(sets) else {
        return Err(Refusal::Damaged);
    };
    match tuples.append(&mut row) {
        Ok(()) => Ok(()),
        Err(_) => Err(Refusal::NoMemory),
    }
}

// Reads each of the tuples at the place, and appends those that are there.
fn read_all<S: Store>(
    alloc: Global,
    store: &mut S,
    place: u64,
    found: &BTreeSet<Tuple>,
    tuples: &mut Vec<Tuple>,
) -> Result<(), Refusal>
    ensures sorted { IsStrictlySortedBy ghosts.cmp found.now.keys }
    ensures ok { OnOk result ((rows : List AnyTuple) × AllRead S.takes S.nexts place found.now.keys store.old rows store.new × (tuples.new.items ≡ tuples.old.items ++ rows)) }
    ensures looks { LooksOn S.takes store.old store.new }
{
    for tuple in found {
        read_one(alloc, store, place, tuple, tuples)?;
    }
    Ok(())
}

// The place that is asked for, once it is known to be readable; the latest if none is.
fn find_place<S: Store>(alloc: Global, store: &mut S, at: Option<u64>) -> Result<u64, Refusal>
    ensures ok { IfOk result (λ place. FindsPlace S.takes S.nexts at store.old place store.new) }
    ensures looks { LooksOn S.takes store.old store.new }
{
    // This asks each node, before the place is looked at.
    let latest = place_of(alloc, store, Freshness::Latest)?;
    let place = match at {
        Some(place) => place,
        None => latest,
    };
    let _same = place_of(alloc, store, Freshness::Exact(place))?;
    Ok(place)
}

// All tuples that are there at a place that was read.
fn find_all<S: Store>(
    alloc: Global,
    store: &mut S,
    shards: Shards,
    place: u64,
    found: &mut BTreeSet<Tuple>,
    tuples: &mut Vec<Tuple>,
) -> Result<(), Refusal>
    ensures ok { OnOk result ((rows : List AnyTuple) × FindsAll S.takes S.nexts S.shows shards place store.old rows store.new × (tuples.new.items ≡ tuples.old.items ++ rows)) }
    ensures looks { LooksOn S.takes store.old store.new }
{
    gather(store, shards, found)?;
    // The place can still be read, so no shard has forgotten what was there.
    let _still = place_of(alloc, store, Freshness::Exact(place))?;
    read_all(alloc, store, place, found, tuples)
}

/// All tuples that are there at a place, or at the latest. `Future` if the place is above what is kept, `Collected` if it is below the horizon, and before
/// that the refusal of a node, the coordinator first and then the shards by rising number. In any case it only begins reads, and lets shards learn what is
/// kept.
pub fn take_dump<S: Store>(
    alloc: Global,
    store: &mut S,
    shards: Shards,
    at: Option<u64>,
) -> Result<Dump, Refusal>
    ensures ok { IfOk result (λ d. Dumps S.takes S.nexts S.shows shards at store.old d.place d.tuples.items store.new) }
    ensures looks { LooksOn S.takes store.old store.new }
{
    let place = find_place(alloc, store, at)?;
    let mut found = BTreeSet::new(alloc);
    let mut tuples = Vec::new(alloc);
    match find_all(alloc, store, shards, place, &mut found, &mut tuples) {
        Ok(()) => Ok(Dump { place, tuples }),
        Err(refusal) => Err(refusal),
    }
}
