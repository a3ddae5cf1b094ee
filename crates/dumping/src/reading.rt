// Reads of one tupleset.
ghost use Rattle.std.specs.Prelude.{◌≡◌, ◌∷◌, [], List, ℕ, IfOk};
ghost use Rattle.answer_flow.specs.ReadViews.{rows_of};
ghost use Rattle.dumping.specs.Gathering.{Reads};
ghost use Rattle.dumping.specs.Steps.{LooksOn};
ghost use Rattle.tuples.specs.declared.tuple.Tuple.{Tuple as AnyTuple};
ghost use Rattle.tuples.specs.declared.tupleset.Tupleset.{Tupleset as AnyTupleset};

use crate::playing::serve;
use cluster::{Answer, Step};
use scripts::Store;
use std::alloc::{AllocError, Global};
use tuples::{Freshness, Refusal, Request, Tuple, Tupleset};

// A tupleset that asks all shards, whether or not any of them has a tuple of it.
const ANY: &[u8] = b"a@a";

/// The rows of a read, and their place.
#[derive(Drop)]
pub(crate) struct Selected {
    pub place: u64,
    pub sets: Vec<Vec<Tuple>>,
}

fn alone(alloc: Global, set: Tupleset) -> Result<Vec<Tupleset>, AllocError>
    ensures { IfOk result (λ sets. sets.items ≡ set ∷ []) }
{
    let mut sets = Vec::new(alloc);
    sets.push(set)?;
    Ok(sets)
}

/// Reads one tupleset.
pub(crate) fn read<S: Store>(
    alloc: Global,
    store: &mut S,
    freshness: Freshness,
    set: Tupleset,
) -> Result<Selected, Refusal>
    ensures ok { IfOk result (λ r. Reads S.takes S.nexts freshness set store.old r.place (rows_of r.sets.items) store.new) }
    ensures looks { LooksOn S.takes store.old store.new }
{
    let Ok(sets) = alone(alloc, set) else {
        return Err(Refusal::NoMemory);
    };
    let request = Request::Read { freshness, sets };
    match serve(store, Step::Start(request))? {
        Answer::Selected(place, sets) => Ok(Selected { place, sets }),
        // A read has no other answer.
        _ => Err(Refusal::Damaged),
    }
}

/// The place of a read of this freshness, which asks the coordinator and then each shard, by rising number.
pub(crate) fn place_of<S: Store>(
    alloc: Global,
    store: &mut S,
    freshness: Freshness,
) -> Result<u64, Refusal>
    ensures ok { IfOk result (λ place. (set : AnyTupleset) × (rows : List (List AnyTuple)) × Reads S.takes S.nexts freshness set store.old place rows store.new) }
    ensures looks { LooksOn S.takes store.old store.new }
{
    let set = Tupleset::parse(alloc, ANY)?;
    let selected = read(alloc, store, freshness, set)?;
    Ok(selected.place)
}
