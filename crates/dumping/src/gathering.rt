// The versions of all shards, once each has learned what is kept.
ghost use Rattle.std.specs.Prelude.{◌≡◌, [], List, true, OnOk};
ghost use Rattle.cluster.specs.declared.event.Answer.TheVariants.{Done};
ghost use Rattle.cluster.specs.declared.event.What.TheVariants.{Ended};
ghost use Rattle.dumping.specs.Gathering.{AllTell, HasAll, Plays, TellsOne};
ghost use Rattle.dumping.specs.Steps.{LooksOn};
ghost use Rattle.holds.specs.Holds.{is_in};
ghost use Rattle.std.specs.Prelude.{Some};
ghost use Rattle.tuples.specs.declared.tuple.Tuple.{Tuple as AnyTuple};
ghost use Rattle.tuples.specs.declared.version.Version.{Version as AnyVersion};

use crate::found::put_all;
use crate::playing::serve;
use cluster::{Answer, Step};
use names::Care;
use scripts::Store;
use std::collections::BTreeSet;
use tuples::{Refusal, Shards, Tuple, Version};

fn learn<S: Store>(store: &mut S, shard: u8) -> Result<(), Refusal>
    ensures ok { OnOk result (Plays S.takes S.nexts (Step.Care (Care.Learn shard)) store.old (Some (Ended Done)) store.new) }
    ensures looks { LooksOn S.takes store.old store.new }
{
    match serve(store, Step::Care(Care::Learn(shard)))? {
        Answer::Done => Ok(()),
        // Learning has no other answer.
        _ => Err(Refusal::Damaged),
    }
}

// A shard learns what is kept, and the tuple of each of its versions is put into the set.
fn gather_one<S: Store>(
    store: &mut S,
    shard: u8,
    found: &mut BTreeSet<Tuple>,
) -> Result<(), Refusal>
    ensures tells { OnOk result ((told : List AnyVersion) × TellsOne S.takes S.nexts S.shows shard store.old told store.new × HasAll found.new.keys told) }
    ensures keeps { OnOk result ((t : AnyTuple) → is_in found.old.keys t ≡ true → is_in found.new.keys t ≡ true) }
    ensures looks { LooksOn S.takes store.old store.new }
{
    learn(store, shard)?;
    let versions = store.rows(shard)?;
    put(found, &versions)
}

fn put(found: &mut BTreeSet<Tuple>, versions: &[Version]) -> Result<(), Refusal>
    ensures all { OnOk result (HasAll found.new.keys versions.now) }
    ensures keeps { OnOk result ((t : AnyTuple) → is_in found.old.keys t ≡ true → is_in found.new.keys t ≡ true) }
{
    match put_all(found, versions) {
        Ok(()) => Ok(()),
        Err(_) => Err(Refusal::NoMemory),
    }
}

/// Each shard learns what is kept, and the tuples of all their versions are put into the set.
pub(crate) fn gather<S: Store>(
    store: &mut S,
    shards: Shards,
    found: &mut BTreeSet<Tuple>,
) -> Result<(), Refusal>
    ensures tell { OnOk result ((told : List AnyVersion) × AllTell S.takes S.nexts S.shows shards store.old told store.new × HasAll found.new.keys told) }
    ensures looks { LooksOn S.takes store.old store.new }
{
    for shard in 0..shards.count() {
        gather_one(store, shard, found)?;
    }
    Ok(())
}
