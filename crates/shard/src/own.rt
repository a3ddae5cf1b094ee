// A shard's part of a write, and what is tested of it.
ghost use Rattle.std.specs.Prelude.{◌≡◌, ◌↔◌, IsTrue};
ghost use Rattle.std.specs.List.{list_any};
ghost use Rattle.records.specs.Replays.{is_held};
ghost use Rattle.tuples.specs.Changes.{tuple_of};
ghost use Rattle.tuples.specs.Parts.{part};
ghost use Rattle.shard.specs.Shards.{AreFree, AskBelow, HoldHere};
ghost use Rattle.shard.specs.Own.{is_below as is_want_below};

use records::Identity;
use replay::Memory;
use tuples::{Condition, Entry, ShardPart, Want};

/// This shard's part of a write.
pub(crate) fn own_part(write: &Entry, me: Identity) -> ShardPart<'_>
    ensures { result ≡ part me.shards me.node write.now }
{
    write.part_at(me.shards(), me.node())
}

fn changes_held_tuple(memory: &Memory, part: &ShardPart) -> bool
    ensures { result ≡ list_any (λ c. is_held (tuple_of c) memory.now.in_doubt) part.now.changes }
{
    part.changes().any(|change| memory.is_held(change.tuple()))
}

fn asks_of_held_tuple(memory: &Memory, part: &ShardPart) -> bool
    ensures { result ≡ list_any (λ c. is_held c.tuple memory.now.in_doubt) part.now.conditions }
{
    part.conditions()
        .any(|condition| memory.is_held(&condition.tuple))
}

// Whether no write in doubt has its id, or names one of its tuples.
pub(crate) fn is_free(memory: &Memory, part: &ShardPart) -> bool
    ensures { IsTrue result ↔ AreFree memory.now part.now }
{
    if memory.find(part.id()).is_some() {
        return false;
    }
    !changes_held_tuple(memory, part) && !asks_of_held_tuple(memory, part)
}

// Whether its conditions hold here.
pub(crate) fn holds(memory: &Memory, part: &ShardPart) -> bool
    ensures { IsTrue result ↔ HoldHere memory.now part.now.conditions }
{
    part.conditions().all(|condition| memory.holds(condition))
}

fn is_below(condition: &Condition, horizon: u64) -> bool
    ensures { result ≡ is_want_below horizon condition.now.want }
{
    match condition.want {
        Want::NotAfter(place) => place < horizon,
        Want::Exists | Want::Absent => false,
    }
}

// Whether one of its conditions names a place that is collected.
pub(crate) fn is_collected(memory: &Memory, part: &ShardPart) -> bool
    ensures { IsTrue result ↔ AskBelow memory.now.horizon part.now.conditions }
{
    let horizon = memory.horizon();
    part.conditions()
        .any(|condition| is_below(condition, horizon))
}
