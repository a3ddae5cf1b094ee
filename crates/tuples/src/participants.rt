// Which shards take part in a write, each as a bit.
ghost use Rattle.std.specs.Prelude.{◌≡◌, ◌≤◌, ◌<◌, ◌^◌, ◌↔◌, ◌++◌, ◌∷◌, [], ℕ, true, List, map, IsBitSet};
ghost use Rattle.tuples.specs.Bits.{AreBitsOf};
ghost use Rattle.tuples.specs.Changes.{tuple_of};
ghost use Rattle.tuples.specs.Parts.{shard_of as shard_number, takes_part, with_id};
ghost use Rattle.tuples.specs.declared.entry.WriteId.{WriteId as AnyId};

use crate::{Change, Condition, Entry, Object, Shards, Write, shard_of};

impl Write {
    /// The shards that its changes and conditions name, in a store of so many shards: bit s for shard s. It takes no
    /// memory.
    pub fn participants(&self, shards: Shards) -> u64
        ensures each { (id : AnyId) (s : ℕ) → IsBitSet result s ↔ (takes_part shards s (with_id id self.now) ≡ true) }
        ensures below { result < 2 ^ shards }
    {
        shards_of_changes(self.changes(), shards) | shards_of_conditions(self.conditions(), shards)
    }
}

impl Entry {
    /// The shards that its changes and conditions name, as of a write without its id.
    pub fn participants(&self, shards: Shards) -> u64
        ensures each { (s : ℕ) → IsBitSet result s ↔ (takes_part shards s self.now ≡ true) }
        ensures below { result < 2 ^ shards }
    {
        shards_of_changes(self.changes.as_slice(), shards)
            | shards_of_conditions(self.conditions.as_slice(), shards)
    }
}

fn shards_of_changes(changes: &[Change], shards: Shards) -> u64
    ensures bits { AreBitsOf (map (λ c. shard_number shards (tuple_of c).object) changes.now) result }
    ensures below { result < 2 ^ shards }
{
    let mut bits = 0;
    for change in changes {
        bits = with_shard(bits, &change.tuple().object, shards);
    }
    bits
}

fn shards_of_conditions(conditions: &[Condition], shards: Shards) -> u64
    ensures bits { AreBitsOf (map (λ c. shard_number shards c.tuple.object) conditions.now) result }
    ensures below { result < 2 ^ shards }
{
    let mut bits = 0;
    for condition in conditions {
        bits = with_shard(bits, &condition.tuple.object, shards);
    }
    bits
}

// The bits and that of the object's shard.
fn with_shard(bits: u64, object: &Object, shards: Shards) -> u64
    ensures bits { (numbers : List ℕ) → AreBitsOf numbers bits → AreBitsOf (numbers ++ shard_number shards object.now ∷ []) result }
    ensures below { bits < 2 ^ shards → result < 2 ^ shards }
{
    let shard = shard_of(object, shards);
    bits | (1 << shard)
}
