// Laws of an opening, each the clause of a function with an empty body.
ghost use Rattle.std.specs.Prelude.{ℕ};
ghost use Rattle.stores.specs.OpeningLaws.{ShardOpeningsStand};

use laws::Leavings;

/// An opening of a shard leaves what the store stands for, whatever the shard was before.
pub fn openings_of_shards_leave_the_store_standing<W: Leavings>()
    ensures { (store shards : ℕ) → ShardOpeningsStand store shards W.left W.left_after }
{}
