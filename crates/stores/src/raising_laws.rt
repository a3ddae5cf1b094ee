// A law of a raised horizon, the clause of a function with an empty body.
ghost use Rattle.std.specs.Prelude.{ℕ};
ghost use Rattle.stores.specs.RaisingLaws.{RaisesStand};

use laws::Leavings;

/// A horizon that the coordinator stages leaves what the store stands for, if each shard has learned up to it.
pub fn horizons_leave_the_store_standing<W: Leavings>()
    ensures { (store shards : ℕ) → RaisesStand store shards W.left }
{}
