// Laws of a flush, each the clause of a function with an empty body.
ghost use Rattle.std.specs.Prelude.{ℕ};
ghost use Rattle.stores.specs.FlushLaws.{CoordinatorFlushesStand, FailedFlushesStand, ShardFlushesStand};

use laws::Leavings;

/// A flush of a shard, by the same records or by others that stand for the same, leaves what the store stands for, whatever it answered.
pub fn flushes_of_shards_leave_the_store_standing<W: Leavings>()
    ensures { (store shards : ℕ) → ShardFlushesStand store shards W.left W.left_after }
{}

/// A flush of the coordinator that answered Ok leaves the store standing with the whole log kept, and the horizon that the coordinator knows.
pub fn flushes_of_the_coordinator_leave_the_store_standing<W: Leavings>()
    ensures { (store shards : ℕ) → CoordinatorFlushesStand store shards W.left W.left_after }
{}

/// A flush of the coordinator that failed leaves the store standing for the same machine, with the coordinator down.
pub fn failed_flushes_leave_the_store_standing<W: Leavings>()
    ensures { (store shards : ℕ) → FailedFlushesStand store shards W.left W.left_after }
{}
