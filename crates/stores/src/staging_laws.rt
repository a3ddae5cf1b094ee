// Laws of a shard that stages one more record, each the clause of a function with an empty body.
ghost use Rattle.std.specs.Prelude.{ℕ};
ghost use Rattle.stores.specs.StagingLaws.{CollectsStand, DropsStand, LearnsStand, PreparesStand};

use laws::Leavings;

/// A shard that stages its part of a flow's write leaves what the store stands for.
pub fn prepares_leave_the_store_standing<W: Leavings>()
    ensures { (store shards : ℕ) → PreparesStand store shards W.left }
{}

/// So does one that stages a drop of an aborted write.
pub fn drops_leave_the_store_standing<W: Leavings>()
    ensures { (store shards : ℕ) → DropsStand store shards W.left }
{}

/// So does one that stages the record of learning a batch.
pub fn learned_writes_leave_the_store_standing<W: Leavings>()
    ensures { (store shards : ℕ) → LearnsStand store shards W.left }
{}

/// So does one that stages a horizon at or below the machine's.
pub fn collected_rows_leave_the_store_standing<W: Leavings>()
    ensures { (store shards : ℕ) → CollectsStand store shards W.left }
{}
