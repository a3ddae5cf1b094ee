// Laws of openings of the coordinator, of openings that are refused, and of stops within a step, each the clause of a function with an empty body.
ghost use Rattle.std.specs.Prelude.{ℕ};
ghost use Rattle.turns.specs.ReopenLaws.{ClosedStoresStand};
ghost use Rattle.turns.specs.RestartLaws.{CoordinatorOpeningsStand, RefusedCoordinatorsStand, RefusedShardsStand, ShardOpeningsRestart, StopsWithinSteps};

use laws::Leavings;

/// An opening of the coordinator leaves the store standing for the machine cut to what was found, and is a step of a run.
pub fn openings_of_the_coordinator_leave_the_store_standing<W: Leavings>()
    ensures { (store shards : ℕ) → CoordinatorOpeningsStand store shards W.left W.left_after }
{}

/// So does one that is refused, for the same machine.
pub fn refused_openings_of_the_coordinator_leave_the_store_standing<W: Leavings>()
    ensures { (store shards : ℕ) → RefusedCoordinatorsStand store shards W.left W.left_after }
{}

/// So does an opening of a shard that is refused.
pub fn refused_openings_of_shards_leave_the_store_standing<W: Leavings>()
    ensures { (store shards : ℕ) → RefusedShardsStand store shards W.left W.left_after }
{}

/// A stop at any moment of a step leaves what means a beginning of the log that holds what is kept.
pub fn stops_within_a_step_leave_all_at_rest<W: Leavings>()
    ensures { (store shards : ℕ) → StopsWithinSteps store shards W.left W.left_after }
{}

/// A store that is closed stands with all nodes down, for the machine cut to what its coordinator finds; so each node may be opened.
pub fn closed_stores_stand<W: Leavings>()
    ensures { (store shards : ℕ) → ClosedStoresStand store shards W.left W.left_after }
{}

/// An opening of a shard is a step of a run.
pub fn openings_of_shards_are_steps<W: Leavings>()
    ensures { (store shards : ℕ) → ShardOpeningsRestart store shards W.left W.left_after }
{}
