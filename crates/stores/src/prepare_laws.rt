// Laws of the turn in which a shard is asked to prepare, each the clause of a function with an empty body.
ghost use Rattle.std.specs.Prelude.{ℕ};
ghost use Rattle.stores.specs.PrepareLaws.{BrokenShardsHaveCause, BusyShardsHaveCause, CollectedShardsHaveCause, FullShardsHaveCause, PreparedConditionsAreMet};

use laws::Leavings;

/// If a shard finds nothing against its part, the part's conditions are met after the whole log.
pub fn prepared_conditions_are_met<W: Leavings>()
    ensures { (store shards : ℕ) → PreparedConditionsAreMet store shards W.left }
{}

/// If it finds its part's tuples taken, a write in doubt there, other than the flow's own, names one of them.
pub fn busy_shards_have_cause<W: Leavings>()
    ensures { (store shards : ℕ) → BusyShardsHaveCause store shards W.left }
{}

/// If it finds a condition broken, that condition is not met after the whole log.
pub fn broken_shards_have_cause<W: Leavings>()
    ensures { (store shards : ℕ) → BrokenShardsHaveCause store shards W.left }
{}

/// If a condition names a place below the shard's horizon, it names one below that of the whole store.
pub fn collected_shards_have_cause<W: Leavings>()
    ensures { (store shards : ℕ) → CollectedShardsHaveCause store shards W.left }
{}

/// If its batch has no room for the prepare, that is the record for which there was no room.
pub fn full_shards_have_cause<W: Leavings>()
    ensures { (store shards : ℕ) → FullShardsHaveCause store shards W.left }
{}
