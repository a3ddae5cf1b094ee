// Laws of aborts, and of what the coordinator answers of a write, each the clause of a function with an empty body.
ghost use Rattle.std.specs.Prelude.{ℕ};
ghost use Rattle.stores.specs.AbortLaws.{AbortsStand, InquiriesAbort, InquiriesFind, OutcomesAgree, RefusedIntents, RefusedTickets};

use laws::Leavings;

/// A write that is aborted is open no longer, its flow has a right verdict, and the store stands.
pub fn aborts_leave_the_store_standing<W: Leavings>()
    ensures { (store shards : ℕ) → AbortsStand store shards W.left }
{}

/// An id that was given out, and that the coordinator finds neither decided nor open, has a right verdict.
pub fn ids_that_are_not_found_are_aborted<W: Leavings>()
    ensures { (store shards : ℕ) → InquiriesAbort store shards W.left }
{}

/// A durable decision stands in the log at its place, for good.
pub fn decisions_that_are_found_are_kept<W: Leavings>()
    ensures { (store shards : ℕ) → InquiriesFind store shards W.left }
{}

/// A flow whose decision is durable answers the place of its write.
pub fn outcomes_agree<W: Leavings>()
    ensures { (store shards : ℕ) → OutcomesAgree store shards W.left }
{}

/// A flow with its intent whose write is not open was cut off by an opening of the coordinator.
pub fn intents_are_refused_with_cause<W: Leavings>()
    ensures { (store shards : ℕ) → RefusedIntents store shards W.left }
{}

/// A flow with its intent whose prepare is gone was cut off by an opening of the shard, or of the coordinator.
pub fn tickets_are_refused_with_cause<W: Leavings>()
    ensures { (store shards : ℕ) → RefusedTickets store shards W.left }
{}
