// Laws of what the coordinator answers of its log, each the clause of a function with an empty body.
ghost use Rattle.std.specs.Prelude.{ℕ};
ghost use Rattle.stores.specs.HeadsLaws.{BatchesAreRight, BatchesMeetPrepares, HeadsAreRight, SettledIsLearned, ShardsSettle, WatchesAgree};

use laws::Leavings;

/// The kept place and the durable horizon of a coordinator are right heads.
pub fn heads_are_right<W: Leavings>()
    ensures { (store shards : ℕ) → HeadsAreRight store shards W.left }
{}

/// Durable decisions after a place are a right batch.
pub fn batches_are_right<W: Leavings>()
    ensures { (store shards : ℕ) → BatchesAreRight store shards W.left }
{}

/// The writes of a right batch that a shard has not learned are in doubt there with exactly its part: it never answers `Damaged`.
pub fn batches_meet_prepares<W: Leavings>()
    ensures { (store shards : ℕ) → BatchesMeetPrepares store shards W.left }
{}

/// What the durable records of a shard have learned is settled.
pub fn shards_settle<W: Leavings>()
    ensures { (store shards : ℕ) → ShardsSettle store shards W.left }
{}

/// What each shard has settled it has learned, whatever a stop leaves, so the horizon may be raised to it.
pub fn settled_is_learned<W: Leavings>()
    ensures { (store shards : ℕ) → SettledIsLearned store shards W.left }
{}

/// A watch that lists the decisions of its batch answers what agrees.
pub fn watches_agree<W: Leavings>()
    ensures { (store shards : ℕ) → WatchesAgree store shards W.left }
{}
