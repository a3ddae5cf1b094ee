// Whether the votes for a write are exactly one of each shard that takes part in it.
ghost use Rattle.std.specs.Prelude.{ℕ, ◌≢◌, ◌↔◌, ◌<◌, ◌≤◌, IsTrue, IsBitSet};
ghost use Rattle.tuples.specs.Limits.{max_shards};
ghost use Rattle.decisions.specs.Coordinators.{HaveVoted};

use decisions::{Intent, Vote};
use tuples::Shards;

// Shards as the bits of one number: whether the bit of this one is set.
fn is_set(bits: u64, shard: u8) -> bool
    requires { shard < max_shards }
    ensures { IsTrue result ↔ IsBitSet bits shard }
{
    bits & (1 << shard) != 0
}

// The bits but that of the shard.
fn without(bits: u64, shard: u8) -> u64
    requires { shard < max_shards }
    ensures others { (s : ℕ) → s < max_shards → IsBitSet result s ↔ (IsBitSet bits s × (s ≢ shard)) }
    ensures few { result ≤ bits }
{
    bits & !(1 << shard)
}

/// Whether the votes are exactly one of each shard that takes part in the write, in a store of so many shards: each of them has voted, there
/// is no vote of another shard or for another write, and none twice. It takes no memory.
pub fn votes_match(shards: Shards, intent: &Intent, votes: &[Vote]) -> bool
    ensures { IsTrue result ↔ HaveVoted shards intent.now.write votes.now }
{
    let count = shards.count();
    let id = intent.id();
    let mut missing = intent.participants(shards);
    for vote in votes {
        let shard = vote.shard();
        if vote.id() != id || shard >= count || !is_set(missing, shard) {
            return false;
        }
        missing = without(missing, shard);
    }
    missing == 0
}
