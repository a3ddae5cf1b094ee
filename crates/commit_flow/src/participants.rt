// The shards that take part in a write, one after another.
ghost use Rattle.std.specs.Prelude.{◌≤◌, ◌<◌, ◌↔◌, IsBitSet, IsTrue};
ghost use Rattle.commit_flow.specs.Participants.{IsNextShard};

use decisions::Intent;
use tuples::Shards;

fn has_shard(bits: u64, shard: u8) -> bool
    requires { shard < 64 }
    ensures { IsTrue result ↔ IsBitSet bits shard }
{
    bits & (1 << shard) != 0
}

/// The first shard from a number on that takes part in the write.
pub(crate) fn next_shard(intent: &Intent, shards: Shards, from: u8) -> Option<u8>
    ensures { IsNextShard shards intent.now.write from result }
{
    let bits = intent.participants(shards);
    for shard in from..shards.count() {
        if has_shard(bits, shard) {
            return Some(shard);
        }
    }
    None
}
