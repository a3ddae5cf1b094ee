// The number of shards to which a store is carried over, as `reshard 3`.
ghost use Rattle.std.specs.Prelude.{ℕ, MatchOption};
ghost use Rattle.std.specs.Fmt.{decimal};
ghost use Rattle.script_text.specs.Lines.{SpellsReshard};
ghost use Rattle.script_text.specs.Texts.{IsShardCount, ReadsText};
ghost use Rattle.script_text.specs.Words.{texts};

use crate::numbers::parse_count;
use crate::words::one_behind;
use tuples::{MAX_SHARDS, Shards};

/// How many shards the store is to have by these words.
pub(crate) fn parse_reshard(words: &[&[u8]]) -> Option<Shards>
    ensures { MatchOption result ((shards : ℕ) → SpellsReshard (texts words.now) shards → ⊥) (SpellsReshard (texts words.now)) }
{
    parse_shard_count(one_behind(words, b"reshard")?)
}

// A number of shards that a store may have.
fn parse_shard_count(text: &[u8]) -> Option<Shards>
    ensures { ReadsText IsShardCount decimal text.now result }
{
    let count = parse_count(text)?;
    if count > u64::from(MAX_SHARDS) {
        return None;
    }
    Some(Shards::of(count as u8))
}
