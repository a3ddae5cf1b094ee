// Cares, as `flush c` or `raise 3`.
ghost use Rattle.std.specs.Prelude.{MatchOption};
ghost use Rattle.names.specs.declared.care.Care.{Care as AnyCare};
ghost use Rattle.script_text.specs.Lines.{SpellsCare};
ghost use Rattle.script_text.specs.Words.{texts};

use crate::node::{parse_node, parse_shard};
use crate::numbers::parse_place;
use crate::words::one_behind;
use names::Care;
use tuples::Shards;

/// The care of these words, in a store of this many shards.
pub(crate) fn parse_care(words: &[&[u8]], shards: Shards) -> Option<Care>
    ensures { MatchOption result ((care : AnyCare) → SpellsCare shards (texts words.now) care → ⊥) (SpellsCare shards (texts words.now)) }
{
    if let Some(node) = one_behind(words, b"flush") {
        return Some(Care::Flush(parse_node(node, shards)?));
    }
    if let Some(node) = one_behind(words, b"checkpoint") {
        return Some(Care::Checkpoint(parse_node(node, shards)?));
    }
    if let Some(shard) = one_behind(words, b"learn") {
        return Some(Care::Learn(parse_shard(shard, shards)?));
    }
    if let Some(shard) = one_behind(words, b"resolve") {
        return Some(Care::Resolve(parse_shard(shard, shards)?));
    }
    if let Some(place) = one_behind(words, b"raise") {
        return Some(Care::Raise(parse_place(place)?));
    }
    let shard = one_behind(words, b"collect")?;
    Some(Care::Collect(parse_shard(shard, shards)?))
}
