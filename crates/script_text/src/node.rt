// The nodes of a store, by their texts.
ghost use Rattle.std.specs.Prelude.{◌<◌, ℕ, MatchOption};
ghost use Rattle.std.specs.Fmt.{decimal};
ghost use Rattle.names.specs.declared.node_name.NodeName.{NodeName as AnyNode};
ghost use Rattle.script_text.specs.Lines.{SpellsRestart, SpellsRows};
ghost use Rattle.script_text.specs.Texts.{IsNode, ReadsText, bank_text, node_text};
ghost use Rattle.script_text.specs.Words.{texts};

use crate::numbers::parse_place;
use crate::words::one_behind;
use journal::Bank;
use names::NodeName;
use tuples::Shards;

/// The node with this text, in a store of this many shards.
pub(crate) fn parse_node(text: &[u8], shards: Shards) -> Option<NodeName>
    ensures { ReadsText (IsNode shards) node_text text.now result }
{
    if text == b"c".as_slice() {
        return Some(NodeName::Coordinator);
    }
    Some(NodeName::Shard(parse_shard(text, shards)?))
}

/// The number of a shard, in a store of this many.
pub(crate) fn parse_shard(text: &[u8], shards: Shards) -> Option<u8>
    ensures { ReadsText (λ n. n < shards) decimal text.now result }
{
    let shard = parse_place(text)?;
    if shard >= u64::from(shards.count()) {
        return None;
    }
    Some(shard as u8)
}

/// A node and one of its banks, as `ca` or `0b`.
pub(crate) fn parse_bank(text: &[u8], shards: Shards) -> Option<(NodeName, Bank)>
    ensures { ReadsText (λ p. IsNode shards p.0) (λ p. bank_text p.0 p.1) text.now result }
{
    let (letter, node) = text.split_last()?;
    let node = parse_node(node, shards)?;
    match *letter {
        b'a' => Some((node, Bank::A)),
        b'b' => Some((node, Bank::B)),
        _ => None,
    }
}

/// The shard whose versions are asked for by these words, as `rows 0`.
pub(crate) fn parse_rows(words: &[&[u8]], shards: Shards) -> Option<u8>
    ensures { MatchOption result ((shard : ℕ) → SpellsRows shards (texts words.now) shard → ⊥) (SpellsRows shards (texts words.now)) }
{
    parse_shard(one_behind(words, b"rows")?, shards)
}

/// The node that is opened again by these words, as `restart c`.
pub(crate) fn parse_restart(words: &[&[u8]], shards: Shards) -> Option<NodeName>
    ensures { MatchOption result ((node : AnyNode) → SpellsRestart shards (texts words.now) node → ⊥) (SpellsRestart shards (texts words.now)) }
{
    parse_node(one_behind(words, b"restart")?, shards)
}
