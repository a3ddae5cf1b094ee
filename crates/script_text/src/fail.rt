// Failures of a device, as `fail 0a 4 a5`.
ghost use Rattle.std.specs.Prelude.{MatchOption};
ghost use Rattle.script_text.specs.declared.fail.Failure.{Failure as AnyFailure};
ghost use Rattle.script_text.specs.Lines.{SpellsFailure};
ghost use Rattle.script_text.specs.Texts.{IsTear, ReadsText, tear_text};
ghost use Rattle.script_text.specs.Words.{texts};

use crate::node::parse_bank;
use crate::numbers::{parse_count, parse_hex};
use crate::words::three_behind;
use device::Tear;
use journal::Bank;
use names::NodeName;
use tuples::Shards;

/// A failure that is set on one device of a node.
#[derive(Clone, Copy, Debug, PartialEq, Eq)]
pub struct Failure {
    pub node: NodeName,
    pub bank: Bank,
    /// Which call fails from now on, counted from 1.
    pub n: u64,
    pub tear: Tear,
}

/// The failure of these words, in a store of this many shards.
pub(crate) fn parse_fail(words: &[&[u8]], shards: Shards) -> Option<Failure>
    ensures { MatchOption result ((f : AnyFailure) → SpellsFailure shards (texts words.now) f → ⊥) (SpellsFailure shards (texts words.now)) }
{
    let Some((bank, number, tear)) = three_behind(words, b"fail") else {
        return None;
    };
    let Some((node, bank)) = parse_bank(bank, shards) else {
        return None;
    };
    let n = parse_count(number)?;
    let tear = parse_tear(tear)?;
    Some(Failure {
        node,
        bank,
        n,
        tear,
    })
}

fn parse_tear(text: &[u8]) -> Option<Tear>
    ensures { ReadsText IsTear tear_text text.now result }
{
    if text == b"old".as_slice() {
        Some(Tear::Old)
    } else if text == b"new".as_slice() {
        Some(Tear::New)
    } else {
        Some(Tear::Fill(parse_byte(text)?))
    }
}

// The byte of two lower-case hexadecimal digits.
fn parse_byte(text: &[u8]) -> Option<u8>
    ensures { ReadsText (λ b. IsTear (Tear.Fill b)) (λ b. tear_text (Tear.Fill b)) text.now result }
{
    let [high, low] = text else {
        return None;
    };
    Some(parse_hex(*high)? * 16 + parse_hex(*low)?)
}
