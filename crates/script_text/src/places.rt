// The places of a request, from its tokens.
ghost use Rattle.std.specs.Prelude.{◌≡◌, ◌<◌, ◌^◌, MatchResult};
ghost use Rattle.zookie.specs.Zookies.{zookie_text};
ghost use Rattle.json_lines.specs.Spelling.{IsUnread};
ghost use Rattle.script_text.specs.Causes.{IsFresh};
ghost use Rattle.script_text.specs.Shapes.{fresh_view, fresh_word};
ghost use Rattle.script_text.specs.Texts.{IsFreshness, fresh_text};

use crate::shape::FreshShape;
use tuples::{Freshness, Refusal};
use zookie::Zookie;

/// The place of this store that the token names.
pub(crate) fn decode_place(zookie: &[u8], store: u64) -> Result<u64, Refusal>
    ensures { MatchResult result (λ place. (place < 2 ^ 64) × (zookie.now ≡ zookie_text store place)) (IsUnread store (λ IsBad. IsBad zookie.now)) }
{
    let zookie = Zookie::decode(zookie, store)?;
    Ok(zookie.place)
}

/// The freshness of a question.
pub(crate) fn decode_freshness(shape: FreshShape<'_>, store: u64) -> Result<Freshness, Refusal>
    ensures { MatchResult result (λ freshness. (fresh_word (fresh_view shape.entry) ≡ fresh_text store freshness) × IsFreshness freshness) (IsUnread store (λ IsBad. IsFresh IsBad (fresh_view shape.entry))) }
{
    match shape {
        FreshShape::Latest => Ok(Freshness::Latest),
        FreshShape::AtLeast(zookie) => Ok(Freshness::AtLeast(decode_place(zookie, store)?)),
        FreshShape::Exact(zookie) => Ok(Freshness::Exact(decode_place(zookie, store)?)),
    }
}
