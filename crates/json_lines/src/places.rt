// The places of a request, from its zookies.
ghost use Rattle.std.specs.Prelude.{◌≡◌, ◌<◌, ◌^◌, IfErr, IfOk, MatchResult, map};
ghost use Rattle.tuples.specs.Changes.{conditioned};
ghost use Rattle.zookie.specs.Zookies.{zookie_text};
ghost use Rattle.json_lines.specs.Causes.{ArePlaced, AreTuples, conditioned_text, IsFresh, IsMisplaced};
ghost use Rattle.json_lines.specs.Lines.{written_condition, written_freshness};
ghost use Rattle.json_lines.specs.Shapes.{condition_json, freshness_fields};
ghost use Rattle.json_lines.specs.Spelling.{IsUnplaced, IsUnread, ReadsWant};

use crate::shape::{ConditionShape, FreshnessShape, WantShape};
use std::alloc::Global;
use tuples::{Condition, Freshness, Refusal, Tuple, Want};
use zookie::Zookie;

/// The place of this store that the zookie names.
pub(crate) fn decode_place(zookie: &str, store: u64) -> Result<u64, Refusal>
    ensures { MatchResult result (λ place. (place < 2 ^ 64) × (zookie.now ≡ zookie_text store place)) (IsUnread store (λ IsBad. IsBad zookie.now)) }
{
    let zookie = Zookie::decode(zookie.as_bytes(), store)?;
    Ok(zookie.place)
}

/// The freshness of a question.
pub(crate) fn decode_freshness(shape: FreshnessShape<'_>, store: u64) -> Result<Freshness, Refusal>
    ensures { MatchResult result (λ freshness. freshness_fields shape.entry ≡ written_freshness store freshness) (IsUnread store (λ IsBad. IsFresh IsBad shape.entry)) }
{
    match shape {
        FreshnessShape::Latest => Ok(Freshness::Latest),
        FreshnessShape::AtLeast(zookie) => Ok(Freshness::AtLeast(decode_place(zookie, store)?)),
        FreshnessShape::Exact(zookie) => Ok(Freshness::Exact(decode_place(zookie, store)?)),
    }
}

fn decode_want(shape: WantShape<'_>, store: u64) -> Result<Want, Refusal>
    ensures { MatchResult result (ReadsWant store shape.entry) (IsUnread store (λ IsBad. IsMisplaced IsBad shape.entry)) }
{
    match shape {
        WantShape::Since(zookie) => Ok(Want::NotAfter(decode_place(zookie, store)?)),
        WantShape::Exists => Ok(Want::Exists),
        WantShape::Absent => Ok(Want::Absent),
    }
}

/// The conditions with these tuples, one for each.
pub(crate) fn decode_conditions(
    alloc: Global,
    shapes: &[ConditionShape<'_>],
    tuples: Vec<Tuple>,
    store: u64,
) -> Result<Vec<Condition>, Refusal>
    requires { AreTuples (map conditioned_text shapes.now) tuples.items }
    ensures ok { IfOk result (λ conditions. (map condition_json shapes.now ≡ map (written_condition store) conditions.items) × (conditioned conditions.items ≡ tuples.items) × ArePlaced store shapes.now) }
    ensures err { IfErr result (IsUnplaced store shapes.now) }
{
    let mut conditions = Vec::with_capacity(alloc, shapes.len())?;
    for tuple in tuples {
        let shape = &shapes[conditions.len()];
        match decode_want(shape.want, store) {
            Ok(want) => conditions.push_reserved(Condition { tuple, want }),
            Err(refusal) => {
                drop(tuple);
                return Err(refusal);
            }
        }
    }
    Ok(conditions)
}
