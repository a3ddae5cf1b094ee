// Lists of texts, changes and conditions.
ghost use Rattle.std.specs.Prelude.{◌≡◌, ◌≢◌, List, ℕ, MatchOption, MatchResult, codes, map};
ghost use Rattle.serde_json.specs.Data.{Items, array};
ghost use Rattle.serde_json.specs.View.{view};
ghost use Rattle.json_lines.specs.Shapes.{IsMisshapen, change_json, condition_json, list_with, texts_json, want_with, wanted_json};

use crate::member::{members_of, text_of, two_texts};
use crate::shape::{ChangeShape, ConditionShape, WantShape};
use serde_json::Value;
use std::alloc::Global;
use tuples::Refusal;

/// The texts that the value is a list of.
pub(crate) fn texts_of(alloc: Global, value: &Value) -> Result<Vec<&str>, Refusal>
    ensures { MatchResult result (λ texts. view value.now ≡ texts_json (map (λ t. t.now) texts.items)) (IsMisshapen (λ texts. view value.now ≡ texts_json texts)) }
{
    let Some(items) = list_of(value) else {
        return Err(Refusal::BadRequest);
    };
    let mut texts = Vec::with_capacity(alloc, items.len())?;
    for item in items {
        let Some(text) = text_of(item) else {
            return Err(Refusal::BadRequest);
        };
        texts.push_reserved(text);
    }
    Ok(texts)
}

/// The changes that the value is a list of.
pub(crate) fn changes_of(alloc: Global, value: &Value) -> Result<Vec<ChangeShape<'_>>, Refusal>
    ensures { MatchResult result (λ changes. view value.now ≡ list_with (map change_json changes.items)) (IsMisshapen (λ changes. view value.now ≡ list_with (map change_json changes))) }
{
    let Some(items) = list_of(value) else {
        return Err(Refusal::BadRequest);
    };
    let mut changes = Vec::with_capacity(alloc, items.len())?;
    for item in items {
        changes.push_reserved(change_of(alloc, item)?);
    }
    Ok(changes)
}

/// The conditions that the value is a list of.
pub(crate) fn conditions_of(
    alloc: Global,
    value: &Value,
) -> Result<Vec<ConditionShape<'_>>, Refusal>
    ensures { MatchResult result (λ conditions. view value.now ≡ list_with (map condition_json conditions.items)) (IsMisshapen (λ conditions. view value.now ≡ list_with (map condition_json conditions))) }
{
    let Some(items) = list_of(value) else {
        return Err(Refusal::BadRequest);
    };
    let mut conditions = Vec::with_capacity(alloc, items.len())?;
    for item in items {
        conditions.push_reserved(condition_of(alloc, item)?);
    }
    Ok(conditions)
}

// The items of a list.
fn list_of(value: &Value) -> Option<&[Value]>
    ensures { MatchOption result ((items : Items) → view value.now ≡ array items → ⊥) (λ items. view value.now ≡ list_with (map view items.now)) }
{
    match value.as_array() {
        None => None,
        Some(items) => Some(items),
    }
}

// `{"op":"touch","tuple":T}`
fn change_of(alloc: Global, value: &Value) -> Result<ChangeShape<'_>, Refusal>
    ensures { MatchResult result (λ change. view value.now ≡ change_json change) (IsMisshapen (λ change. view value.now ≡ change_json change)) }
{
    let members = members_of(alloc, value)?;
    let Some((op, tuple)) = two_texts(&members, "op", "tuple") else {
        return Err(Refusal::BadRequest);
    };
    if op == "touch" {
        Ok(ChangeShape::Touch(tuple))
    } else if op == "delete" {
        Ok(ChangeShape::Delete(tuple))
    } else {
        Err(Refusal::BadRequest)
    }
}

// `{"since":Z,"tuple":T}` or `{"tuple":T,"want":"exists"}`
fn condition_of(alloc: Global, value: &Value) -> Result<ConditionShape<'_>, Refusal>
    ensures { MatchResult result (λ condition. view value.now ≡ condition_json condition) (IsMisshapen (λ condition. view value.now ≡ condition_json condition)) }
{
    let members = members_of(alloc, value)?;
    if let Some((zookie, tuple)) = two_texts(&members, "since", "tuple") {
        let want = WantShape::Since(zookie);
        return Ok(ConditionShape { tuple, want });
    }
    let Some((tuple, want)) = two_texts(&members, "tuple", "want") else {
        return Err(Refusal::BadRequest);
    };
    let Some(want) = want_of(want) else {
        return Err(Refusal::BadRequest);
    };
    Ok(ConditionShape { tuple, want })
}

fn want_of(text: &str) -> Option<WantShape<'_>>
    ensures { MatchOption result ((text.now ≢ codes "exists") × (text.now ≢ codes "absent")) (λ want. (tuple : List ℕ) → wanted_json want tuple ≡ want_with text.now tuple) }
{
    if text == "exists" {
        Some(WantShape::Exists)
    } else if text == "absent" {
        Some(WantShape::Absent)
    } else {
        None
    }
}
