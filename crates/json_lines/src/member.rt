// The members of an object, in the order of their keys.
ghost use Rattle.std.specs.Prelude.{◌≡◌, ◌∷◌, [], List, ℕ, IfOk, MatchOption, MatchResult};
ghost use Rattle.serde_json.specs.Data.{Data, object, string};
ghost use Rattle.serde_json.specs.View.{view};
ghost use Rattle.json_lines.specs.Shapes.{Field, IsMisshapen, entry_fields, fields_of, object_with};

use serde_json::{Map, Value};
use std::alloc::{AllocError, Global};
use tuples::Refusal;

/// A key and its value.
#[derive(Clone, Copy)]
pub(crate) struct Member<'a> {
    pub key: &'a str,
    pub value: &'a Value,
}

/// The members of the value.
pub(crate) fn members_of(alloc: Global, value: &Value) -> Result<Vec<Member<'_>>, Refusal>
    ensures { MatchResult result (λ members. view value.now ≡ object_with (fields_of members.items)) (IsMisshapen (λ ms. view value.now ≡ object ms)) }
{
    let Some(map) = value.as_object() else {
        return Err(Refusal::BadRequest);
    };
    Ok(entries_of(alloc, map)?)
}

fn entries_of(alloc: Global, map: &Map<String, Value>) -> Result<Vec<Member<'_>>, AllocError>
    ensures { IfOk result (λ members. fields_of members.items ≡ entry_fields map.now.entries) }
{
    let mut members = Vec::with_capacity(alloc, map.len())?;
    for (key, value) in map {
        let key = key.as_str();
        members.push(Member { key, value })?;
    }
    Ok(members)
}

/// The value of the first member and the members after it, if it has this key.
pub(crate) fn take<'a, 'b>(
    members: &'b [Member<'a>],
    key: &str,
) -> Option<(&'a Value, &'b [Member<'a>])>
    ensures { MatchOption result ((d : Data) (rest : List Field) → fields_of members.now ≡ (key.now, d) ∷ rest → ⊥) (λ p. fields_of members.now ≡ (key.now, view p.0.now) ∷ fields_of p.1.now) }
{
    let Some((first, rest)) = members.split_first() else {
        return None;
    };
    if first.key == key {
        Some((first.value, rest))
    } else {
        None
    }
}

/// The text that the value is.
pub(crate) fn text_of(value: &Value) -> Option<&str>
    ensures { MatchOption result ((text : List ℕ) → view value.now ≡ string text → ⊥) (λ text. view value.now ≡ string text.now) }
{
    value.as_str()
}

/// The two texts of an object that has these keys, in this order, and no other.
pub(crate) fn two_texts<'a>(
    members: &[Member<'a>],
    first: &str,
    second: &str,
) -> Option<(&'a str, &'a str)>
    ensures { MatchOption result ((a b : List ℕ) → fields_of members.now ≡ (first.now, string a) ∷ (second.now, string b) ∷ [] → ⊥) (λ p. fields_of members.now ≡ (first.now, string p.0.now) ∷ (second.now, string p.1.now) ∷ []) }
{
    let (a, rest) = take(members, first)?;
    let (b, rest) = take(rest, second)?;
    if !rest.is_empty() {
        return None;
    }
    let a = text_of(a)?;
    let b = text_of(b)?;
    Some((a, b))
}
