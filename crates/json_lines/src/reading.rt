// Which request the members of an object are.
ghost use Rattle.std.specs.Prelude.{◌≡◌, ◌≤◌, ◌∷◌, ◌↔◌, [], List, ℕ, IsTrue, MatchOption, MatchResult, codes, length, map};
ghost use Rattle.tuples.specs.Limits.{max_watched};
ghost use Rattle.serde_json.specs.Data.{Data, number, string, unsigned};
ghost use Rattle.serde_json.specs.View.{view};
ghost use Rattle.json_lines.specs.declared.shape.FreshnessShape.{FreshnessShape as AnyFreshness};
ghost use Rattle.json_lines.specs.Shapes.{Field, IsBehind, IsMisshapen, OpensWith, ReadsShape, asks_sets, asks_tuple, fields_of, freshness_fields, question_with, watch_end, watch_rest};

use crate::lists::{changes_of, conditions_of, texts_of};
use crate::member::{Member, take, text_of};
use crate::shape::{FreshnessShape, Shape};
use serde_json::Value;
use std::alloc::Global;
use tuples::{MAX_WATCHED, Refusal};

/// The request that has these members.
pub(crate) fn shape_of<'a>(alloc: Global, members: &[Member<'a>]) -> Result<Shape<'a>, Refusal>
    ensures { ReadsShape (fields_of members.now) result }
{
    if let Some((changes, rest)) = take(members, "changes") {
        return write_of(alloc, changes, rest);
    }
    if let Some((from, rest)) = take(members, "from") {
        return watch_of(alloc, from, rest);
    }
    question_of(alloc, members)
}

fn write_of<'a>(
    alloc: Global,
    changes: &'a Value,
    rest: &[Member<'a>],
) -> Result<Shape<'a>, Refusal>
    ensures { ReadsShape ((codes "changes", view changes.now) ∷ fields_of rest.now) result }
{
    let changes = changes_of(alloc, changes)?;
    if changes.is_empty() {
        return Err(Refusal::BadRequest);
    }
    let Some((conditions, rest)) = take(rest, "conditions") else {
        if !is_op(rest, "write") {
            return Err(Refusal::BadRequest);
        }
        let conditions = None;
        return Ok(Shape::Write {
            changes,
            conditions,
        });
    };
    let conditions = Some(conditions_of(alloc, conditions)?);
    if !is_op(rest, "write") {
        return Err(Refusal::BadRequest);
    }
    Ok(Shape::Write {
        changes,
        conditions,
    })
}

fn watch_of<'a>(alloc: Global, from: &'a Value, rest: &[Member<'a>]) -> Result<Shape<'a>, Refusal>
    ensures { ReadsShape ((codes "from", view from.now) ∷ fields_of rest.now) result }
{
    let Some((from, limit, namespaces)) = watch_parts(from, rest) else {
        return Err(Refusal::BadRequest);
    };
    let namespaces = texts_of(alloc, namespaces)?;
    if namespaces.is_empty() {
        return Err(Refusal::BadRequest);
    }
    Ok(Shape::Watch {
        from,
        limit,
        namespaces,
    })
}

// The cursor, the limit and the value of the namespaces.
fn watch_parts<'a>(from: &'a Value, rest: &[Member<'a>]) -> Option<(&'a str, u16, &'a Value)>
    ensures { MatchOption result ((z : List ℕ) (n : ℕ) (d : Data) → 1 ≤ n → n ≤ max_watched → view from.now ≡ string z → fields_of rest.now ≡ watch_rest n d → ⊥) (λ p. (view from.now ≡ string p.0.now) × (1 ≤ p.1) × (p.1 ≤ max_watched) × (fields_of rest.now ≡ watch_rest p.1 (view p.2.now))) }
{
    let from = text_of(from)?;
    let (limit, rest) = take(rest, "limit")?;
    let limit = limit_of(limit)?;
    let namespaces = watched(rest)?;
    Some((from, limit, namespaces))
}

// The value of the namespaces, after the limit.
fn watched<'a>(rest: &[Member<'a>]) -> Option<&'a Value>
    ensures { MatchOption result ((d : Data) → fields_of rest.now ≡ watch_end d → ⊥) (λ d. fields_of rest.now ≡ watch_end (view d.now)) }
{
    let Some((namespaces, rest)) = take(rest, "namespaces") else {
        return None;
    };
    if !is_op(rest, "watch") {
        return None;
    }
    Some(namespaces)
}

fn limit_of(value: &Value) -> Option<u16>
    ensures { MatchOption result ((n : ℕ) → 1 ≤ n → n ≤ max_watched → view value.now ≡ number (unsigned n) → ⊥) (λ n. (1 ≤ n) × (n ≤ max_watched) × (view value.now ≡ number (unsigned n))) }
{
    let limit = value.as_u64()?;
    if limit < 1 || limit > MAX_WATCHED {
        return None;
    }
    Some(limit as u16)
}

// Whether the op is the one member that is left.
fn is_op(members: &[Member<'_>], op: &str) -> bool
    ensures { IsTrue result ↔ (fields_of members.now ≡ (codes "op", string op.now) ∷ []) }
{
    let Some((value, rest)) = take(members, "op") else {
        return false;
    };
    let Some(text) = text_of(value) else {
        return false;
    };
    text == op && rest.is_empty()
}

fn question_of<'a>(alloc: Global, members: &[Member<'a>]) -> Result<Shape<'a>, Refusal>
    requires changes { (d : Data) (rest : List Field) → fields_of members.now ≡ (codes "changes", d) ∷ rest → ⊥ }
    requires from { (d : Data) (rest : List Field) → fields_of members.now ≡ (codes "from", d) ∷ rest → ⊥ }
    ensures { ReadsShape (fields_of members.now) result }
{
    let Some((freshness, op, asked)) = split_question(members) else {
        return Err(Refusal::BadRequest);
    };
    if op == "read" {
        let sets = sets_of(alloc, &asked)?;
        return Ok(Shape::Read { freshness, sets });
    }
    if op == "check" {
        let Some(tuple) = tuple_of(&asked) else {
            return Err(Refusal::BadRequest);
        };
        return Ok(Shape::Check { freshness, tuple });
    }
    Err(Refusal::BadRequest)
}

// The tuplesets of a read.
fn sets_of<'a>(alloc: Global, asked: &Member<'a>) -> Result<Vec<&'a str>, Refusal>
    ensures { MatchResult result (λ sets. (1 ≤ length sets.items) × ((asked.now.key.now, view asked.now.value.now) ≡ asks_sets (map (λ t. t.now) sets.items))) (IsMisshapen (λ sets. (1 ≤ length sets) × ((asked.now.key.now, view asked.now.value.now) ≡ asks_sets sets))) }
{
    if asked.key != "sets" {
        return Err(Refusal::BadRequest);
    }
    let sets = texts_of(alloc, asked.value)?;
    if sets.is_empty() {
        return Err(Refusal::BadRequest);
    }
    Ok(sets)
}

// The tuple of a check.
fn tuple_of<'a>(asked: &Member<'a>) -> Option<&'a str>
    ensures { MatchOption result ((t : List ℕ) → (asked.now.key.now, view asked.now.value.now) ≡ asks_tuple t → ⊥) (λ t. (asked.now.key.now, view asked.now.value.now) ≡ asks_tuple t.now) }
{
    if asked.key != "tuple" {
        return None;
    }
    text_of(asked.value)
}

// The freshness of a question, its op, and the member that says what is asked.
fn split_question<'a>(members: &[Member<'a>]) -> Option<(FreshnessShape<'a>, &'a str, Member<'a>)>
    ensures { MatchOption result ((f : AnyFreshness) (op : List ℕ) (asked : Field) → fields_of members.now ≡ question_with (freshness_fields f) op asked → ⊥) (λ q. fields_of members.now ≡ question_with (freshness_fields q.0) q.1.now (q.2.key.now, view q.2.value.now)) }
{
    let (freshness, rest) = freshness_of(members)?;
    let (op, rest) = take(rest, "op")?;
    let op = text_of(op)?;
    let [asked] = rest else {
        return None;
    };
    Some((freshness, op, *asked))
}

// The freshness, and the members after it.
fn freshness_of<'a, 'b>(members: &'b [Member<'a>]) -> Option<(FreshnessShape<'a>, &'b [Member<'a>])>
    ensures { MatchOption result ((f : AnyFreshness) (op : Data) (asked : List Field) → OpensWith (fields_of members.now) f op asked → ⊥) (λ p. IsBehind (fields_of members.now) p.0 (fields_of p.1.now)) }
{
    if let Some((zookie, rest)) = take(members, "at_least") {
        let zookie = text_of(zookie)?;
        return Some((FreshnessShape::AtLeast(zookie), rest));
    }
    if let Some((zookie, rest)) = take(members, "exact") {
        let zookie = text_of(zookie)?;
        return Some((FreshnessShape::Exact(zookie), rest));
    }
    Some((FreshnessShape::Latest, members))
}
