// The tuples, tuplesets and namespaces of a request, from their texts.
ghost use Rattle.std.specs.Prelude.{◌≡◌, All, MatchResult, map};
ghost use Rattle.tuples.specs.Changes.{changed};
ghost use Rattle.tuples.specs.Names.{IsName};
ghost use Rattle.tuples.specs.Texts.{IsTuple, tuple_text};
ghost use Rattle.json_lines.specs.Causes.{AreSets, AreTuples, changed_text, conditioned_text};
ghost use Rattle.json_lines.specs.Lines.{written_change};
ghost use Rattle.json_lines.specs.Spelling.{IsMisspelled, ReadsChange};
ghost use Rattle.json_lines.specs.Shapes.{change_json};

use crate::shape::{ChangeShape, ConditionShape};
use std::alloc::Global;
use tuples::{Change, Namespace, Refusal, Tuple, Tupleset};

/// The changes of these texts.
pub(crate) fn parse_changes(
    alloc: Global,
    shapes: &[ChangeShape<'_>],
) -> Result<Vec<Change>, Refusal>
    ensures { MatchResult result (λ changes. (map change_json shapes.now ≡ map written_change changes.items) × AreTuples (map changed_text shapes.now) (changed changes.items)) (IsMisspelled (AreTuples (map changed_text shapes.now))) }
{
    let mut changes = Vec::with_capacity(alloc, shapes.len())?;
    for shape in shapes {
        changes.push_reserved(parse_change(alloc, shape)?);
    }
    Ok(changes)
}

fn parse_change(alloc: Global, shape: &ChangeShape<'_>) -> Result<Change, Refusal>
    ensures { MatchResult result (ReadsChange shape.now) (IsMisspelled (λ t. IsTuple t × (changed_text shape.now ≡ tuple_text t))) }
{
    match shape {
        ChangeShape::Touch(tuple) => Ok(Change::Touch(parse_tuple(alloc, tuple)?)),
        ChangeShape::Delete(tuple) => Ok(Change::Delete(parse_tuple(alloc, tuple)?)),
    }
}

/// The tuple of this text.
pub(crate) fn parse_tuple(alloc: Global, text: &str) -> Result<Tuple, Refusal>
    ensures { MatchResult result (λ t. IsTuple t × (text.now ≡ tuple_text t)) (IsMisspelled (λ t. IsTuple t × (text.now ≡ tuple_text t))) }
{
    Tuple::parse(alloc, text.as_bytes())
}

/// The tuples that the conditions name.
pub(crate) fn parse_conditioned(
    alloc: Global,
    conditions: &[ConditionShape<'_>],
) -> Result<Vec<Tuple>, Refusal>
    ensures { MatchResult result (λ tuples. AreTuples (map conditioned_text conditions.now) tuples.items) (IsMisspelled (AreTuples (map conditioned_text conditions.now))) }
{
    let mut tuples = Vec::with_capacity(alloc, conditions.len())?;
    for condition in conditions {
        tuples.push_reserved(parse_tuple(alloc, condition.tuple)?);
    }
    Ok(tuples)
}

/// The tuplesets of these texts.
pub(crate) fn parse_sets(alloc: Global, texts: &[&str]) -> Result<Vec<Tupleset>, Refusal>
    ensures { MatchResult result (λ sets. AreSets (map (λ t. t.now) texts.now) sets.items) (IsMisspelled (AreSets (map (λ t. t.now) texts.now))) }
{
    let mut sets = Vec::with_capacity(alloc, texts.len())?;
    for text in texts {
        sets.push_reserved(Tupleset::parse(alloc, text.as_bytes())?);
    }
    Ok(sets)
}

/// The namespaces of these texts.
pub(crate) fn parse_namespaces(alloc: Global, texts: &[&str]) -> Result<Vec<Namespace>, Refusal>
    ensures { MatchResult result (λ names. (map (λ t. t.now) texts.now ≡ names.items) × All IsName names.items) (IsMisspelled (λ names. (map (λ t. t.now) texts.now ≡ names) × All IsName names)) }
{
    let mut names = Vec::with_capacity(alloc, texts.len())?;
    for text in texts {
        names.push_reserved(Namespace::parse(alloc, text.as_bytes())?);
    }
    Ok(names)
}
