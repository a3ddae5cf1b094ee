// The changes, tuplesets and namespaces of a request, from their texts.
ghost use Rattle.std.specs.Prelude.{◌≡◌, All, MatchResult};
ghost use Rattle.tuples.specs.Names.{IsName};
ghost use Rattle.json_lines.specs.Causes.{AreSets};
ghost use Rattle.json_lines.specs.Spelling.{IsMisspelled};
ghost use Rattle.script_text.specs.Words.{AreChanges, IsChangeOf, texts as texts_of};

use std::alloc::Global;
use tuples::{Change, Namespace, Refusal, Tuple, Tupleset};

/// The changes of these words.
pub(crate) fn parse_changes(alloc: Global, words: &[&[u8]]) -> Result<Vec<Change>, Refusal>
    ensures { MatchResult result (λ changes. AreChanges (texts_of words.now) changes.items) (IsMisspelled (AreChanges (texts_of words.now))) }
{
    let mut changes = Vec::with_capacity(alloc, words.len())?;
    for word in words {
        changes.push_reserved(parse_change(alloc, word)?);
    }
    Ok(changes)
}

fn parse_change(alloc: Global, word: &[u8]) -> Result<Change, Refusal>
    ensures { MatchResult result (IsChangeOf word.now) (IsMisspelled (IsChangeOf word.now)) }
{
    match word.split_first() {
        Some((b'+', tuple)) => Ok(Change::Touch(Tuple::parse(alloc, tuple)?)),
        Some((b'-', tuple)) => Ok(Change::Delete(Tuple::parse(alloc, tuple)?)),
        _ => Err(Refusal::BadTuple),
    }
}

/// The tuplesets of these words.
pub(crate) fn parse_sets(alloc: Global, words: &[&[u8]]) -> Result<Vec<Tupleset>, Refusal>
    ensures { MatchResult result (λ sets. AreSets (texts_of words.now) sets.items) (IsMisspelled (AreSets (texts_of words.now))) }
{
    let mut sets = Vec::with_capacity(alloc, words.len())?;
    for word in words {
        sets.push_reserved(Tupleset::parse(alloc, word)?);
    }
    Ok(sets)
}

/// The namespaces of these words.
pub(crate) fn parse_namespaces(alloc: Global, words: &[&[u8]]) -> Result<Vec<Namespace>, Refusal>
    ensures { MatchResult result (λ names. (texts_of words.now ≡ names.items) × All IsName names.items) (IsMisspelled (λ names. (texts_of words.now ≡ names) × All IsName names)) }
{
    let mut names = Vec::with_capacity(alloc, words.len())?;
    for word in words {
        names.push_reserved(Namespace::parse(alloc, word)?);
    }
    Ok(names)
}
