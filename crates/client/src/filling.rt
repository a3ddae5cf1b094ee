// The members of the request that words stand for.
ghost use Rattle.std.specs.Prelude.{◌≡◌, ◌∷◌, ◌↔◌, IfErr, IfOk, IsTrue, MatchOption, MatchResult, OnOk, codes, ℕ};
ghost use Rattle.serde_json.specs.Data.{no_members};
ghost use Rattle.serde_json.specs.View.{members_view, view};
ghost use Rattle.json_lines.specs.Shapes.{asks_sets, asks_tuple, members_with, object_with, question_with, texts_json, watch_with};
ghost use Rattle.client.specs.Forms.{HasShort, IsLimit, Short, fresh_fields, limit_of, short_fields};
ghost use Rattle.client.specs.Reading.{Fills, IsMistaken, SpellsNone, fresh_view, texts};

use crate::form::Freshness;
use crate::freshness::parse_freshness;
use crate::members::{put_freshness, put_text, put_texts};
use crate::mistake::Mistake;
use crate::words::{behind, only, two_and_more};
use crate::write::put_write;
use serde_json::{Map, Value};
use std::alloc::{AllocError, Global};
use tuples::MAX_WATCHED;

/// The request that the words stand for.
pub(crate) fn value_of(alloc: Global, words: &[&str]) -> Result<Value, Mistake>
    ensures { MatchResult result (λ v. (s : Short) × HasShort (texts words.now) s × (view v ≡ object_with (short_fields s))) (IsMistaken (SpellsNone (texts words.now))) }
{
    let mut object = Map::new(alloc);
    match put_request(&mut object, alloc, words) {
        Ok(()) => Ok(Value::Object(object)),
        Err(mistake) => Err(mistake),
    }
}

// The first word says which request it is.
fn put_request(
    object: &mut Map<String, Value>,
    alloc: Global,
    words: &[&str],
) -> Result<(), Mistake>
    ensures { MatchResult result (λ _. Fills (texts words.now) (members_view object.old.entries) (members_view object.new.entries)) (IsMistaken (SpellsNone (texts words.now))) }
{
    if let Some(words) = behind(words, "write") {
        return put_write(object, alloc, words);
    }
    if let Some(words) = behind(words, "read") {
        return put_read(object, alloc, words);
    }
    if let Some(words) = behind(words, "check") {
        return put_check(object, alloc, words);
    }
    match behind(words, "watch") {
        Some(words) => put_watch(object, alloc, words),
        None => Err(Mistake::Verb),
    }
}

// `latest doc:a doc#viewer@ann`
fn put_read(object: &mut Map<String, Value>, alloc: Global, words: &[&str]) -> Result<(), Mistake>
    ensures { MatchResult result (λ _. Fills (codes "read" ∷ texts words.now) (members_view object.old.entries) (members_view object.new.entries)) (IsMistaken (SpellsNone (codes "read" ∷ texts words.now))) }
{
    let (freshness, sets) = parse_freshness(words);
    if sets.is_empty() {
        return Err(Mistake::Read);
    }
    Ok(fill_read(object, alloc, freshness, sets)?)
}

fn fill_read(
    object: &mut Map<String, Value>,
    alloc: Global,
    freshness: Freshness<'_>,
    sets: &[&str],
) -> Result<(), AllocError>
    ensures { OnOk result (members_view object.old.entries ≡ no_members → members_view object.new.entries ≡ members_with (question_with (fresh_fields (fresh_view freshness.entry)) (codes "read") (asks_sets (texts sets.now)))) }
{
    put_freshness(object, alloc, freshness)?;
    put_text(object, alloc, "op", "read")?;
    put_texts(object, alloc, "sets", sets)
}

// `latest doc:a#viewer@ann`
fn put_check(object: &mut Map<String, Value>, alloc: Global, words: &[&str]) -> Result<(), Mistake>
    ensures { MatchResult result (λ _. Fills (codes "check" ∷ texts words.now) (members_view object.old.entries) (members_view object.new.entries)) (IsMistaken (SpellsNone (codes "check" ∷ texts words.now))) }
{
    let (freshness, rest) = parse_freshness(words);
    let Some(tuple) = only(rest) else {
        return Err(Mistake::Check);
    };
    Ok(fill_check(object, alloc, freshness, tuple)?)
}

fn fill_check(
    object: &mut Map<String, Value>,
    alloc: Global,
    freshness: Freshness<'_>,
    tuple: &str,
) -> Result<(), AllocError>
    ensures { OnOk result (members_view object.old.entries ≡ no_members → members_view object.new.entries ≡ members_with (question_with (fresh_fields (fresh_view freshness.entry)) (codes "check") (asks_tuple tuple.now))) }
{
    put_freshness(object, alloc, freshness)?;
    put_text(object, alloc, "op", "check")?;
    put_text(object, alloc, "tuple", tuple)
}

// `AQAAAAAAAAAAAQAAAAAAAAAB 256 doc group`
fn put_watch(object: &mut Map<String, Value>, alloc: Global, words: &[&str]) -> Result<(), Mistake>
    ensures { MatchResult result (λ _. Fills (codes "watch" ∷ texts words.now) (members_view object.old.entries) (members_view object.new.entries)) (IsMistaken (SpellsNone (codes "watch" ∷ texts words.now))) }
{
    let Some((from, limit, namespaces)) = two_and_more(words) else {
        return Err(Mistake::Watch);
    };
    let Some(limit) = parse_limit(limit) else {
        return Err(Mistake::Watch);
    };
    if namespaces.is_empty() {
        return Err(Mistake::Watch);
    }
    Ok(fill_watch(object, alloc, from, limit, namespaces)?)
}

fn fill_watch(
    object: &mut Map<String, Value>,
    alloc: Global,
    from: &str,
    limit: u64,
    namespaces: &[&str],
) -> Result<(), AllocError>
    ensures { OnOk result (members_view object.old.entries ≡ no_members → members_view object.new.entries ≡ members_with (watch_with from.now limit (texts_json (texts namespaces.now)))) }
{
    put_text(object, alloc, "from", from)?;
    serde_json::put(object, alloc, "limit", Value::from(limit))?;
    put_texts(object, alloc, "namespaces", namespaces)?;
    put_text(object, alloc, "op", "watch")
}

fn parse_limit(text: &str) -> Option<u64>
    ensures { MatchOption result (IsLimit text.now → ⊥) (λ n. IsLimit text.now × (n ≡ limit_of text.now)) }
{
    let Ok(limit) = text.parse::<u64>() else {
        return None;
    };
    if 1 <= limit && limit <= MAX_WATCHED {
        Some(limit)
    } else {
        None
    }
}
