// The changes and the conditions of a write.
ghost use Rattle.std.specs.Prelude.{◌≡◌, ◌≤◌, ◌∷◌, ◌++◌, [], List, ℕ, IfErr, IfOk, MatchOption, MatchResult, OnOk, All, codes, length, map};
ghost use Rattle.serde_json.specs.Data.{put as with_member};
ghost use Rattle.serde_json.specs.View.{members_view, view};
ghost use Rattle.json_lines.specs.Shapes.{list_with};
ghost use Rattle.client.specs.Forms.{Asked, Changed, IsAsked, asked_json, asked_word, changed_json, changed_word, if_words};
ghost use Rattle.client.specs.Reading.{AreAsked, BeginsNoChange, Fills, IsMistaken, PutsChanges, PutsConditions, SpellsNone, texts};

use crate::condition::{parse_change, parse_condition};
use crate::members::{push_change, push_condition, put_text};
use crate::mistake::Mistake;
use crate::words::behind;
use serde_json::{Map, Value};
use std::alloc::{AllocError, Global};

/// Puts the members of the write that follows `write`.
pub(crate) fn put_write(
    object: &mut Map<String, Value>,
    alloc: Global,
    words: &[&str],
) -> Result<(), Mistake>
    ensures { MatchResult result (λ _. Fills (codes "write" ∷ texts words.now) (members_view object.old.entries) (members_view object.new.entries)) (IsMistaken (SpellsNone (codes "write" ∷ texts words.now))) }
{
    let rest = match put_changes(object, alloc, words) {
        Ok(rest) => rest,
        Err(mistake) => return Err(mistake),
    };
    match put_conditions(object, alloc, rest) {
        Ok(()) => Ok(put_text(object, alloc, "op", "write")?),
        Err(mistake) => Err(mistake),
    }
}

// Puts the changes that stand first, one at least; the words after them.
fn put_changes<'a>(
    object: &mut Map<String, Value>,
    alloc: Global,
    words: &'a [&'a str],
) -> Result<&'a [&'a str], Mistake>
    ensures { MatchResult result (λ rest. PutsChanges (texts words.now) (texts rest.now) (members_view object.old.entries) (members_view object.new.entries)) (IsMistaken (BeginsNoChange (texts words.now))) }
{
    let mut list = Vec::new(alloc);
    match push_changes(&mut list, alloc, words) {
        Ok(rest) => {
            if list.is_empty() {
                return Err(Mistake::Write);
            }
            serde_json::put(object, alloc, "changes", Value::Array(list))?;
            Ok(rest)
        }
        Err(_) => Err(Mistake::NoMemory),
    }
}

// Appends the changes that stand first; the words after them.
fn push_changes<'a>(
    list: &mut Vec<Value>,
    alloc: Global,
    words: &'a [&'a str],
) -> Result<&'a [&'a str], AllocError>
    ensures { IfOk result (λ rest. (cs : List Changed) × (texts words.now ≡ map changed_word cs ++ texts rest.now) × BeginsNoChange (texts rest.now) × (map view list.new.items ≡ map view list.old.items ++ map changed_json cs)) }
{
    for index in 0..words.len() {
        let Some(change) = parse_change(words[index]) else {
            return Ok(&words[index..]);
        };
        push_change(list, alloc, change)?;
    }
    Ok(&[])
}

// Puts the conditions that follow `if`, one at least; none if there are no words.
fn put_conditions(
    object: &mut Map<String, Value>,
    alloc: Global,
    words: &[&str],
) -> Result<(), Mistake>
    ensures { MatchResult result (λ _. PutsConditions (texts words.now) (members_view object.old.entries) (members_view object.new.entries)) (IsMistaken ((cs : List Asked) → All IsAsked cs → texts words.now ≡ if_words (map asked_word cs) → ⊥)) }
{
    if words.is_empty() {
        return Ok(());
    }
    let Some(conditions) = behind(words, "if") else {
        return Err(Mistake::Write);
    };
    if conditions.is_empty() {
        return Err(Mistake::Write);
    }
    let mut list = Vec::new(alloc);
    match push_conditions(&mut list, alloc, conditions) {
        Ok(()) => Ok(serde_json::put(object, alloc, "conditions", Value::Array(list))?),
        Err(mistake) => Err(mistake),
    }
}

fn push_conditions(list: &mut Vec<Value>, alloc: Global, words: &[&str]) -> Result<(), Mistake>
    ensures { MatchResult result (λ _. (cs : List Asked) × AreAsked (texts words.now) cs × (map view list.new.items ≡ map view list.old.items ++ map asked_json cs)) (IsMistaken ((cs : List Asked) → AreAsked (texts words.now) cs → ⊥)) }
{
    for word in words {
        let Some(condition) = parse_condition(word) else {
            return Err(Mistake::Write);
        };
        push_condition(list, alloc, condition)?;
    }
    Ok(())
}
