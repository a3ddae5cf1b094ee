// Conditions, as `doc:a#lock@lock=3`, `?doc:a#viewer@ann` or `!doc:a#viewer@ann`.
ghost use Rattle.std.specs.Prelude.{◌≡◌, ◌∷◌, ◌++◌, ◌↔◌, All, IsTrue, MatchOption, MatchResult, map};
ghost use Rattle.tuples.specs.Parsing.{Lacks};
ghost use Rattle.json_lines.specs.Spelling.{IsMisspelled};
ghost use Rattle.script_text.specs.Words.{AreConditions, AsksNothing, HasConditionShape, IsAskedOf, IsConditionOf, IsPlacedOf, NamesNoPlace};

use crate::numbers::parse_place;
use std::alloc::Global;
use tuples::{Condition, Refusal, Tuple, Want};

/// Whether each word is in a condition's shape. It says nothing of the text of the tuple.
pub(crate) fn are_asked(words: &[&[u8]]) -> bool
    ensures { IsTrue result ↔ All HasConditionShape (map (λ w. w.now) words.now) }
{
    for word in words {
        if split_condition(word).is_none() {
            return false;
        }
    }
    true
}

/// The conditions of these words.
pub(crate) fn parse_conditions(alloc: Global, words: &[&[u8]]) -> Result<Vec<Condition>, Refusal>
    ensures { MatchResult result (λ conditions. AreConditions (map (λ w. w.now) words.now) conditions.items) (IsMisspelled (AreConditions (map (λ w. w.now) words.now))) }
{
    let mut conditions = Vec::with_capacity(alloc, words.len())?;
    for word in words {
        conditions.push_reserved(parse_condition(alloc, word)?);
    }
    Ok(conditions)
}

fn parse_condition(alloc: Global, word: &[u8]) -> Result<Condition, Refusal>
    ensures { MatchResult result (IsConditionOf word.now) (IsMisspelled (IsConditionOf word.now)) }
{
    let Some((tuple, want)) = split_condition(word) else {
        return Err(Refusal::BadTuple);
    };
    let tuple = Tuple::parse(alloc, tuple)?;
    Ok(Condition { tuple, want })
}

// The text of the tuple, and what is wanted of it. The first byte decides: no tuple's text begins with one of the two marks.
fn split_condition(word: &[u8]) -> Option<(&[u8], Want)>
    ensures { MatchOption result (AsksNothing word.now) (λ parts. IsAskedOf word.now parts.0.now parts.1) }
{
    let Some((mark, tuple)) = word.split_first() else {
        return None;
    };
    if *mark == b'?' {
        Some((tuple, Want::Exists))
    } else if *mark == b'!' {
        Some((tuple, Want::Absent))
    } else {
        split_place(word)
    }
}

// The text of the tuple and the place after the last `=`: an id may have that byte too.
fn split_place(word: &[u8]) -> Option<(&[u8], Want)>
    ensures { MatchOption result (NamesNoPlace word.now) (λ parts. IsPlacedOf word.now parts.0.now parts.1) }
{
    match split_last(word, b'=') {
        None => None,
        Some((tuple, place)) => match parse_place(place) {
            None => None,
            Some(place) => Some((tuple, Want::NotAfter(place))),
        },
    }
}

// What stands before and after the last such byte.
fn split_last(text: &[u8], mark: u8) -> Option<(&[u8], &[u8])>
    ensures { MatchOption result (Lacks mark text.now) (λ parts. (text.now ≡ parts.0.now ++ mark ∷ parts.1.now) × Lacks mark parts.1.now) }
{
    match text.iter().rposition(|byte| *byte == mark) {
        None => None,
        Some(at) => Some((&text[..at], &text[at + 1..])),
    }
}
