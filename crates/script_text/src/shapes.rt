// Which request the words of a line are.
ghost use Rattle.std.specs.Prelude.{◌≡◌, ◌∷◌, ◌++◌, ◌↔◌, List, ℕ, ◌==◌, IsTrue, MatchOption, codes, length, not, true};
ghost use Rattle.std.specs.Fmt.{decimal};
ghost use Rattle.std.specs.List.{list_all, list_any, position};
ghost use Rattle.script_text.specs.Shapes.{AreListed, Fresh, ReadsShape, fresh_view, fresh_word};
ghost use Rattle.script_text.specs.Texts.{IsLimit, ReadsText};
ghost use Rattle.script_text.specs.Words.{AreBehind, if_words, is_marked, texts};

use crate::conditions::are_asked;
use crate::numbers::parse_count;
use crate::shape::{FreshShape, Shape};
use crate::words::behind;
use tuples::MAX_WATCHED;

/// The request of these words, whatever its texts are.
pub(crate) fn shape_of<'a>(words: &'a [&'a [u8]]) -> Option<Shape<'a>>
    ensures { ReadsShape (texts words.now) result }
{
    if let Some(parts) = behind(words, b"write") {
        return write_of(parts);
    }
    if let Some(parts) = behind(words, b"read") {
        return read_of(parts);
    }
    if let Some(parts) = behind(words, b"check") {
        return check_of(parts);
    }
    watch_of(behind(words, b"watch")?)
}

// `+doc:a#viewer@ann -doc:a#viewer@bob if doc:a#lock@lock=3`
fn write_of<'a>(words: &'a [&'a [u8]]) -> Option<Shape<'a>>
    ensures { ReadsShape (codes "write" ∷ texts words.now) result }
{
    let (changes, rest) = split_changes(words);
    let Some(conditions) = words_behind_if(rest) else {
        return None;
    };
    if changes.is_empty() || !are_asked(conditions) {
        return None;
    }
    Some(Shape::Write {
        changes,
        conditions,
    })
}

// The words in front that have the mark of a change, and the others.
fn split_changes<'a>(words: &'a [&'a [u8]]) -> (&'a [&'a [u8]], &'a [&'a [u8]])
    ensures whole { texts words.now ≡ texts result.0.now ++ texts result.1.now }
    ensures marked { list_all is_marked (texts result.0.now) ≡ true }
    ensures behind { AreBehind (texts result.1.now) }
{
    match first_unmarked(words) {
        None => (words, &[]),
        Some(at) => (&words[..at], &words[at..]),
    }
}

fn first_unmarked(words: &[&[u8]]) -> Option<usize>
    ensures { result ≡ position (λ w. not (is_marked w.now)) words.now }
{
    words.iter().position(|word| !is_marked(word))
}

fn is_marked(word: &[u8]) -> bool
    ensures { result ≡ is_marked word.now }
{
    match word.first() {
        None => false,
        Some(byte) => *byte == b'+' || *byte == b'-',
    }
}

// The conditions of these words, which stand after the changes: at least one after `if`, and none if there are no words.
fn words_behind_if<'a>(words: &'a [&'a [u8]]) -> Option<&'a [&'a [u8]]>
    ensures { MatchOption result ((conditions : List (List ℕ)) → texts words.now ≡ if_words conditions → ⊥) (λ conditions. texts words.now ≡ if_words (texts conditions.now)) }
{
    let Some((name, conditions)) = words.split_first() else {
        return Some(&[]);
    };
    if *name == b"if".as_slice() && !conditions.is_empty() {
        Some(conditions)
    } else {
        None
    }
}

// `latest doc:a doc#viewer@ann`
fn read_of<'a>(words: &'a [&'a [u8]]) -> Option<Shape<'a>>
    ensures { ReadsShape (codes "read" ∷ texts words.now) result }
{
    let (freshness, sets) = words.split_first()?;
    let freshness = fresh_of(freshness)?;
    if !are_listed(sets) {
        return None;
    }
    Some(Shape::Read { freshness, sets })
}

// `latest doc:a#viewer@ann`
fn check_of<'a>(words: &'a [&'a [u8]]) -> Option<Shape<'a>>
    ensures { ReadsShape (codes "check" ∷ texts words.now) result }
{
    let [freshness, tuple] = words else {
        return None;
    };
    let freshness = fresh_of(freshness)?;
    if tuple.is_empty() {
        return None;
    }
    Some(Shape::Check {
        freshness,
        tuple: *tuple,
    })
}

// `AQAAAAAAAAAAAQAAAAAAAAAB 256 doc group`
fn watch_of<'a>(words: &'a [&'a [u8]]) -> Option<Shape<'a>>
    ensures { ReadsShape (codes "watch" ∷ texts words.now) result }
{
    let [from, limit, namespaces @ ..] = words else {
        return None;
    };
    let limit = parse_limit(limit)?;
    if from.is_empty() || !are_listed(namespaces) {
        return None;
    }
    Some(Shape::Watch {
        from: *from,
        limit,
        namespaces,
    })
}

fn parse_limit(text: &[u8]) -> Option<u16>
    ensures { ReadsText IsLimit decimal text.now result }
{
    let limit = parse_count(text)?;
    if limit > MAX_WATCHED {
        return None;
    }
    Some(limit as u16)
}

fn fresh_of<'a>(word: &'a [u8]) -> Option<FreshShape<'a>>
    ensures { MatchOption result ((f : Fresh) → word.now ≡ fresh_word f → ⊥) (λ f. word.now ≡ fresh_word (fresh_view f)) }
{
    match word {
        b"latest" => Some(FreshShape::Latest),
        [b'>', b'=', zookie @ ..] => Some(FreshShape::AtLeast(zookie)),
        [b'=', zookie @ ..] => Some(FreshShape::Exact(zookie)),
        _ => None,
    }
}

// At least one word, none of them empty.
fn are_listed(words: &[&[u8]]) -> bool
    ensures { IsTrue result ↔ AreListed (texts words.now) }
{
    !words.is_empty() && !has_empty(words)
}

fn has_empty(words: &[&[u8]]) -> bool
    ensures { result ≡ list_any (λ w. length w.now == 0) words.now }
{
    words.iter().any(|word| word.is_empty())
}
