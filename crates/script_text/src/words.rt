// The words of a line.
ghost use Rattle.std.specs.Prelude.{◌≡◌, ◌∷◌, [], List, ℕ, IfOk, MatchOption};
ghost use Rattle.script_text.specs.Words.{texts, words_of};

use std::alloc::{AllocError, Global};

/// What stands between the spaces of a line: at least one word, and an empty one wherever a space has no word beside it.
pub(crate) fn split_words(alloc: Global, line: &[u8]) -> Result<Vec<&[u8]>, AllocError>
    ensures { IfOk result (λ words. texts words.items ≡ words_of line.now) }
{
    line.split(|byte| *byte == b' ').collect(alloc)
}

/// The words after the first, if that is this one.
pub(crate) fn behind<'a>(words: &'a [&'a [u8]], name: &[u8]) -> Option<&'a [&'a [u8]]>
    ensures { MatchOption result ((rest : List (List ℕ)) → texts words.now ≡ name.now ∷ rest → ⊥) (λ rest. texts words.now ≡ name.now ∷ texts rest.now) }
{
    let Some((first, rest)) = words.split_first() else {
        return None;
    };
    if *first == name { Some(rest) } else { None }
}

/// The one word after this first one.
pub(crate) fn one_behind<'a>(words: &'a [&'a [u8]], name: &[u8]) -> Option<&'a [u8]>
    ensures { MatchOption result ((word : List ℕ) → texts words.now ≡ name.now ∷ word ∷ [] → ⊥) (λ word. texts words.now ≡ name.now ∷ word.now ∷ []) }
{
    let [word] = behind(words, name)? else {
        return None;
    };
    Some(*word)
}

/// The two words after this first one.
pub(crate) fn two_behind<'a>(words: &'a [&'a [u8]], name: &[u8]) -> Option<(&'a [u8], &'a [u8])>
    ensures { MatchOption result ((a b : List ℕ) → texts words.now ≡ name.now ∷ a ∷ b ∷ [] → ⊥) (λ p. texts words.now ≡ name.now ∷ p.0.now ∷ p.1.now ∷ []) }
{
    let [first, second] = behind(words, name)? else {
        return None;
    };
    Some((*first, *second))
}

/// The three words after this first one.
pub(crate) fn three_behind<'a>(
    words: &'a [&'a [u8]],
    name: &[u8],
) -> Option<(&'a [u8], &'a [u8], &'a [u8])>
    ensures { MatchOption result ((a b c : List ℕ) → texts words.now ≡ name.now ∷ a ∷ b ∷ c ∷ [] → ⊥) (λ p. texts words.now ≡ name.now ∷ p.0.now ∷ p.1.now ∷ p.2.now ∷ []) }
{
    let [first, second, third] = behind(words, name)? else {
        return None;
    };
    Some((*first, *second, *third))
}
