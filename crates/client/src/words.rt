// The words of a line.
ghost use Rattle.std.specs.Prelude.{◌≡◌, ◌∷◌, [], List, ℕ, IfOk, MatchOption};
ghost use Rattle.client.specs.Reading.{texts, words_of};

use std::alloc::{AllocError, Global};

/// What stands between the spaces of a line: one word at least, and an empty one if a space has no word beside it.
pub(crate) fn split_words(alloc: Global, line: &str) -> Result<Vec<&str>, AllocError>
    ensures { IfOk result (λ words. texts words.items ≡ words_of line.now) }
{
    line.split(' ').collect(alloc)
}

/// The words after the first, if that is this one.
pub(crate) fn behind<'a>(words: &'a [&'a str], name: &str) -> Option<&'a [&'a str]>
    ensures { MatchOption result ((rest : List (List ℕ)) → texts words.now ≡ name.now ∷ rest → ⊥) (λ rest. texts words.now ≡ name.now ∷ texts rest.now) }
{
    let Some((first, rest)) = words.split_first() else {
        return None;
    };
    if *first == name { Some(rest) } else { None }
}

/// The word after this first one, and the words after both.
pub(crate) fn word_behind<'a>(words: &'a [&'a str], name: &str) -> Option<(&'a str, &'a [&'a str])>
    ensures { MatchOption result ((word : List ℕ) (rest : List (List ℕ)) → texts words.now ≡ name.now ∷ word ∷ rest → ⊥) (λ p. texts words.now ≡ name.now ∷ p.0.now ∷ texts p.1.now) }
{
    let Some(more) = behind(words, name) else {
        return None;
    };
    let Some((word, rest)) = more.split_first() else {
        return None;
    };
    Some((*word, rest))
}

/// The one word that there is.
pub(crate) fn only<'a>(words: &'a [&'a str]) -> Option<&'a str>
    ensures { MatchOption result ((word : List ℕ) → texts words.now ≡ word ∷ [] → ⊥) (λ word. texts words.now ≡ word.now ∷ []) }
{
    let [word] = words else {
        return None;
    };
    Some(*word)
}

/// The first two words, and the words after them.
pub(crate) fn two_and_more<'a>(words: &'a [&'a str]) -> Option<(&'a str, &'a str, &'a [&'a str])>
    ensures { MatchOption result ((a b : List ℕ) (rest : List (List ℕ)) → texts words.now ≡ a ∷ b ∷ rest → ⊥) (λ p. texts words.now ≡ p.0.now ∷ p.1.now ∷ texts p.2.now) }
{
    let [first, second, rest @ ..] = words else {
        return None;
    };
    Some((*first, *second, rest))
}
