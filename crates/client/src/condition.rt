// The words of changes and conditions.
ghost use Rattle.std.specs.Prelude.{◌≡◌, ◌<◌, ◌∷◌, ◌++◌, List, ℕ, MatchOption};
ghost use Rattle.tuples.specs.Parsing.{Lacks};
ghost use Rattle.client.specs.Forms.{Asked, Changed, IsAsked, asked_word, changed_word};
ghost use Rattle.client.specs.Reading.{change_view, condition_view};

use crate::form::{Change, Condition};

/// `+doc:a#viewer@ann` or `-doc:a#viewer@ann`
pub(crate) fn parse_change(word: &str) -> Option<Change<'_>>
    ensures { MatchOption result ((c : Changed) → word.now ≡ changed_word c → ⊥) (λ c. word.now ≡ changed_word (change_view c)) }
{
    if let Some(tuple) = marked(word, '+') {
        return Some(Change::Touch(tuple));
    }
    match marked(word, '-') {
        Some(tuple) => Some(Change::Delete(tuple)),
        None => None,
    }
}

/// `?doc:a#viewer@ann`, `!doc:a#viewer@ann` or `doc:a#lock@lock=TOKEN`
pub(crate) fn parse_condition(word: &str) -> Option<Condition<'_>>
    ensures { MatchOption result ((c : Asked) → IsAsked c → word.now ≡ asked_word c → ⊥) (λ c. IsAsked (condition_view c) × (word.now ≡ asked_word (condition_view c))) }
{
    if let Some(tuple) = marked(word, '?') {
        return Some(Condition::Exists(tuple));
    }
    if let Some(tuple) = marked(word, '!') {
        return Some(Condition::Absent(tuple));
    }
    match split_last(word, '=') {
        Some((tuple, token)) => Some(Condition::Since(tuple, token)),
        None => None,
    }
}

// What follows the mark.
fn marked(word: &str, mark: char) -> Option<&str>
    requires { mark < 128 }
    ensures { MatchOption result ((rest : List ℕ) → word.now ≡ mark ∷ rest → ⊥) (λ rest. word.now ≡ mark ∷ rest.now) }
{
    word.strip_prefix(mark)
}

// What stands before and after the last mark.
fn split_last(word: &str, mark: char) -> Option<(&str, &str)>
    requires { mark < 128 }
    ensures { MatchOption result (Lacks mark word.now) (λ p. (word.now ≡ p.0.now ++ mark ∷ p.1.now) × Lacks mark p.1.now) }
{
    word.rsplit_once(mark)
}
