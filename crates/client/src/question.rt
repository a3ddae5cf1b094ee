// What is asked for in words that are no request of a server.
ghost use Rattle.std.specs.Prelude.{◌≡◌, ◌∷◌, [], List, ℕ, MatchOption, MatchResult};
ghost use Rattle.client.specs.Questions.{HasQuestion, SpellsNoQuestion, question_view};
ghost use Rattle.client.specs.Reading.{SpellsNone, texts};

use crate::mistake::Mistake;
use crate::words::{behind, only};

/// What is asked for in words that are no request of a server.
#[derive(Clone, Copy)]
pub enum Question<'a> {
    /// Which store and place a token names.
    Place(&'a str),
}

/// The question of the words; none if the first one begins none.
pub(crate) fn question_of<'a>(words: &'a [&'a str]) -> Result<Option<Question<'a>>, Mistake>
    ensures { MatchResult result (λ o. MatchOption o (SpellsNoQuestion (texts words.now)) (λ q. HasQuestion (texts words.now) (question_view q))) (λ m. SpellsNoQuestion (texts words.now) × SpellsNone (texts words.now)) }
{
    let Some(rest) = behind(words, "place") else {
        return Ok(None);
    };
    match only(rest) {
        Some(token) => Ok(Some(Question::Place(token))),
        None => Err(Mistake::Place),
    }
}
