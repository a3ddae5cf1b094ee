// Which places may answer.
ghost use Rattle.client.specs.Reading.{IsOpening, fresh_view, texts};

use crate::form::Freshness;
use crate::words::{behind, word_behind};

/// The freshness that stands first, if one does, and the words after it.
pub(crate) fn parse_freshness<'a>(words: &'a [&'a str]) -> (Freshness<'a>, &'a [&'a str])
    ensures { IsOpening (texts words.now) (fresh_view result.0) (texts result.1.now) }
{
    if let Some(rest) = behind(words, "latest") {
        return (Freshness::Latest, rest);
    }
    if let Some((token, rest)) = word_behind(words, "at-least") {
        return (Freshness::AtLeast(token), rest);
    }
    if let Some((token, rest)) = word_behind(words, "exact") {
        return (Freshness::Exact(token), rest);
    }
    (Freshness::Unsaid, words)
}
