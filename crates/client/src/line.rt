// A request line, of what was typed.
ghost use Rattle.std.specs.Prelude.{◌≡◌, ◌⊎◌, IfErr, IfOk, string_bytes, true};
ghost use Rattle.json_lines.specs.Lines.{IsObject};
ghost use Rattle.tuples.specs.Parsing.{Lacks, has_byte};
ghost use Rattle.client.specs.Forms.{HasShort, Short, short_fields};
ghost use Rattle.client.specs.Reading.{IsJson, IsMistaken, SpellsNone, texts, words_of};

use crate::filling::value_of;
use crate::mistake::Mistake;
use crate::words::split_words;
use std::alloc::Global;

/// The request line of a text, without a line feed: the text as it is if it begins with `{`, and else the JSON of the request that its words stand for.
/// Whether a server takes the texts in it, the server says.
pub fn request_line(alloc: Global, text: &str) -> Result<String, Mistake>
    ensures json { IfOk result (λ line. IsJson text.now → string_bytes line ≡ text.now) }
    ensures short { IfOk result (λ line. (IsJson text.now → ⊥) → (s : Short) × HasShort (words_of text.now) s × IsObject (string_bytes line) (short_fields s)) }
    ensures feed { IfOk result (λ line. Lacks 10 (string_bytes line)) }
    ensures err { IfErr result (λ e. (e ≡ Mistake.NoMemory) ⊎ (((e ≡ Mistake.LineFeed) × (has_byte 10 text.now ≡ true)) ⊎ ((IsJson text.now → ⊥) × SpellsNone (words_of text.now)))) }
{
    if text.contains('\n') {
        return Err(Mistake::LineFeed);
    }
    if text.starts_with('{') {
        return Ok(String::from_str(alloc, text)?);
    }
    let words = split_words(alloc, text)?;
    line_of(alloc, &words)
}

// The line of these words.
fn line_of(alloc: Global, words: &[&str]) -> Result<String, Mistake>
    ensures ok { IfOk result (λ line. (s : Short) × HasShort (texts words.now) s × IsObject (string_bytes line) (short_fields s)) }
    ensures feed { IfOk result (λ line. Lacks 10 (string_bytes line)) }
    ensures err { IfErr result (IsMistaken (SpellsNone (texts words.now))) }
{
    let value = value_of(alloc, words)?;
    Ok(value.to_string(alloc)?)
}
