// What a server reads of the line that is sent.
ghost use Rattle.std.specs.Prelude.{◌≡◌, IfErr, IfOk};
ghost use Rattle.json_lines.specs.Lines.{Spells};
ghost use Rattle.json_lines.specs.Laws.{NoneIsSpelledAndRefused};
ghost use Rattle.tuples.specs.Parsing.{has_byte};
ghost use Rattle.client.specs.Forms.{HasShort, Short, short_fields};
ghost use Rattle.client.specs.Reading.{IsJson, IsUnread, words_of};

use crate::line::request_line;
use crate::mistake::Mistake;
use json_lines::{no_line_is_spelled_and_refused, parse_request};
use std::alloc::Global;
use tuples::{Refusal, Request};

/// What the reader of a server of the store with this id reads of the line of a short form: no other request than the one that the short form stands for, and
/// that one wherever it stands for one and there is memory. No program calls this: it is the law that the two readers mean the same.
pub fn read_back(alloc: Global, text: &str, store: u64) -> Result<Request, Refusal>
    ensures ok { IfOk result (λ r. (IsJson text.now → ⊥) → (s : Short) × HasShort (words_of text.now) s × Spells store (short_fields s) r) }
    ensures err { IfErr result (λ e. (IsJson text.now → ⊥) → IsUnread store text.now e) }
{
    // A law: it does nothing.
    no_line_is_spelled_and_refused();
    match request_line(alloc, text) {
        Ok(line) => parse_request(alloc, line.as_bytes(), store),
        Err(Mistake::NoMemory) => Err(Refusal::NoMemory),
        Err(_) => Err(Refusal::BadRequest),
    }
}
