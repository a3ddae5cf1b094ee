// One line and its answer.
ghost use Rattle.std.specs.Prelude.{◌≡◌, ◌++◌, List, ℕ, OnOk, OnErr};
ghost use Rattle.line_io.specs.Lines.{Holds};
ghost use Rattle.sessions.specs.Sessions.{RepliesTo, reply_line};

use crate::asking::{Answers, ask};
use json_lines::{Answer, parse_request, write_refusal};
use line_io::Line;
use std::alloc::{AllocError, Global};
use tuples::Refusal;

/// The answer to the line, or why it is refused.
pub(crate) fn reply_to<A: Answers>(
    alloc: Global,
    store: u64,
    line: &Line,
    answers: &mut A,
) -> Result<Answer, Refusal>
    ensures { (front : List ℕ) → Holds line.now front → RepliesTo store A.gives answers.old front result answers.new }
{
    if let Some(refusal) = line.refusal() {
        return Err(refusal);
    }
    let request = parse_request(alloc, line.as_bytes(), store)?;
    ask(answers, request)
}

/// Appends the text of the reply and a line feed, or nothing.
pub(crate) fn write_reply(
    reply: &Result<Answer, Refusal>,
    store: u64,
    out: &mut Vec<u8>,
) -> Result<(), AllocError>
    ensures ok { OnOk result (out.new.items ≡ out.old.items ++ reply_line store reply.now) }
    ensures err { OnErr result (out.new.items ≡ out.old.items) }
{
    let start = out.len();
    match reply {
        Ok(answer) => answer.write_to(store, out)?,
        Err(refusal) => write_refusal(*refusal, out)?,
    }
    match out.push(b'\n') {
        Ok(()) => Ok(()),
        Err(_) => {
            out.truncate(start);
            Err(AllocError)
        }
    }
}
