// One line and its answer.
ghost use Rattle.std.specs.Prelude.{◌≤◌, List, ℕ, OnErr, OnOk, length};
ghost use Rattle.tuples.specs.Limits.{max_line};
ghost use Rattle.line_io.specs.Lines.{Holds};
ghost use Rattle.scripts.specs.Runs.{Tells, TellsPart};

use crate::refusals::Refusals;
use crate::{Script, Store};
use line_io::{Line, write_all};
use std::alloc::AllocError;
use std::io::{self, Write};
use tuples::Refusal;

/// Answers the line, and writes the answer.
pub(crate) fn tell<S: Store, W: Write>(
    script: &mut Script<S>,
    line: &Line,
    text: &mut Vec<u8>,
    refusals: &Refusals,
    output: &mut W,
) -> io::Result<()>
    ensures ok { OnOk result ((front : List ℕ) → Holds line.now front → Tells S.takes S.nexts S.shows S.sets S.reshards S.shards_of front script.old script.new (W.contents output.old) (W.contents output.new)) }
    ensures err { OnErr result ((front : List ℕ) → Holds line.now front → TellsPart S.takes S.nexts S.shows S.sets S.reshards S.shards_of front script.old script.new (W.contents output.old) (W.contents output.new)) }
{
    match line.refusal() {
        Some(Refusal::TooLarge) => write_all(output, &refusals.too_large),
        Some(_) => write_all(output, &refusals.no_memory),
        None => carry_out(script, line.as_bytes(), text, refusals, output),
    }
}

// The script carries the line out; what it prints is written.
fn carry_out<S: Store, W: Write>(
    script: &mut Script<S>,
    line: &[u8],
    text: &mut Vec<u8>,
    refusals: &Refusals,
    output: &mut W,
) -> io::Result<()>
    ensures ok { OnOk result (length line.now ≤ max_line → Tells S.takes S.nexts S.shows S.sets S.reshards S.shards_of line.now script.old script.new (W.contents output.old) (W.contents output.new)) }
    ensures err { OnErr result (length line.now ≤ max_line → TellsPart S.takes S.nexts S.shows S.sets S.reshards S.shards_of line.now script.old script.new (W.contents output.old) (W.contents output.new)) }
{
    text.clear();
    match script.line(line, text) {
        Ok(()) => write_all(output, text),
        Err(AllocError) => write_all(output, &refusals.no_memory),
    }
}
