// A session over a reader and a writer, from its first line to its last.
ghost use Rattle.std.specs.Prelude.{◌≡◌, [], IfErr, IfOk, OnOk, OnErr};
ghost use Rattle.std.specs.Io.KnownBytes.{Appends, Keeps};
ghost use Rattle.line_io.specs.Blocks.{Refills};
ghost use Rattle.line_io.specs.Outputs.{HasBegun};
ghost use Rattle.sessions.specs.Sessions.{Broke, EitherTells, IsCause, Served};
ghost use Rattle.sessions.specs.Machines.{left_of, phase_after};
ghost use Rattle.sessions.specs.Unsent.{unsent};

use crate::asking::Answers;
use crate::machine::{Machine, Phase, Turn};
use crate::waiting::Waiting;
use line_io::{Reader, Writer, send_all};
use std::alloc::Global;
use std::io::{self, ErrorKind};

/// Answers the lines of the input, each as soon as it stands alone in what was read, until the input ends. A line has at most 262,144 bytes without its line
/// feed. An error ends the session: of a read, of a write, or of memory for a block or the text of an answer.
pub fn serve_stream<R: Reader, W: Writer, A: Answers>(
    alloc: Global,
    input: &mut R,
    output: &mut W,
    answers: &mut A,
) -> io::Result<()>
    ensures ok { OnOk result (Served A.store A.gives (R.remaining input.old) (R.remaining input.new) (W.contents output.old) (W.contents output.new) answers.old answers.new) }
    ensures err { OnErr result (Broke A.store A.gives (R.remaining input.old) (R.remaining input.new) (W.contents output.old) (W.contents output.new) answers.old answers.new) }
    ensures cause { IfErr result (IsCause (EitherTells R.tells W.tells)) }
{
    let store = answers.store_id();
    serve_lines(alloc, store, input, output, answers)
}

// Answers the lines of the input for the store with this id.
fn serve_lines<R: Reader, W: Writer, A: Answers>(
    alloc: Global,
    store: u64,
    input: &mut R,
    output: &mut W,
    answers: &mut A,
) -> io::Result<()>
    ensures ok { OnOk result (Served store A.gives (R.remaining input.old) (R.remaining input.new) (W.contents output.old) (W.contents output.new) answers.old answers.new) }
    ensures err { OnErr result (Broke store A.gives (R.remaining input.old) (R.remaining input.new) (W.contents output.old) (W.contents output.new) answers.old answers.new) }
    ensures cause { IfErr result (IsCause (EitherTells R.tells W.tells)) }
{
    let mut machine = Machine::new(alloc);
    machine.waiting.make_room()?;
    for _ in 0..u64::MAX {
        let turn = machine.answer(alloc, store, answers, usize::MAX);
        write_waiting(output, &mut machine.waiting)?;
        if !read_on(alloc, turn, input, &mut machine)? {
            machine.end(store)?;
            return write_waiting(output, &mut machine.waiting);
        }
    }
    // It has made more turns than can be counted.
    Err(ErrorKind::OutOfMemory.into())
}

// Writes all that waits.
fn write_waiting<W: Writer>(output: &mut W, waiting: &mut Waiting) -> io::Result<()>
    ensures ok { OnOk result (Appends (W.contents output.old) (W.contents output.new) (unsent waiting.old)) }
    ensures empty { OnOk result (unsent waiting.new ≡ []) }
    ensures err { OnErr result (HasBegun (W.contents output.old) (W.contents output.new) (unsent waiting.old)) }
    ensures cause { IfErr result W.tells }
    ensures bytes { waiting.new.bytes ≡ waiting.old.bytes }
{
    let count = waiting.unsent().len();
    if count == 0 {
        return Ok(());
    }
    send_all(output, waiting.unsent())?;
    waiting.note_sent(count);
    Ok(())
}

// Reads the next bytes if no whole line is left. Whether the session goes on: not at the end of the input.
fn read_on<R: Reader>(
    alloc: Global,
    turn: Turn,
    input: &mut R,
    machine: &mut Machine,
) -> io::Result<bool>
    requires looked { turn ≡ Turn.Idle → left_of machine.old.block ≡ [] }
    requires written { unsent machine.old.waiting ≡ [] }
    ensures ok { IfOk result (λ has. Refills has (R.remaining input.old) (R.remaining input.new) (left_of machine.old.block) (left_of machine.new.block)) }
    ensures going { OnOk result (phase_after turn ≡ Phase.Open) }
    ensures err { OnErr result (Keeps (R.remaining input.old) (R.remaining input.new)) }
    ensures cause { IfErr result (IsCause R.tells) }
    ensures rest { (machine.new.line ≡ machine.old.line) × (machine.new.waiting ≡ machine.old.waiting) × (machine.new.phase ≡ machine.old.phase) }
{
    match turn {
        Turn::Idle => machine.read_from(alloc, input),
        Turn::More | Turn::Full => Ok(true),
        Turn::Broken => Err(ErrorKind::OutOfMemory.into()),
    }
}
