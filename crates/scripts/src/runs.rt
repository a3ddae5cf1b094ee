// A script from its first line to its last.
ghost use Rattle.std.specs.Prelude.{◌≡◌, [], List, ℕ, OnErr, OnOk};
ghost use Rattle.line_io.specs.Blocks.{unread};
ghost use Rattle.line_io.specs.Lines.{Holds};
ghost use Rattle.scripts.specs.Runs.{Broke, EndsPart, EndsWith, Ran};

use crate::room::Room;
use crate::telling::tell;
use crate::{Script, Store};
use line_io::{Ending, take_line};
use std::alloc::Global;
use std::io::{self, ErrorKind, Read, Write};

/// Carries out the lines of the input, each as soon as those before it are answered. A line has at most 262,144 bytes without its line feed, and a
/// longer one is refused; what stands after the last line feed is a line too, if there is anything. An error ends the run: of a read, of a write, or
/// of memory for the first block.
pub fn run<S: Store, R: Read, W: Write>(
    alloc: Global,
    script: &mut Script<S>,
    input: &mut R,
    output: &mut W,
) -> io::Result<()>
    ensures ok { OnOk result (Ran S.takes S.nexts S.shows S.sets S.reshards S.shards_of (R.remaining input.old) (R.remaining input.new) (W.contents output.old) (W.contents output.new) script.old script.new) }
    ensures err { OnErr result (Broke S.takes S.nexts S.shows S.sets S.reshards S.shards_of (R.remaining input.old) (R.remaining input.new) (W.contents output.old) (W.contents output.new) script.old script.new) }
{
    let mut room = Room::new(alloc)?;
    run_in(script, input, output, &mut room)
}

fn run_in<S: Store, R: Read, W: Write>(
    script: &mut Script<S>,
    input: &mut R,
    output: &mut W,
    room: &mut Room,
) -> io::Result<()>
    requires { unread room.old.block ≡ [] }
    ensures ok { OnOk result (Ran S.takes S.nexts S.shows S.sets S.reshards S.shards_of (R.remaining input.old) (R.remaining input.new) (W.contents output.old) (W.contents output.new) script.old script.new) }
    ensures err { OnErr result (Broke S.takes S.nexts S.shows S.sets S.reshards S.shards_of (R.remaining input.old) (R.remaining input.new) (W.contents output.old) (W.contents output.new) script.old script.new) }
{
    for _ in 0..u64::MAX {
        // Nothing waits: each answer was written before.
        match take_line(input, &mut room.block, &mut room.line, &[])? {
            Ending::Input => return finish(script, output, room),
            Ending::Feed => {
                tell(script, &room.line, &mut room.text, &room.refusals, output)?;
            }
        }
    }
    Err(ErrorKind::FileTooLarge.into())
}

// Answers what stands after the last line feed, if there is anything.
fn finish<S: Store, W: Write>(
    script: &mut Script<S>,
    output: &mut W,
    room: &mut Room,
) -> io::Result<()>
    ensures ok { OnOk result ((last : List ℕ) → Holds room.old.line last → EndsWith S.takes S.nexts S.shows S.sets S.reshards S.shards_of last script.old script.new (W.contents output.old) (W.contents output.new)) }
    ensures err { OnErr result ((last : List ℕ) → Holds room.old.line last → EndsPart S.takes S.nexts S.shows S.sets S.reshards S.shards_of last script.old script.new (W.contents output.old) (W.contents output.new)) }
{
    if room.line.is_empty() {
        return Ok(());
    }
    tell(script, &room.line, &mut room.text, &room.refusals, output)
}
