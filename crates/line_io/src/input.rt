// Lines from a reader.
ghost use Rattle.std.specs.Prelude.{IfOk, OnErr};
ghost use Rattle.line_io.specs.Blocks.{unread, HasRead, HasTaken};
ghost use Rattle.line_io.specs.Outputs.{MayWait};

use crate::held::Block;
use crate::line::Line;
use std::io::{self, ErrorKind, Read};

/// What ends a line.
#[derive(Clone, Copy, PartialEq, Eq)]
pub enum Ending {
    Feed,
    Input,
}

/// Reads the next line, or what the input has after its last line feed. It is handed what waits to be written, and that may wait.
pub fn take_line<R: Read>(
    input: &mut R,
    block: &mut Block,
    line: &mut Line,
    _waiting: &[u8],
) -> io::Result<Ending>
    requires { MayWait (unread block.old) _waiting.now }
    ensures ok { IfOk result (λ ending. HasTaken ending (R.remaining input.old) (R.remaining input.new) (unread block.old) (unread block.new) line.new) }
    ensures err { OnErr result (HasRead (R.remaining input.old) (R.remaining input.new)) }
{
    line.clear();
    for _ in 0..u64::MAX {
        if !block.refill(input)? {
            return Ok(Ending::Input);
        }
        if block.take_part(line) {
            return Ok(Ending::Feed);
        }
    }
    Err(ErrorKind::FileTooLarge.into())
}
