// Answers to a writer.
ghost use Rattle.std.specs.Prelude.{◌≡◌, [], IfErr, OnOk, OnErr};
ghost use Rattle.std.specs.Io.KnownBytes.{Appends};
ghost use Rattle.line_io.specs.Outputs.{HasBegun};

use crate::telling::Writer;
use std::io::{self, ErrorKind, Write};

/// Writes all that waits.
pub fn write_out<W: Write>(output: &mut W, waiting: &mut Vec<u8>) -> io::Result<()>
    ensures ok { OnOk result (Appends (W.contents output.old) (W.contents output.new) waiting.old.items) }
    ensures empty { OnOk result (waiting.new.items ≡ []) }
    ensures err { OnErr result (HasBegun (W.contents output.old) (W.contents output.new) waiting.old.items) }
{
    if waiting.is_empty() {
        return Ok(());
    }
    write_all(output, waiting)?;
    waiting.clear();
    Ok(())
}

/// Writes these bytes. What an error leaves written is a beginning of them, which the writer's own does not say.
pub fn write_all<W: Write>(output: &mut W, bytes: &[u8]) -> io::Result<()>
    ensures ok { OnOk result (Appends (W.contents output.old) (W.contents output.new) bytes.now) }
    ensures err { OnErr result (HasBegun (W.contents output.old) (W.contents output.new) bytes.now) }
{
    send_all(output, bytes)
}

/// As `write_all`, and an error is one that the writer told.
pub fn send_all<W: Writer>(output: &mut W, bytes: &[u8]) -> io::Result<()>
    ensures ok { OnOk result (Appends (W.contents output.old) (W.contents output.new) bytes.now) }
    ensures err { OnErr result (HasBegun (W.contents output.old) (W.contents output.new) bytes.now) }
    ensures told { IfErr result W.tells }
{
    let mut done = 0;
    while done < bytes.len() {
        match output.write_part(&bytes[done..]) {
            Ok(0) => return Err(ErrorKind::WriteZero.into()),
            Ok(count) => done += count,
            Err(error) => return Err(error),
        }
    }
    output.flush_all()
}
