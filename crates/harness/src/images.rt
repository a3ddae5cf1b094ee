// Nodes that are opened over images, by rows: what each finds, or why it is refused. `checks/images` runs it.
//
// Each row has two disks in memory of its own, with the bytes that it spells, and no more is made of a node than its opening. A row is
// `NODE STORE SHARDS A B`: `c` or a shard's number, and the bytes of the two devices in hexadecimal digits, `-` for none. For each row come its lines, and a
// line `;`. Whatever calls a node is generic over its devices: a call at a disk in memory itself takes longer to prove.
mod opening;
mod row;

use row::Row;
use script_text::Printed;
use std::alloc::{AllocError, Global};
use std::io::{self, Read, Write};
use tuples::Refusal;

// What is told of a row; if it can't all be told, why not.
fn answer(alloc: Global, row: &str, out: &mut Vec<u8>) -> Result<(), AllocError> {
    let told = match Row::read(row) {
        Some(row) => row.open(alloc, out),
        None => Err(Refusal::BadRequest),
    };
    if let Err(refusal) = told {
        Printed::Refused(refusal).write_to(0, out)?;
    }
    out.extend_from_slice(b";\n")
}

/// Opens the nodes of each row of the text, and writes what is told of it.
pub(crate) fn run<R: Read + Drop, W: Write>(
    alloc: Global,
    reader: R,
    writer: &mut W,
) -> io::Result<()> {
    let text = io::read_to_string(alloc, reader)?;
    let mut out = Vec::new(alloc);
    for row in text.lines() {
        out.clear();
        answer(alloc, row, &mut out)?;
        writer.write_all(&out)?;
    }
    Ok(())
}
