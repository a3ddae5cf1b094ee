//! Flows over the nodes of a store of two shards, by rows of steps: which calls each flow makes, one after another, and how it ends. `checks/flow_rows` runs
//! it by the program `harness`.
//!
//! Keeps: each row has a store of its own, over disks in memory.
//! Never: makes a call that no flow asks for, except for a flush and an opening that a step names.
//! Callers rely on: a line for each row, in their order; an empty line ends a row.
//!
//! Start at `steps.rt`, what the lines of a row say, and `plays.rt`, what a row does with a store. Whatever calls a node is generic over its devices: a call
//! at a disk in memory itself takes longer to prove.
#![tactic(auto)]

mod asking;
mod call_names;
mod caring;
mod logging;
mod plays;
mod refusing;
mod steps;
mod stores;
mod texts;
mod turning;

use plays::play;
use std::alloc::Global;
use std::io::{self, Read, Write};
use stores::new_disks;
use tuples::Refusal;

// What the row did, or the refusal of the step that could not be done.
fn played(alloc: Global, row: &str) -> Result<String, Refusal> {
    play(alloc, new_disks(alloc, 6)?, row)
}

/// Plays each row of the text, and writes what it did, a line a row, or why it could not be played.
pub fn run<R: Read + Drop, W: Write>(alloc: Global, reader: R, writer: &mut W) -> io::Result<()> {
    let text = io::read_to_string(alloc, reader)?;
    for row in text.split("\n\n") {
        match played(alloc, row.trim()) {
            Ok(log) => writeln!(writer, "{}", log.as_str())?,
            Err(refusal) => writeln!(writer, "no row: {}", refusal.name())?,
        }
    }
    Ok(())
}
