//! Lines from a reader, and bytes to a writer.
//!
//! Keeps: each byte that was read is in one line, and each line ends at its line feed or with the input.
//! Never: holds more than one line and one block, or reads on while bytes wait to be written after which no whole line stands.
//! Callers rely on: what a write that failed leaves written is a beginning of its bytes, and an error is one that the reader or the writer told (`telling.rt`).
//!
//! Start at `specs/Lines.antt`, a line while it is read, and `specs/Blocks.antt`, what is taken of what was read.
#![tactic(auto)]

mod block;
mod held;
mod input;
mod line;
mod output;
mod telling;

pub use held::{BLOCK, Block};
pub use input::{Ending, take_line};
pub use line::Line;
pub use output::{send_all, write_all, write_out};
pub use telling::{Reader, Writer};
