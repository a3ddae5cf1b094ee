//! Sessions: request lines that come, and answer lines that go.
//!
//! Keeps: each line gets one answer, in the order of the lines; what is written is the session of what was read, or a beginning of it
//! if a read, a write or memory for an answer failed.
//! Never: answers a line twice, holds more than one line, reads on while an answer waits, or answers a line while a block or more waits.
//! Callers rely on: nothing is asked of `Answers` but the requests of the lines, each once and in order.
//!
//! Start at `specs/Sessions.antt`, what a session writes, and `specs/Machines.antt`, what it holds between two calls.
#![tactic(auto)]

mod asking;
mod machine;
mod reply;
mod serve;
mod session;
mod waiting;

pub use asking::Answers;
pub use machine::Turn;
pub use serve::serve_stream;
pub use session::{Session, always_a_session};
