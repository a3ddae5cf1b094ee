//! The command lines of the program: one module a command.
//!
//! Keeps: each number of the settings is within its range, and the status of words that give none is 0 or 2. Those of all commands but `call` are what the words ask for.
//! Never: looks at a folder, at an address or at the words of a request.
//! Words that ask for a script are refused for memory alone.
//! Callers rely on: whether the words are for a command, and its settings, or the status to end with, once the user is told. Who names no command is told which there are.
//! Only tested: of `call`, that the settings are what the words ask for; of the commands but `sim`, that words which ask for settings get them, and that 0 is for help and 2 for a mistake.
//! What help and mistakes print is `clap`'s, and no test here reads it.
//!
//! Start at `specs/CommandLine.antt`, which says what the words of a script ask for, and `sim.rt`, which reads them. `specs/Commands.antt` says what those of `serve`, `dump` and
//! `reshard` ask for. `reading.rt` reads the words of these and of `call`, each in a module of its own with its options; `parameter.rt` makes the options, and `given.rt` takes what they gave. `listing.rt` has the version and the list of commands.
#![tactic(auto)]

mod call;
mod dump;
mod given;
mod limits;
mod listing;
mod parameter;
mod range;
mod reading;
mod reshard;
mod serve;
mod sim;
mod telling;
#[cfg(test)]
mod tests;

pub use call::CallSettings;
pub use dump::DumpSettings;
pub use listing::tell_of_program;
pub use reshard::ReshardSettings;
pub use serve::ServeSettings;
pub use sim::Settings;
