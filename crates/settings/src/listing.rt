// What the program tells of itself: its commands and its version.
ghost use Rattle.std.specs.Prelude.{◌≡◌, ◌⊎◌};

use crate::limits::USAGE;
use crate::telling::tell;
use clap::{Command, Error};
use std::alloc::Global;
use std::io::{Eprint, Print};

/// The version of the program, followed by that of the batches that it writes (docs/FORMAT.md).
const VERSION: &str = "0.9.0 (format 2)";

const ABOUT: &str = "A store of relation tuples: served over TCP, or run by scripts";

const EXAMPLES: &str = "Examples:
  mkdir data
  zanstore serve --dir data --store 1 --shards 2 --listen 127.0.0.1:7700 --workers 4
  zanstore call 127.0.0.1:7700 write +doc:readme#viewer@ann
  zanstore call 127.0.0.1:7700 check doc:readme#viewer@ann

The options of a command, and the lines of a script: zanstore COMMAND --help";

// The commands, and what each does.
const COMMANDS: &[(&str, &str)] = &[
    ("serve", "Serves a store in files over TCP"),
    ("call", "Sends requests to a server"),
    ("dump", "Prints all tuples of a store in files"),
    (
        "reshard",
        "Copies a store in files to another folder, with another number of shards",
    ),
    ("sim", "Runs a script over a store in memory"),
];

/// Tells what the words ask of the program itself, its help or its version, or why they name none of its commands. The status to end with, 0 for help and the
/// version and else 2.
pub fn tell_of_program<R: Print + Eprint + AllocGlobal>(rt: &R, words: &[String]) -> u8
    ensures { (result ≡ 0) ⊎ (result ≡ USAGE) }
{
    match look_up(rt.alloc(), words) {
        // Words that name a command are for it.
        Ok(()) => USAGE,
        Err(error) => tell(rt, &error),
    }
}

fn look_up(alloc: Global, words: &[String]) -> Result<(), Error> {
    let mut program = Command::new(alloc, "zanstore")
        .version(VERSION)
        .about(ABOUT)
        .after_help(EXAMPLES)
        .subcommand_required(true);
    for (name, about) in COMMANDS {
        program = program.subcommand(Command::new(alloc, name).about(about))?;
    }
    program.try_get_matches_from(words)?;
    Ok(())
}
