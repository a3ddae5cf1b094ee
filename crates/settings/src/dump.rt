// What a dump is asked for, and the words that say so.
ghost use Rattle.std.specs.Prelude.{◌≡◌, ◌≤◌, ◌⊎◌, ◌↔◌, IfErr, IfOk, IsTrue, codes, map};
ghost use Rattle.std.specs.Prelude.{option_map, slice_get, string_bytes};
ghost use Rattle.settings.specs.CommandLine.{IsFor};
ghost use Rattle.settings.specs.declared.limits.TheConstants.{MAX_PLACE, MAX_STORE};
ghost use Rattle.std.specs.Option.{ForSome};

use crate::given::{number_if_any, store_in};
use crate::limits::{MAX_PLACE, USAGE};
use crate::parameter::{DIR, Manual, Otherwise, Parameter, SHARDS, STORE, Takes, program};
use crate::reading::{Asked, are_for, read};
use clap::{ArgMatches, Command, Error};
use std::alloc::{AllocError, Global};
use std::io::{Eprint, Print};
use tuples::Shards;

const EXAMPLE: &str = "Example:
  zanstore dump --dir data --store 1 --shards 2

It prints the token of the latest place, and then each tuple at that place, in order:
  at AQAAAAAAAAAAAQAAAAAAAAAB
  doc:readme#viewer@ann

Exit status: 0 once all is written; 1 if a file can't be opened or a node can't be read, if the place
is after the latest one or before the horizon, or if the output failed; 2 for a command line that
can't be read.";

const DUMP: &str =
    "Prints all tuples of a store in files at one place, one per line. No server may have the folder
open: a file that another process has open is refused with 13 Down. Nothing is written to the files.";

const MANUAL: Manual = Manual {
    name: "dump",
    about: "Prints all tuples of a store in files",
    long_about: DUMP,
    after_help: EXAMPLE,
};

const PARAMETERS: &[Parameter] = &[
    DIR,
    STORE,
    SHARDS,
    Parameter {
        name: "at",
        value_name: "PLACE",
        help: "The place, from 0 to 4294967295; without it, the latest",
        takes: Takes::Number(0, MAX_PLACE),
        otherwise: Otherwise::Missing,
    },
];

/// What `zanstore dump` was asked for.
#[derive(Debug, Drop, PartialEq, Eq)]
pub struct DumpSettings {
    /// The folder of the store's files.
    pub dir: String,
    /// The id of the store, from 0 to 4,294,967,295.
    pub store: u64,
    /// The number of shards, from 1 to 64.
    pub shards: Shards,
    /// The place, from 0 to 4,294,967,295, if one is given.
    pub at: Option<u64>,
    ghost fits: { store ≤ MAX_STORE },
    ghost placed: { ForSome at (λ place. place ≤ MAX_PLACE) },
}

impl DumpSettings {
    ghost use Rattle.settings.specs.Commands.{AsksToDump};

    /// Whether the words of the command line, the program's name first, are for this command: the second one is `dump`, or it is `help` and the third one is `dump`.
    pub fn are_for(words: &[String]) -> bool
        ensures { IsTrue result ↔ IsFor (option_map string_bytes (slice_get words.now 1)) (option_map string_bytes (slice_get words.now 2)) (codes "dump") }
    {
        are_for(words, "dump")
    }

    /// Reads the words. An `Err` is the status to end with, 0 for help and else 2, once the user is told.
    pub fn read<R: Print + Eprint + AllocGlobal>(
        rt: &R,
        words: &[String],
    ) -> Result<DumpSettings, u8>
        ensures asked { IfOk result (AsksToDump (map string_bytes words.now)) }
        ensures status { IfErr result (λ status. (status ≡ 0) ⊎ (status ≡ USAGE)) }
    {
        read(rt, words)
    }
}

impl Asked for DumpSettings {
    ghost use Rattle.std.specs.Prelude.{codes};
    ghost use Rattle.settings.specs.Commands.{ToDump, dump_options};

    ghost command = { codes "dump" };

    ghost options = { dump_options };

    ghost asks = { ToDump };

    fn program<'a>(alloc: Global) -> Result<Command<'a>, Error> {
        program(alloc, MANUAL, PARAMETERS)
    }

    fn parameters() -> &'static [Parameter<'static>] {
        PARAMETERS
    }

    fn given(alloc: Global, dump: &ArgMatches) -> Result<Option<DumpSettings>, AllocError> {
        let (Some(dir), Some(given)) = (dump.get_str("dir"), store_in(dump)) else {
            return Ok(None);
        };
        // A place out of its range is refused by the program already.
        let Some(at) = number_if_any(dump, "at", 0, MAX_PLACE) else {
            return Ok(None);
        };
        let dir = String::from_str(alloc, dir)?;
        Ok(Some(DumpSettings {
            dir,
            store: given.store,
            shards: given.shards,
            at,
        }))
    }
}
