// What a resharding is asked for, and the words that say so.
ghost use Rattle.std.specs.Prelude.{◌≡◌, ◌≤◌, ◌⊎◌, ◌↔◌, IfErr, IfOk, IfSome, IsTrue, codes, map};
ghost use Rattle.std.specs.Prelude.{option_map, slice_get, string_bytes};
ghost use Rattle.settings.specs.CommandLine.{IsFor};
ghost use Rattle.settings.specs.declared.limits.TheConstants.{MAX_SHARDS, MAX_STORE};
ghost use Rattle.settings.specs.Options.{Tells};
ghost use Rattle.clap.specs.Words.{first_value, found_of};

use crate::given::{StoreGiven, number_in, store_in};
use crate::limits::{MAX_SHARDS, USAGE};
use crate::parameter::{DIR, Manual, Otherwise, Parameter, SHARDS, STORE, Takes, program};
use crate::reading::{Asked, are_for, read};
use clap::{ArgMatches, Command, Error};
use std::alloc::{AllocError, Global};
use std::io::{Eprint, Print};
use tuples::Shards;

const EXAMPLE: &str = "Example:
  mkdir wider && zanstore reshard --dir data --to wider --store 1 --shards 2 --new-shards 8
  zanstore serve --dir wider --store 1 --shards 8 --listen 127.0.0.1:7700 --workers 4

It prints done. Until the new folder has taken a write, you can go back to the old one; from then on
the old one is only a copy.

Exit status: 0 once the new folder has everything; 1 if a file can't be opened, if the new folder has
a file of a store, or if a node refused; 2 for a command line that can't be read. If it was 1, and the
new folder was empty before, delete what is in it now: the old folder has not changed.";

const RESHARD: &str =
    "Copies a store in files to another folder, with another number of shards. No server may have the
folder open: a file that another process has open is refused with 13 Down. The new folder must exist,
or it is refused with 13 Down too, and have no file of a store, or it is refused with 16 Damaged.
Nothing is written to the old files.";

const MANUAL: Manual = Manual {
    name: "reshard",
    about: "Copies a store in files to another folder, with another number of shards",
    long_about: RESHARD,
    after_help: EXAMPLE,
};

const PARAMETERS: &[Parameter] = &[
    DIR,
    Parameter {
        name: "to",
        value_name: "DIR",
        help: "The folder of the new files, which must exist",
        takes: Takes::Text,
        otherwise: Otherwise::Refused,
    },
    STORE,
    SHARDS,
    Parameter {
        name: "new-shards",
        value_name: "N",
        help: "The new number of shards, from 1 to 64",
        takes: Takes::Number(1, MAX_SHARDS),
        otherwise: Otherwise::Refused,
    },
];

/// What `zanstore reshard` was asked for.
#[derive(Debug, Drop, PartialEq, Eq)]
pub struct ReshardSettings {
    /// The folder of the store's files.
    pub dir: String,
    /// The folder of the new files.
    pub to: String,
    /// The id of the store, from 0 to 4,294,967,295.
    pub store: u64,
    /// The number of shards, from 1 to 64.
    pub shards: Shards,
    /// The new number of shards, from 1 to 64.
    pub new_shards: Shards,
    ghost fits: { store ≤ MAX_STORE },
}

impl ReshardSettings {
    ghost use Rattle.settings.specs.Commands.{AsksToReshard};

    /// Whether the words of the command line, the program's name first, are for this command: the second one is `reshard`, or it is `help` and the third one is `reshard`.
    pub fn are_for(words: &[String]) -> bool
        ensures { IsTrue result ↔ IsFor (option_map string_bytes (slice_get words.now 1)) (option_map string_bytes (slice_get words.now 2)) (codes "reshard") }
    {
        are_for(words, "reshard")
    }

    /// Reads the words. An `Err` is the status to end with, 0 for help and else 2, once the user is told.
    pub fn read<R: Print + Eprint + AllocGlobal>(
        rt: &R,
        words: &[String],
    ) -> Result<ReshardSettings, u8>
        ensures asked { IfOk result (AsksToReshard (map string_bytes words.now)) }
        ensures status { IfErr result (λ status. (status ≡ 0) ⊎ (status ≡ USAGE)) }
    {
        read(rt, words)
    }
}

impl Asked for ReshardSettings {
    ghost use Rattle.std.specs.Prelude.{codes};
    ghost use Rattle.settings.specs.Commands.{ToReshard, reshard_options};

    ghost command = { codes "reshard" };

    ghost options = { reshard_options };

    ghost asks = { ToReshard };

    fn program<'a>(alloc: Global) -> Result<Command<'a>, Error> {
        program(alloc, MANUAL, PARAMETERS)
    }

    fn parameters() -> &'static [Parameter<'static>] {
        PARAMETERS
    }

    fn given(alloc: Global, reshard: &ArgMatches) -> Result<Option<ReshardSettings>, AllocError> {
        let (Some(dir), Some(to), Some(numbers)) = (
            reshard.get_str("dir"),
            reshard.get_str("to"),
            numbers_of(reshard),
        ) else {
            return Ok(None);
        };
        let settings = settings_in(alloc, dir, to, numbers)?;
        Ok(Some(settings))
    }
}

// The numbers of a resharding, each within its range.
#[derive(Clone, Copy)]
struct Numbers {
    given: StoreGiven,
    new_shards: Shards,
}

fn numbers_of(reshard: &ArgMatches) -> Option<Numbers>
    ensures store { IfSome result (λ n. Tells (first_value (found_of reshard.now) (codes "store")) 0 MAX_STORE n.given.store) }
    ensures shards { IfSome result (λ n. Tells (first_value (found_of reshard.now) (codes "shards")) 1 MAX_SHARDS n.given.shards) }
    ensures new_shards { IfSome result (λ n. Tells (first_value (found_of reshard.now) (codes "new-shards")) 1 MAX_SHARDS n.new_shards) }
{
    let given = store_in(reshard)?;
    let new_shards = number_in(reshard, "new-shards", 1, MAX_SHARDS)?;
    Some(Numbers {
        given,
        new_shards: Shards::of(new_shards as u8),
    })
}

// The settings with these folders.
fn settings_in(
    alloc: Global,
    dir: &str,
    to: &str,
    numbers: Numbers,
) -> Result<ReshardSettings, AllocError>
    ensures texts { IfOk result (λ s. (string_bytes s.dir ≡ dir.now) × (string_bytes s.to ≡ to.now)) }
    ensures store { IfOk result (λ s. (s.store ≡ numbers.given.store) × (s.shards ≡ numbers.given.shards)) }
    ensures new_shards { IfOk result (λ s. s.new_shards ≡ numbers.new_shards) }
{
    let Numbers { given, new_shards } = numbers;
    let StoreGiven { store, shards } = given;
    let dir = String::from_str(alloc, dir)?;
    match String::from_str(alloc, to) {
        Ok(to) => Ok(ReshardSettings {
            dir,
            to,
            store,
            shards,
            new_shards,
        }),
        Err(error) => Err(error),
    }
}
