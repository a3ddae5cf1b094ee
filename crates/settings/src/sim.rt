// What a script is run over, and the words that say so.
ghost use Rattle.std.specs.Prelude.{◌≡◌, ◌≤◌, ◌⊎◌, ◌↔◌, IfErr, IfOk, IsTrue, ℕ, codes, false, map, option_map, slice_get, string_bytes};
ghost use Rattle.clap.specs.Words.{FailsBy, app_of, fault_of, kind_of, rule_of};
ghost use Rattle.clap.specs.declared.builder.command.Command.TheViews.{out-Command as fields_of};
ghost use Rattle.clap.specs.declared.error.kind.ErrorKind.TheVariants.{OutOfMemory};
ghost use Rattle.settings.specs.CommandLine.{AsksFor, AsksWhatThereIs, IsFor, program, shards_option, sim, store_option};
ghost use Rattle.settings.specs.declared.limits.TheConstants.{MAX_STORE};

use crate::limits::{MAX_STORE, USAGE};
use crate::parameter::{Parameter, SHARDS, STORE};
use crate::range::tell_range;
use crate::reading::are_for;
use crate::telling::tell;
use clap::builder::ValueParser;
use clap::{Arg, ArgAction, Command, Error};
use std::alloc::Global;
use std::env::{self, Env};
use std::io::{Eprint, Print};
use tuples::Shards;

const SIM: &str =
    "Runs a script from standard input over a new store on disks in memory, and prints the answer of
each line before it reads the next one. Nothing outlives the process.";

const LINES: &str = "Example:
  zanstore sim <<'END'
  write +doc:readme#viewer@group:staff#member +group:staff#member@ann
  check latest doc:readme#viewer@ann
  END

It prints the token of the write's place, and then yes with the token of the place that was read:
  ok AQAAAAAAAAAAAQAAAAAAAAAB
  yes AQAAAAAAAAAAAQAAAAAAAAAB

Requests:
  write +doc:a#viewer@u1 -doc:b#viewer@u1 if ?doc:a#owner@u1 !doc:c#viewer@u1 doc:a#lock@lock=3
                                touches and deletes, applied only if every condition holds: the
                                tuple exists, is absent, or has not changed since the place
  read latest doc:a doc@u1      tuples of an object or of a user, each with its tupleset's number
  check latest doc:a#viewer@u1  whether the user is in the userset, directly or through others
  watch TOKEN 256 doc group     the changes at the next 256 places in these namespaces
In place of latest, >=TOKEN asks for that place or a later one, and =TOKEN for exactly that one.

A request call by call, under a name:
  start w REQUEST, turn w, until w decide, run w, cancel w

The care of the nodes (c is the coordinator, 0 a shard):
  flush c, checkpoint c, learn 0, resolve 0, raise 4, collect 0, rows 0

Failures: the fourth call of the coordinator's device a fails, and what was written since its last
sync will be found as a5 (or old, or new). Then a restart, which finds it so:
  fail ca 4 a5, restart c

The store goes on with another number of shards, if nothing is under way:
  reshard 3

An empty line and one that begins with ; print nothing. A line that can't be carried out prints
refused, a number and a name. docs/SCRIPTS.md and docs/API.md explain each of them.

Exit status: 0 at the end of the input; 1 if the input or the output failed, or there was no memory
for the disks; 2 for a command line that can't be read.";

/// What `zanstore sim` was asked for.
#[derive(Clone, Copy, Debug, PartialEq, Eq)]
pub struct Settings {
    /// The id of the store, from 0 to 4,294,967,295.
    pub store: u64,
    /// The number of shards, from 1 to 64.
    pub shards: Shards,
    ghost fits: { store ≤ MAX_STORE },
}

// The options of a script that take numbers.
const NUMBERS: &[Parameter] = &[STORE, SHARDS];

impl Settings {
    /// Whether the words of the command line, the program's name first, are for this command: the second one is `sim`, or it is `help` and the third one is `sim`.
    pub fn are_for(words: &[String]) -> bool
        ensures { IsTrue result ↔ IsFor (option_map string_bytes (slice_get words.now 1)) (option_map string_bytes (slice_get words.now 2)) (codes "sim") }
    {
        are_for(words, "sim")
    }

    /// Reads the words of the command line. An `Err` is the status to end with: the user asked what there is, or is told what is wrong.
    pub fn read<R: Env + Print + Eprint + AllocGlobal>(rt: &R) -> Result<Settings, u8>
        ensures { IfErr result (λ status. (status ≡ 0) ⊎ (status ≡ USAGE)) }
    {
        let Ok(args) = env::args(rt) else {
            return Err(USAGE);
        };
        let Ok(words) = args.collect::<Vec<String>>(rt.alloc()) else {
            return Err(USAGE);
        };
        let asked = answer(rt, &words);
        if asked.is_err() {
            tell_range(rt, &words, NUMBERS);
        }
        asked
    }

    /// What the words ask for, the name of the program first. A line that asks for settings is refused for memory alone.
    pub fn parse<'a>(alloc: Global, words: &'a [String]) -> Result<Settings, Error>
        ensures asked { IfOk result (λ s.
            AsksFor (map string_bytes words.now) s.store s.shards) }
        ensures taken { IfErr result (λ e. (store shards : ℕ)
            → AsksFor (map string_bytes words.now) store shards → kind_of e ≡ OutOfMemory) }
        ensures kinds { FailsBy (fault_of program (map string_bytes words.now)) result }
    {
        let matches = command(alloc)?.try_get_matches_from(words)?;
        let (_, sim) = matches.subcommand().unwrap();
        let store = sim.get_one::<u64>("store").unwrap();
        let shards = sim.get_one::<u8>("shards").unwrap();
        Ok(Settings {
            store,
            shards: Shards::of(shards),
        })
    }
}

// What the words ask for, or the status to end with, once the user is told.
fn answer<R: Print + Eprint + AllocGlobal>(rt: &R, words: &[String]) -> Result<Settings, u8>
    ensures asked { IfOk result (λ s.
        AsksFor (map string_bytes words.now) s.store s.shards) }
    ensures status { IfErr result (λ status. (status ≡ USAGE)
        ⊎ ((status ≡ 0) × AsksWhatThereIs (map string_bytes words.now))) }
{
    match Settings::parse(rt.alloc(), words) {
        Ok(settings) => Ok(settings),
        Err(error) => Err(tell(rt, &error)),
    }
}

fn store_argument<'a>(alloc: Global) -> Arg<'a>
    ensures rule { rule_of result ≡ store_option }
    ensures local { result.global ≡ false }
{
    Arg::new(alloc, "store")
        .long("store")
        .value_name("N")
        .help("The id of the store, from 0 to 4294967295")
        .action(ArgAction::Set)
        .value_parser(ValueParser::unsigned(0, MAX_STORE))
        .default_value("1")
}

fn shards_argument<'a>(alloc: Global) -> Arg<'a>
    ensures rule { rule_of result ≡ shards_option }
    ensures local { result.global ≡ false }
{
    Arg::new(alloc, "shards")
        .long("shards")
        .value_name("N")
        .help("The number of shards, from 1 to 64")
        .action(ArgAction::Set)
        .value_parser(ValueParser::signed(1, 64))
        .default_value("2")
}

// The command that runs a script, and what it may be given.
fn sim_command<'a>(alloc: Global) -> Result<Command<'a>, Error>
    ensures ok { IfOk result (λ c. app_of c ≡ sim) }
    ensures local { IfOk result (λ c. (fields_of c).has_globals ≡ false) }
    ensures err { IfErr result (λ e. kind_of e ≡ OutOfMemory) }
{
    Ok(
        Command::new(alloc, "sim")
            .about("Runs a script from standard input over a store in memory")
            .long_about(SIM)
            .after_long_help(LINES)
            .arg(store_argument(alloc))?
            .arg(shards_argument(alloc))?,
    )
}

// The program's one command.
fn command<'a>(alloc: Global) -> Result<Command<'a>, Error>
    ensures ok { IfOk result (λ c. app_of c ≡ program) }
    ensures err { IfErr result (λ e. kind_of e ≡ OutOfMemory) }
{
    let script = sim_command(alloc)?;
    Ok(
        Command::new(alloc, "zanstore")
            .subcommand_required(true)
            .subcommand(script)?,
    )
}
