// How the words of a command are read.
ghost use Rattle.std.specs.Prelude.{◌≡◌, ◌⊎◌, ◌↔◌, IfErr, IfOk, IfSome, IsTrue, List, Option, Some, map, option_map, slice_get, string_bytes, true};
ghost use Rattle.clap.specs.Walk.{Rule, Text};
ghost use Rattle.clap.specs.Words.{app_of, first_value, found_of, is_simple_and_free, kind_of};
ghost use Rattle.clap.specs.declared.error.kind.ErrorKind.TheVariants.{OutOfMemory};
ghost use Rattle.settings.specs.CommandLine.{IsFor};
ghost use Rattle.settings.specs.Options.{Asks, app_with};

use crate::limits::USAGE;
use crate::parameter::Parameter;
use crate::range::tell_range;
use crate::telling::tell;
use clap::{ArgMatches, Command, Error};
use std::alloc::{AllocError, Global};
use std::io::{Eprint, Print};

/// What a command is asked for.
pub(crate) trait Asked: Sized {
    /// The command's name.
    ghost command: { Text };

    /// Its options, as a parse sees them.
    ghost options: { List Rule };

    /// What they ask for, by the text of each option; a function names the text of an option by its name and its default.
    ghost asks: { (Text → Option Text → Option Text) → Self → Type 0 };

    /// The program, with this one command.
    fn program<'a>(alloc: Global) -> Result<Command<'a>, Error>
        ensures ok { IfOk result (λ c. app_of c ≡ app_with command options) }
        ensures err { IfErr result (λ e. kind_of e ≡ OutOfMemory) };

    /// What it may be given.
    fn parameters() -> &'static [Parameter<'static>];

    /// What the command was given; none if a part of it is missing, which the program refuses already.
    fn given(alloc: Global, matches: &ArgMatches) -> Result<Option<Self>, AllocError>
        ensures { IfOk result (λ o. IfSome o (asks (λ option default. first_value (found_of matches.now) option))) };
}

// Whether the word at this place is that one.
fn is_word(words: &[String], at: usize, wanted: &str) -> bool
    ensures { IsTrue result ↔ (option_map string_bytes (slice_get words.now at) ≡ Some wanted.now) }
{
    match words.get(at) {
        Some(word) => word.as_str() == wanted,
        None => false,
    }
}

/// Whether the words, the program's name first, are for the command: the second one is its name, or it is `help` and the third one is its name.
pub(crate) fn are_for(words: &[String], command: &str) -> bool
    ensures { IsTrue result ↔ IsFor (option_map string_bytes (slice_get words.now 1)) (option_map string_bytes (slice_get words.now 2)) command.now }
{
    is_word(words, 1, command) || is_word(words, 1, "help") && is_word(words, 2, command)
}

/// Reads the words. An `Err` is the status to end with, 0 for help and else 2, once the user is told.
pub(crate) fn read<S: Asked, R: Print + Eprint + AllocGlobal>(
    rt: &R,
    words: &[String],
) -> Result<S, u8>
    ensures asked { IfOk result (λ s. is_simple_and_free (app_with S.command S.options) ≡ true → Asks S.command S.options S.asks (map string_bytes words.now) s) }
    ensures status { IfErr result (λ status. (status ≡ 0) ⊎ (status ≡ USAGE)) }
{
    match parse::<S>(rt.alloc(), words) {
        Ok(Some(asked)) => Ok(asked),
        // The program refuses such words already.
        Ok(None) => Err(USAGE),
        Err(error) => {
            let status = tell(rt, &error);
            if status == USAGE {
                tell_range(rt, words, S::parameters());
            }
            Err(status)
        }
    }
}

fn parse<S: Asked>(alloc: Global, words: &[String]) -> Result<Option<S>, Error>
    ensures { IfOk result (λ o. IfSome o (λ s. is_simple_and_free (app_with S.command S.options) ≡ true → Asks S.command S.options S.asks (map string_bytes words.now) s)) }
{
    let matches = S::program(alloc)?.try_get_matches_from(words)?;
    match matches.subcommand() {
        Some((_, given)) => Ok(S::given(alloc, given)?),
        None => Ok(None),
    }
}
