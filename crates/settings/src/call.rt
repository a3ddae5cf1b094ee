// What a call is asked for, and the words that say so.
ghost use Rattle.std.specs.Prelude.{◌≡◌, ◌≤◌, ◌⊎◌, ◌↔◌, IfErr, IfSome, IsTrue, codes};
ghost use Rattle.std.specs.Prelude.{option_map, slice_get, string_bytes};
ghost use Rattle.std.specs.Option.{ForSome};
ghost use Rattle.settings.specs.CommandLine.{IsFor};
ghost use Rattle.settings.specs.declared.limits.TheConstants.{MAX_AMOUNT, MAX_RETRY};

use crate::given::number_in;
use crate::limits::{MAX_AMOUNT, MAX_RETRY, USAGE};
use crate::parameter::{Manual, Otherwise, Parameter, Takes, program};
use crate::reading::{Asked, are_for, read};
use clap::{ArgMatches, Command, Error};
use std::alloc::{AllocError, Global};
use std::io::{Eprint, Print};

const EXAMPLE: &str = "Examples:
  zanstore call 127.0.0.1:7700 write +doc:readme#viewer@ann
  zanstore call 127.0.0.1:7700 check doc:readme#viewer@ann
  zanstore call 127.0.0.1:7700 --follow watch AQAAAAAAAAAAAQAAAAAAAAAA 256 doc

Options come before the first word of the request. Requests, which may also be lines of JSON:
  write +TUPLE -TUPLE .. if ?TUPLE !TUPLE TUPLE=TOKEN ..
  read [latest | at-least TOKEN | exact TOKEN] TUPLESET ..
  check [latest | at-least TOKEN | exact TOKEN] TUPLE
  watch TOKEN LIMIT NAMESPACE ..
  place TOKEN    the store and the place of a token; no server is asked
On standard input, empty lines and lines that begin with ; are skipped.

Exit status: 0 if each request was answered and none refused; 1 if one was refused or is invalid, if
the connection failed, ended or gave no answer in time, or if the input or output failed; 2 for a
command line that can't be read. With --status: 0 for a member; 1 for none; 2 otherwise.";

const CALL: &str =
    "Sends requests to a server, one after another, and prints each answer line as it is.
Standard error says what to do about each refusal.";

const MANUAL: Manual = Manual {
    name: "call",
    about: "Sends requests to a server",
    long_about: CALL,
    after_help: EXAMPLE,
};

const PARAMETERS: &[Parameter] = &[
    Parameter {
        name: "addr",
        value_name: "ADDR",
        help: "The address of the server, like 127.0.0.1:7700",
        takes: Takes::Word,
        otherwise: Otherwise::Refused,
    },
    Parameter {
        name: "retry",
        value_name: "N",
        help: "How often a request is sent again, if that is safe, from 0 to 1000",
        takes: Takes::Number(0, MAX_RETRY),
        otherwise: Otherwise::Missing,
    },
    Parameter {
        name: "timeout",
        value_name: "SECONDS",
        help: "How many seconds to wait for the connection and for each answer; without it, for ever",
        takes: Takes::Number(1, MAX_AMOUNT),
        otherwise: Otherwise::Missing,
    },
    Parameter {
        name: "follow",
        value_name: "",
        help: "Repeats a watch from each heartbeat, until you stop it",
        takes: Takes::Nothing,
        otherwise: Otherwise::Missing,
    },
    Parameter {
        name: "reconnect",
        value_name: "",
        help: "With --follow: connects anew after an end of the connection, and goes on",
        takes: Takes::Nothing,
        otherwise: Otherwise::Missing,
    },
    Parameter {
        name: "status",
        value_name: "",
        help: "Prints no answer to a check: the exit status is 0 for a member, 1 for none, and else 2",
        takes: Takes::Nothing,
        otherwise: Otherwise::Missing,
    },
    Parameter {
        name: "words",
        value_name: "WORDS",
        help: "The words of one request; without any, each line of standard input is one",
        takes: Takes::Rest,
        otherwise: Otherwise::Missing,
    },
];

/// What `zanstore call` was asked for.
#[derive(Debug, Drop, PartialEq, Eq)]
pub struct CallSettings {
    /// The address of the server.
    pub address: String,
    /// How often a request that may be sent again is, from 0 to 1,000.
    pub retry: u64,
    /// For how many seconds at most the connection, and each answer, is waited for. None: without a limit.
    pub timeout: Option<u64>,
    /// Whether a watch goes on from each heartbeat.
    pub follow: bool,
    /// Whether it does so over a new connection if one ends.
    pub reconnect: bool,
    /// Whether the status alone tells what a check was answered.
    pub status: bool,
    /// The words of one request with a space between, if there are any.
    pub request: Option<String>,
    ghost few: { retry ≤ MAX_RETRY },
    ghost waits: { ForSome timeout (λ seconds. 1 ≤ seconds) },
    ghost ends: { ForSome timeout (λ seconds. seconds ≤ MAX_AMOUNT) },
}

impl CallSettings {
    /// Whether the words of the command line, the program's name first, are for this command: the second one is `call`, or it is `help` and the third one is `call`.
    pub fn are_for(words: &[String]) -> bool
        ensures { IsTrue result ↔ IsFor (option_map string_bytes (slice_get words.now 1)) (option_map string_bytes (slice_get words.now 2)) (codes "call") }
    {
        are_for(words, "call")
    }

    /// Reads the words. An `Err` is the status to end with, 0 for help and else 2, once the user is told.
    pub fn read<R: Print + Eprint + AllocGlobal>(
        rt: &R,
        words: &[String],
    ) -> Result<CallSettings, u8>
        ensures { IfErr result (λ status. (status ≡ 0) ⊎ (status ≡ USAGE)) }
    {
        let asked = read::<CallSettings, R>(rt, words)?;
        let Some(word) = asked.misplaced() else {
            return Ok(asked);
        };
        // A text that can't be printed changes nothing of the status.
        let _ = eprintln!(rt;
            "error: '{word}' is not a word of a request; options come before its first word\n\nFor more information, try 'zanstore call --help'."
        );
        Err(USAGE)
    }

    // The first word of the request that looks like an option. Lines of JSON have any words.
    fn misplaced(&self) -> Option<&str> {
        match &self.request {
            Some(request) => option_among(request.as_str()),
            None => None,
        }
    }
}

impl Asked for CallSettings {
    ghost use Rattle.std.specs.Prelude.{codes};
    ghost use Rattle.settings.specs.Commands.{call_options};

    ghost command = { codes "call" };

    ghost options = { call_options };

    // What follows the address may begin with a hyphen, so `clap` doesn't say what it makes of the words.
    ghost asks = { λ told s. Unit {0} };

    fn program<'a>(alloc: Global) -> Result<Command<'a>, Error> {
        program(alloc, MANUAL, PARAMETERS)
    }

    fn parameters() -> &'static [Parameter<'static>] {
        PARAMETERS
    }

    fn given(alloc: Global, call: &ArgMatches) -> Result<Option<CallSettings>, AllocError> {
        let (Some(address), Some(retry)) = (call.get_str("addr"), retry_of(call)) else {
            return Ok(None);
        };
        let request = match call.get_strs("words") {
            Some(words) => joined(alloc, words)?,
            None => None,
        };
        let address = String::from_str(alloc, address)?;
        Ok(Some(CallSettings {
            address,
            retry,
            timeout: number_in(call, "timeout", 1, MAX_AMOUNT),
            follow: call.get_flag("follow"),
            reconnect: call.get_flag("reconnect"),
            status: call.get_flag("status"),
            request,
        }))
    }
}

// A first word that begins with a hyphen, or a later one that begins with two: no request has such words, since a namespace begins otherwise.
fn option_among(request: &str) -> Option<&str> {
    if request.starts_with('{') {
        return None;
    }
    if request.starts_with('-') {
        return request.split(' ').next();
    }
    request.split(' ').find(|word| word.starts_with("--"))
}

// How often a request is sent again; never, if nothing is said.
fn retry_of(call: &ArgMatches) -> Option<u64>
    ensures { IfSome result (λ n. n ≤ MAX_RETRY) }
{
    match call.get_one::<u64>("retry") {
        Some(retry) if retry <= MAX_RETRY => Some(retry),
        // The command refuses it already.
        Some(_) => None,
        None => Some(0),
    }
}

// The words with a space between; none if there are none.
fn joined(alloc: Global, words: &[&str]) -> Result<Option<String>, AllocError> {
    if words.is_empty() {
        return Ok(None);
    }
    Ok(Some(words.join(alloc, " ")?))
}
