// What a command may be given, and what help says of it.
ghost use Rattle.std.specs.Prelude.{◌≡◌, IfErr, IfOk, Some, false, map, true};
ghost use Rattle.clap.specs.Words.{app_of, kind_of, rule_of};
ghost use Rattle.clap.specs.declared.builder.command.Command.TheViews.{out-Command as fields_of};
ghost use Rattle.clap.specs.declared.error.kind.ErrorKind.TheVariants.{OutOfMemory};
ghost use Rattle.clap.specs.Lexer.{usize_max};
ghost use Rattle.clap.specs.declared.builder.action.ArgAction.TheVariants.{Append, Set};
ghost use Rattle.settings.specs.Options.{app_with, command_with, rule_for, taking_rule};

use crate::limits::{MAX_SHARDS, MAX_STORE};
use clap::builder::ValueParser;
use clap::{Arg, ArgAction, Command, Error};
use std::alloc::Global;

/// A command beside the program's name.
#[derive(Clone, Copy)]
pub(crate) struct Manual<'a> {
    pub(crate) name: &'a str,
    pub(crate) about: &'a str,
    pub(crate) long_about: &'a str,
    pub(crate) after_help: &'a str,
}

/// An option, or a word in its place.
#[derive(Clone, Copy)]
pub(crate) struct Parameter<'a> {
    pub(crate) name: &'a str,
    pub(crate) value_name: &'a str,
    pub(crate) help: &'a str,
    pub(crate) takes: Takes,
    pub(crate) otherwise: Otherwise<'a>,
}

/// What follows the name of an option, or stands in its place.
#[derive(Clone, Copy)]
pub(crate) enum Takes {
    /// A text.
    Text,
    /// A number from the first to the second one.
    Number(u64, u64),
    /// Nothing.
    Nothing,
    /// The first word, and no name before it.
    Word,
    /// All words from there on, each of which may begin with a hyphen.
    Rest,
}

/// What words without it mean.
#[derive(Clone, Copy)]
pub(crate) enum Otherwise<'a> {
    /// They are refused.
    Refused,
    /// It is not there.
    Missing,
    /// It is this.
    Default(&'a str),
}

/// The folder of a store in files.
pub(crate) const DIR: Parameter = Parameter {
    name: "dir",
    value_name: "DIR",
    help: "The folder of the store's files",
    takes: Takes::Text,
    otherwise: Otherwise::Refused,
};

/// The id of a store in files.
pub(crate) const STORE: Parameter = Parameter {
    name: "store",
    value_name: "N",
    help: "The id of the store, from 0 to 4294967295",
    takes: Takes::Number(0, MAX_STORE),
    otherwise: Otherwise::Refused,
};

/// Its number of shards.
pub(crate) const SHARDS: Parameter = Parameter {
    name: "shards",
    value_name: "N",
    help: "The number of shards, from 1 to 64",
    takes: Takes::Number(1, MAX_SHARDS),
    otherwise: Otherwise::Refused,
};

/// The program, with this one command.
pub(crate) fn program<'a>(
    alloc: Global,
    manual: Manual<'a>,
    parameters: &[Parameter<'a>],
) -> Result<Command<'a>, Error>
    ensures ok { IfOk result (λ c. app_of c ≡ app_with manual.entry.name.now (map rule_for parameters.now)) }
    ensures err { IfErr result (λ e. kind_of e ≡ OutOfMemory) }
{
    let command = command(alloc, manual, parameters)?;
    Ok(
        Command::new(alloc, "zanstore")
            .subcommand_required(true)
            .subcommand(command)?,
    )
}

fn command<'a>(
    alloc: Global,
    manual: Manual<'a>,
    parameters: &[Parameter<'a>],
) -> Result<Command<'a>, Error>
    ensures ok { IfOk result (λ c. app_of c ≡ command_with manual.entry.name.now (map rule_for parameters.now)) }
    ensures local { IfOk result (λ c. (fields_of c).has_globals ≡ false) }
    ensures err { IfErr result (λ e. kind_of e ≡ OutOfMemory) }
{
    let mut command = Command::new(alloc, manual.name)
        .about(manual.about)
        .long_about(manual.long_about)
        .after_help(manual.after_help);
    for parameter in parameters {
        command = command.arg(argument(alloc, *parameter))?;
    }
    Ok(command)
}

fn argument<'a>(alloc: Global, parameter: Parameter<'a>) -> Arg<'a>
    ensures rule { rule_of result ≡ rule_for parameter.entry }
    ensures local { result.global ≡ false }
{
    let argument = taking(alloc, parameter);
    match parameter.otherwise {
        Otherwise::Refused => argument.required(true),
        Otherwise::Missing => argument,
        Otherwise::Default(value) => argument.default_value(value),
    }
}

// What follows its name, and what help says of it.
fn taking<'a>(alloc: Global, parameter: Parameter<'a>) -> Arg<'a>
    ensures rule { rule_of result ≡ taking_rule parameter.entry }
    ensures local { result.global ≡ false }
{
    let Parameter {
        name,
        value_name,
        ..
    } = parameter;
    let argument = Arg::new(alloc, name).help(parameter.help);
    match parameter.takes {
        Takes::Text => option(argument, name, value_name),
        Takes::Number(least, most) => {
            option(argument, name, value_name).value_parser(ValueParser::unsigned(least, most))
        }
        Takes::Nothing => argument.long(name).action(ArgAction::SetTrue),
        Takes::Word => argument.value_name(value_name).action(ArgAction::Set),
        Takes::Rest => rest(argument, value_name),
    }
}

// An option with a value after its name.
fn option<'a>(argument: Arg<'a>, name: &'a str, value_name: &'a str) -> Arg<'a>
    ensures rule { rule_of result ≡ record (rule_of argument.entry) { long = Some name.entry.now; action = Some Set; value_names = 1 } }
    ensures local { result.global ≡ argument.entry.global }
{
    argument
        .long(name)
        .value_name(value_name)
        .action(ArgAction::Set)
}

// All words that are left. Each may begin with a hyphen.
fn rest<'a>(argument: Arg<'a>, value_name: &'a str) -> Arg<'a>
    ensures rule { rule_of result ≡ record (rule_of argument.entry) { action = Some Append; value_names = 1; range = Some (record { start_inclusive = 0; end_inclusive = usize_max }); trailing_var_arg = true; is_simple = false } }
    ensures local { result.global ≡ argument.entry.global }
{
    argument
        .value_name(value_name)
        .action(ArgAction::Append)
        .num_args(0..)
        .trailing_var_arg(true)
        .allow_hyphen_values(true)
}
