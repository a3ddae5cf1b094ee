// The words of a step.
use crate::stores::{STORE, shards};
use names::{Care, NodeName};
use script_text::Command;
use std::alloc::Global;
use tuples::{Refusal, Request, Write};

pub(crate) fn number(text: &str) -> Result<usize, Refusal> {
    text.parse::<usize>().map_err(|_| Refusal::BadRequest)
}

/// Two numbers, with a space between.
pub(crate) fn two_numbers(text: &str) -> Result<(usize, usize), Refusal> {
    let (first, second) = text.split_once(' ').ok_or(Refusal::BadRequest)?;
    Ok((number(first)?, number(second)?))
}

/// The line of a script, in which no flow has a name.
pub(crate) fn command(alloc: Global, line: &str) -> Result<Command, Refusal> {
    Command::parse(alloc, line.as_bytes(), STORE, shards(), &[])
}

/// A request, as a script spells it.
pub(crate) fn request(alloc: Global, line: &str) -> Result<Request, Refusal> {
    match command(alloc, line)? {
        Command::Ask(request) => Ok(request),
        other => {
            drop(other);
            Err(Refusal::BadRequest)
        }
    }
}

/// A write, as a script spells it.
pub(crate) fn write(alloc: Global, line: &str) -> Result<Write, Refusal> {
    match request(alloc, line)? {
        Request::Write(write) => Ok(write),
        other => {
            drop(other);
            Err(Refusal::BadRequest)
        }
    }
}

/// The node that a line of a script flushes.
pub(crate) fn flushed(alloc: Global, line: &str) -> Result<NodeName, Refusal> {
    match care(alloc, line)? {
        Care::Flush(node) => Ok(node),
        _ => Err(Refusal::BadRequest),
    }
}

/// A care, as a script spells it.
pub(crate) fn care(alloc: Global, line: &str) -> Result<Care, Refusal> {
    let command = command(alloc, line)?;
    let care = match &command {
        Command::Care(care) => Ok(*care),
        _ => Err(Refusal::BadRequest),
    };
    drop(command);
    care
}

/// A refusal by its name; those that a node answers.
pub(crate) fn refusal(name: &str) -> Result<Refusal, Refusal> {
    for refusal in [
        Refusal::Future,
        Refusal::Collected,
        Refusal::Precondition,
        Refusal::Busy,
        Refusal::Aborted,
        Refusal::Down,
        Refusal::NoMemory,
        Refusal::Full,
        Refusal::Damaged,
    ] {
        if refusal.name() == name {
            return Ok(refusal);
        }
    }
    Err(Refusal::BadRequest)
}
