// The commands of a script.
ghost use Rattle.std.specs.Prelude.{◌≤◌, ◌<◌, ◌↔◌, ◌∷◌, ℕ, IfOk, IfErr, IsErrOf, IsTrue, MatchOption, codes, length};
ghost use Rattle.tuples.specs.Limits.{max_line};
ghost use Rattle.script_text.specs.Causes.{Cause, WordsCause};
ghost use Rattle.script_text.specs.Lines.{IsPassed, SpellNoOrder, Spells, SpellsWords};
ghost use Rattle.script_text.specs.Words.{texts};

use crate::care::parse_care;
use crate::fail::{Failure, parse_fail};
use crate::flow::{Handling, parse_handling};
use crate::name::{Name, is_free};
use crate::node::{parse_restart, parse_rows};
use crate::request::request_of;
use crate::resharding::parse_reshard;
use crate::shapes::shape_of;
use crate::words::{behind, split_words};
use names::{Care, NodeName};
use std::alloc::Global;
use tuples::{MAX_LINE, Refusal, Request, Shards};

/// What one line of a script asks for.
#[derive(Drop)]
pub enum Command {
    /// Nothing: the line is empty, or begins with `;`.
    Pass,
    /// `write +doc:a#viewer@ann -doc:a#viewer@bob if doc:a#lock@lock=3 ?doc:b#viewer@ann !doc:c#viewer@ann`,
    /// `read latest doc:a doc#viewer@ann`, `check >=Z doc:a#viewer@ann` or `watch Z 256 doc`
    Ask(Request),
    /// `start w` and one of these.
    Start(Name, Request),
    /// `turn w`, `until w decide`, `run w` or `cancel w`, with the number of the flow among those that run.
    Handle(usize, Handling),
    /// `flush c`, `checkpoint c`, `learn 0`, `resolve 0`, `raise 3` or `collect 0`
    Care(Care),
    /// `rows 0`
    Rows(u8),
    /// `restart c`
    Restart(NodeName),
    /// `fail 0a 4 a5`
    Fail(Failure),
    /// `reshard 3`: the store is carried over to one of this many shards.
    Reshard(Shards),
}

impl Command {
    /// The command that the line spells, at the store with this id and this many shards, if flows of these names run; the line comes
    /// without its line feed. A refusal is that of the first thing wrong, in this order: `TooLarge` for a line past the limit, `BadRequest`
    /// if its words are in no command's shape, or have a name that is not free or of no flow, or a shard that is not there, `TooLarge` for
    /// more changes, conditions, tuplesets or namespaces than the limits, `BadTuple` if a text is not in its grammar, `BadZookie` or
    /// `WrongStore` for a token that is not of this store, `Repeated` if two changes or two conditions name one tuple. `NoMemory` may come
    /// for any line that is not passed.
    pub fn parse(
        alloc: Global,
        line: &[u8],
        store: u64,
        shards: Shards,
        running: &[Name],
    ) -> Result<Command, Refusal>
        ensures long { max_line < length line.now → IsErrOf result Refusal.TooLarge }
        ensures passed { IsPassed line.now → length line.now ≤ max_line → IfErr result (λ e. ⊥) }
        ensures ok { IfOk result (Spells store shards running.now line.now) }
        ensures err { IfErr result (Cause store shards running.now line.now) }
    {
        if line.len() > MAX_LINE {
            return Err(Refusal::TooLarge);
        }
        if is_passed(line) {
            return Ok(Command::Pass);
        }
        parse_words(alloc, &split_words(alloc, line)?, store, shards, running)
    }
}

// Nothing is done for an empty line and for a comment.
fn is_passed(line: &[u8]) -> bool
    ensures { IsTrue result ↔ IsPassed line.now }
{
    match line.first() {
        None => true,
        Some(byte) => *byte == b';',
    }
}

fn parse_words(
    alloc: Global,
    words: &[&[u8]],
    store: u64,
    shards: Shards,
    running: &[Name],
) -> Result<Command, Refusal>
    ensures ok { IfOk result (SpellsWords store shards running.now (texts words.now)) }
    ensures err { IfErr result (WordsCause store shards running.now (texts words.now)) }
{
    if let Some(words) = behind(words, b"start") {
        return parse_start(alloc, words, store, running);
    }
    if let Some(shape) = shape_of(words) {
        return Ok(Command::Ask(request_of(alloc, shape, store)?));
    }
    let Some(order) = parse_order(words, shards, running) else {
        return Err(Refusal::BadRequest);
    };
    Ok(order)
}

// The words after `start`.
fn parse_start(
    alloc: Global,
    words: &[&[u8]],
    store: u64,
    running: &[Name],
) -> Result<Command, Refusal>
    ensures ok { (shards : ℕ) → IfOk result (SpellsWords store shards running.now (codes "start" ∷ texts words.now)) }
    ensures err { (shards : ℕ) → IfErr result (WordsCause store shards running.now (codes "start" ∷ texts words.now)) }
{
    let Some((name, words)) = words.split_first() else {
        return Err(Refusal::BadRequest);
    };
    if !is_free(name, running) {
        return Err(Refusal::BadRequest);
    }
    let Some(shape) = shape_of(words) else {
        return Err(Refusal::BadRequest);
    };
    let name = Name::copy(alloc, name)?;
    Ok(Command::Start(name, request_of(alloc, shape, store)?))
}

// A command that is not a request.
fn parse_order(words: &[&[u8]], shards: Shards, running: &[Name]) -> Option<Command>
    ensures { (store : ℕ) → MatchOption result (SpellNoOrder store shards running.now (texts words.now)) (SpellsWords store shards running.now (texts words.now)) }
{
    if let Some((flow, handling)) = parse_handling(words, running) {
        return Some(Command::Handle(flow, handling));
    }
    if let Some(care) = parse_care(words, shards) {
        return Some(Command::Care(care));
    }
    if let Some(shard) = parse_rows(words, shards) {
        return Some(Command::Rows(shard));
    }
    if let Some(node) = parse_restart(words, shards) {
        return Some(Command::Restart(node));
    }
    if let Some(failure) = parse_fail(words, shards) {
        return Some(Command::Fail(failure));
    }
    let Some(count) = parse_reshard(words) else {
        return None;
    };
    Some(Command::Reshard(count))
}
