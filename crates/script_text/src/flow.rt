// What is done with a flow that runs, as `turn w` or `until w decide`.
ghost use Rattle.std.specs.Prelude.{ℕ, MatchOption};
ghost use Rattle.names.specs.declared.call_name.CallName.{CallName as AnyCall};
ghost use Rattle.script_text.specs.declared.flow.Handling.{Handling as AnyHandling};
ghost use Rattle.script_text.specs.Lines.{SpellsHandling};
ghost use Rattle.script_text.specs.Words.{texts};

use crate::name::{Name, find};
use crate::words::{one_behind, two_behind};
use names::CallName;

/// What is done with a flow that runs.
#[derive(Clone, Copy, Debug, PartialEq, Eq)]
pub enum Handling {
    /// `turn w`: it makes its next call.
    Turn,
    /// `until w decide`: it makes its calls while the next is another.
    Until(CallName),
    /// `run w`: it makes its calls to its end.
    Run,
    /// `cancel w`: it is taken out, and makes its calls to its end.
    Cancel,
}

/// What these words do, and with which flow, by its number among those that run.
pub(crate) fn parse_handling(words: &[&[u8]], running: &[Name]) -> Option<(usize, Handling)>
    ensures { MatchOption result ((flow : ℕ) (h : AnyHandling) → SpellsHandling running.now (texts words.now) flow h → ⊥) (λ p. SpellsHandling running.now (texts words.now) p.0 p.1) }
{
    if let Some(name) = one_behind(words, b"turn") {
        return Some((find(name, running)?, Handling::Turn));
    }
    if let Some(name) = one_behind(words, b"run") {
        return Some((find(name, running)?, Handling::Run));
    }
    if let Some(name) = one_behind(words, b"cancel") {
        return Some((find(name, running)?, Handling::Cancel));
    }
    let Some(until) = parse_until(words, running) else {
        return None;
    };
    Some(until)
}

fn parse_until(words: &[&[u8]], running: &[Name]) -> Option<(usize, Handling)>
    ensures { MatchOption result ((flow : ℕ) (call : AnyCall) → SpellsHandling running.now (texts words.now) flow (Handling.Until call) → ⊥) (λ p. SpellsHandling running.now (texts words.now) p.0 p.1) }
{
    let (name, call) = two_behind(words, b"until")?;
    let flow = find(name, running)?;
    Some((flow, Handling::Until(CallName::parse(call)?)))
}
