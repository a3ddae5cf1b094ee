// A request is sent, and its answer is waited for.
ghost use Rattle.std.specs.Prelude.{◌≡◌, ◌↔◌, ◌∷◌, ◌++◌, [], IfOk, IsTrue, OnErr, OnOk, string_bytes};
ghost use Rattle.std.specs.Io.KnownBytes.{Appends, Consumes};
ghost use Rattle.client.specs.Answers.{IsAnswer};
ghost use Rattle.client.specs.Sent.{IsAskedAgain, SendsAgain, StopsAsking, answer_bytes};
ghost use Rattle.line_io.specs.Lines.{HasNoFeed};
ghost use Rattle.line_io.specs.Outputs.{HasBegun};

use crate::advising::is_sent_again;
use crate::answer::{Answered, read_answer};
use crate::fault::Fault;
use crate::kind::{Kind, RequestLine};
use line_io::write_all;
use refusal::Refusal;
use std::alloc::{AllocError, Global};
use std::io::{BufRead, ErrorKind, Write};
use std::thread;
use std::time::{Clock, Duration};

// The first pause before a request is sent again, and the longest.
const PAUSE_MILLISECONDS: u64 = 50;

const LONGEST_MILLISECONDS: u64 = 2000;

/// Sends the request, and again while its refusal is one of those after which it may be, up to so many times more, after a pause that grows. The last
/// answer. If it ends with an `Err`, too, it was sent again after such answers alone.
pub fn ask_again<C: Clock, I: BufRead, O: Write>(
    clock: &C,
    alloc: Global,
    input: &mut I,
    output: &mut O,
    request: &RequestLine,
    retry: u64,
) -> Result<Answered, Fault>
    ensures ok { IfOk result (SendsAgain retry request.now.kind (string_bytes request.now.line) (I.remaining input.old) (I.remaining input.new) (O.contents output.old) (O.contents output.new)) }
    ensures err { OnErr result (StopsAsking retry request.now.kind (string_bytes request.now.line) (I.remaining input.old) (O.contents output.old) (O.contents output.new)) }
{
    for number in 0..retry {
        let answered = ask(alloc, input, output, request)?;
        if !is_asked_again(request.kind, answered.refusal) {
            return Ok(answered);
        }
        pause(clock, number);
    }
    ask(alloc, input, output, request)
}

fn is_asked_again(kind: Kind, refusal: Option<Refusal>) -> bool
    ensures { IsTrue result ↔ IsAskedAgain kind refusal }
{
    match refusal {
        Some(refusal) => is_sent_again(kind, refusal),
        None => false,
    }
}

/// The pause before something is tried again for the time with this number.
pub(crate) fn pause(clock: &impl Clock, number: u64) {
    let longer = PAUSE_MILLISECONDS.saturating_mul(1 << number.min(10));
    thread::sleep(
        clock,
        Duration::from_millis(longer.min(LONGEST_MILLISECONDS)),
    );
}

fn ask<I: BufRead, O: Write>(
    alloc: Global,
    input: &mut I,
    output: &mut O,
    request: &RequestLine,
) -> Result<Answered, Fault>
    ensures sent { OnOk result (Appends (O.contents output.old) (O.contents output.new) (string_bytes request.now.line ++ 10 ∷ [])) }
    ensures read { IfOk result (λ a. Consumes (I.remaining input.old) (I.remaining input.new) (answer_bytes a)) }
    ensures answer { IfOk result (IsAnswer request.now.kind) }
    ensures err { OnErr result (HasBegun (O.contents output.old) (O.contents output.new) (string_bytes request.now.line ++ 10 ∷ [])) }
{
    send(alloc, output, request.line.as_str())?;
    let line = receive(alloc, input)?;
    let answered = read_answer(alloc, request.kind, line)?;
    if answered.refusal.is_none() && !answered.is_answer {
        drop(answered);
        return Err(Fault::Stranger);
    }
    Ok(answered)
}

fn send<O: Write>(alloc: Global, output: &mut O, request: &str) -> Result<(), Fault>
    ensures ok { OnOk result (Appends (O.contents output.old) (O.contents output.new) (request.now ++ 10 ∷ [])) }
    ensures err { OnErr result (HasBegun (O.contents output.old) (O.contents output.new) (request.now ++ 10 ∷ [])) }
{
    let bytes = with_feed(alloc, request)?;
    match write_all(output, &bytes) {
        Ok(()) => Ok(()),
        Err(error) => Err(Fault::of_connection(error)),
    }
}

fn with_feed(alloc: Global, request: &str) -> Result<Vec<u8>, AllocError>
    ensures { IfOk result (λ bytes. bytes.items ≡ request.now ++ 10 ∷ []) }
{
    let mut bytes = Vec::new(alloc);
    bytes.extend_from_slice(request.as_bytes())?;
    bytes.push(b'\n')?;
    Ok(bytes)
}

// The next line, without its line feed.
fn receive<I: BufRead>(alloc: Global, input: &mut I) -> Result<String, Fault>
    ensures read { IfOk result (λ line. Consumes (I.remaining input.old) (I.remaining input.new) (string_bytes line ++ 10 ∷ [])) }
    ensures no_feed { IfOk result (λ line. HasNoFeed (string_bytes line)) }
{
    let mut line = String::new(alloc);
    match input.read_line(&mut line) {
        Ok(_) => {
            if line.pop() == Some('\n') {
                Ok(line)
            } else {
                Err(Fault::Gone(ErrorKind::UnexpectedEof.into()))
            }
        }
        Err(error) => Err(Fault::of_connection(error)),
    }
}
