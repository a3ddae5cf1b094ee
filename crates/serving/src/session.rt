// One connection's session.
ghost use Rattle.std.specs.Prelude.{◌≡◌, IfSome, IsErr, OnOk, OnErr};
ghost use Rattle.sessions.specs.Sessions.{Broke, Served};
ghost use Rattle.serving.specs.Protocols.{BeginsOther, left};

use crate::guarded::Guarded;
use crate::patient::Patient;
use crate::pressing::Pressing;
use sessions::{Answers, serve_stream};
use std::alloc::Global;
use std::io::{self, ErrorKind, Read, Write};
use std::time::Clock;

/// Serves one connection from its first line to its last. An error ends the session, as does its being idle or slow for too long while others wait. Of one that
/// begins as HTTP or TLS no line is taken and nothing is written: a web page can make a browser send such a connection, and its lines would be requests.
pub fn serve_one<R: Read, W: Write, C: Clock, A: Answers>(
    alloc: Global,
    input: &mut Guarded<Patient<'_, R, C>>,
    output: &mut Pressing<'_, W, C>,
    answers: &mut A,
) -> io::Result<()>
    ensures ok { OnOk result (Served A.store A.gives (left (λ p. R.remaining p.input) input.old) (left (λ p. R.remaining p.input) input.new) (W.contents output.old.output) (W.contents output.new.output) answers.old answers.new) }
    ensures err { OnErr result (Broke A.store A.gives (left (λ p. R.remaining p.input) input.old) (left (λ p. R.remaining p.input) input.new) (W.contents output.old.output) (W.contents output.new.output) answers.old answers.new) }
    ensures other { IfSome (left (λ p. R.remaining p.input) input.old) (λ bytes. BeginsOther bytes → IsErr result × (output.new ≡ output.old) × (answers.new ≡ answers.old)) }
{
    if input.begins_other()? {
        return Err(ErrorKind::InvalidData.into());
    }
    serve_stream(alloc, input, output, answers)
}
