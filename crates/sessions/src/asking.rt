// What answers the requests of a session.
ghost use Rattle.std.specs.Prelude.{◌≡◌, Result, ℕ};
ghost use Rattle.json_lines.specs.declared.answer.Answer.{Answer as AnyAnswer};
ghost use Rattle.refusal.specs.declared.refusal.Refusal.{Refusal as AnyRefusal};
ghost use Rattle.tuples.specs.declared.request.Request.{Request as AnyRequest};
ghost use Rattle.sessions.specs.Sessions.{told};

use json_lines::{Answer, Events, Membership, Rows, Written};
use tuples::{Freshness, Namespace, Refusal, Request, Tuple, Tupleset, Write};

/// What answers the requests of one store, one call for each op.
pub trait Answers {
    /// The id of that store.
    ghost store: { ℕ };

    /// It may give this answer or refusal to the request, and is then that.
    ghost gives: { Self → AnyRequest → Result AnyAnswer AnyRefusal → Self → Type 0 };

    /// The id of the store, of which each token is.
    fn store_id(&self) -> u64
        ensures { result ≡ store };

    fn write(&mut self, write: Write) -> Result<Written, Refusal>
        ensures { gives self.old (Request.Write write) (told (λ a. Answer.Written a) result) self.new };

    fn read(&mut self, freshness: Freshness, sets: Vec<Tupleset>) -> Result<Rows, Refusal>
        ensures { gives self.old (Request.Read freshness sets) (told (λ a. Answer.Rows a) result) self.new };

    fn check(&mut self, freshness: Freshness, tuple: Tuple) -> Result<Membership, Refusal>
        ensures { gives self.old (Request.Check freshness tuple) (told (λ a. Answer.Membership a) result) self.new };

    fn watch(
        &mut self,
        from: u64,
        limit: u16,
        namespaces: Vec<Namespace>,
    ) -> Result<Events, Refusal>
        ensures { gives self.old (Request.Watch from limit namespaces) (told (λ a. Answer.Events a) result) self.new };
}

/// Hands the parts of the request to the call of its op.
pub(crate) fn ask<A: Answers>(answers: &mut A, request: Request) -> Result<Answer, Refusal>
    ensures { A.gives answers.old request result answers.new }
{
    match request {
        Request::Write(write) => match answers.write(write) {
            Ok(written) => Ok(Answer::Written(written)),
            Err(refusal) => Err(refusal),
        },
        Request::Read { freshness, sets } => match answers.read(freshness, sets) {
            Ok(rows) => Ok(Answer::Rows(rows)),
            Err(refusal) => Err(refusal),
        },
        Request::Check { freshness, tuple } => match answers.check(freshness, tuple) {
            Ok(membership) => Ok(Answer::Membership(membership)),
            Err(refusal) => Err(refusal),
        },
        Request::Watch {
            from,
            limit,
            namespaces,
        } => match answers.watch(from, limit, namespaces) {
            Ok(events) => Ok(Answer::Events(events)),
            Err(refusal) => Err(refusal),
        },
    }
}
