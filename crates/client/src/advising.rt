// What is done about each refusal.
ghost use Rattle.std.specs.Prelude.{◌≡◌, ◌↔◌, IsTrue, MatchOption};
ghost use Rattle.client.specs.Sent.{IsSentAgain};
ghost use Rattle.refusal.specs.Refusals.{number_of};
ghost use Rattle.refusal.specs.declared.refusal.Refusal.{Refusal as AnyRefusal};

use crate::kind::Kind;
use refusal::Refusal;

/// The refusal with this number.
pub fn refusal_of(number: u64) -> Option<Refusal>
    ensures { MatchOption result ((r : AnyRefusal) → number ≡ number_of r → ⊥) (λ r. number ≡ number_of r) }
{
    match number {
        1 => Some(Refusal::BadRequest),
        2 => Some(Refusal::BadTuple),
        3 => Some(Refusal::TooLarge),
        4 => Some(Refusal::Repeated),
        5 => Some(Refusal::BadZookie),
        6 => Some(Refusal::WrongStore),
        7 => Some(Refusal::Future),
        8 => Some(Refusal::Collected),
        9 => Some(Refusal::Precondition),
        10 => Some(Refusal::Busy),
        11 => Some(Refusal::Aborted),
        12 => Some(Refusal::Unsure),
        13 => Some(Refusal::Down),
        14 => Some(Refusal::NoMemory),
        15 => Some(Refusal::Full),
        16 => Some(Refusal::Damaged),
        _ => None,
    }
}

/// Whether the same request may be sent again, and may then be answered: nothing was done, and what was in the way passes by itself. A check that is `15 Full`
/// goes through too many usersets, and does so again.
pub fn is_sent_again(kind: Kind, refusal: Refusal) -> bool
    ensures { IsTrue result ↔ IsSentAgain kind refusal }
{
    match refusal {
        Refusal::Busy | Refusal::Aborted | Refusal::NoMemory => true,
        Refusal::Full => !matches!(kind, Kind::Check),
        _ => false,
    }
}

/// What is wrong, and what a person at a terminal does about it, as docs/API.md has it.
pub fn advice(kind: Kind, refusal: Refusal) -> &'static str {
    match refusal {
        Refusal::BadRequest => "invalid request, or a write without a change: fix the request",
        Refusal::BadTuple => "invalid tuple, tupleset or name: fix the text",
        Refusal::TooLarge => {
            "too many changes, conditions, tuplesets, namespaces or bytes: send several requests; a write that is split is no longer one write"
        }
        Refusal::Repeated => {
            "two changes, or two conditions, of the write name one tuple: leave one of them out"
        }
        Refusal::BadZookie => "invalid token: take it from an answer, unchanged",
        Refusal::WrongStore => "the token is another store's: ask the store that gave it",
        Refusal::Future => {
            "the token's place is above the end of the log: use a token that this store gave"
        }
        Refusal::Collected => {
            "the place is below the horizon: use a later token; a watch goes on from the token of a dump"
        }
        Refusal::Precondition => {
            "a condition is not met: read again, and decide anew whether to write"
        }
        Refusal::Busy => "a write in doubt holds one of the tuples: retry after a moment",
        Refusal::Aborted => {
            "the coordinator or a shard was opened again since the write began: retry"
        }
        Refusal::Unsure => {
            "it is unknown whether the write was made: read before you send it again"
        }
        Refusal::Down => "restart the server, then retry",
        Refusal::NoMemory => {
            "memory was refused, or a server has no room for so large an answer: ask for less, or retry once there is memory"
        }
        Refusal::Full => full_advice(kind),
        Refusal::Damaged => {
            "stop the server and restore a whole copy: no request can repair this"
        }
    }
}

fn full_advice(kind: Kind) -> &'static str {
    match kind {
        Kind::Check => {
            "the check goes through more than 4096 usersets, and would do so again: ask for less"
        }
        _ => "a limit is met: retry once others are done, or ask for less",
    }
}
