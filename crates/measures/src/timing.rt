// What a measure found. Until it is printed, neither the clock nor what was done is asked whether it failed, so that a measure has few exits.
use std::rt::Clock;
use std::time::{Duration, Instant};
use tuples::Refusal;

/// What the clock says, or `Down` if it says nothing.
pub fn now(rt: &impl Clock) -> Result<Instant, Refusal> {
    match Instant::now(rt) {
        Ok(now) => Ok(now),
        Err(_) => Err(Refusal::Down),
    }
}

/// How long ago that was, likewise.
pub fn since(rt: &impl Clock, start: Instant) -> Result<Duration, Refusal> {
    match start.elapsed(rt) {
        Ok(elapsed) => Ok(elapsed),
        Err(_) => Err(Refusal::Down),
    }
}

/// Prints the name, how much was done, the nanoseconds since then, and the answer, if neither the clock nor what was done was refused. The
/// amount is of calls, records, tuples or bytes; the answer is made of what the calls gave, so that none can be left out.
pub fn print_since(
    rt: &(impl Clock + Eprint),
    name: &str,
    start: Result<Instant, Refusal>,
    amount: u64,
    answer: Result<u64, Refusal>,
) -> Result<(), Refusal> {
    let elapsed = since(rt, start?)?;
    print(rt, name, elapsed, amount, answer?)
}

/// The same, of what took so long.
pub fn print(
    rt: &impl Eprint,
    name: &str,
    elapsed: Duration,
    amount: u64,
    answer: u64,
) -> Result<(), Refusal> {
    let nanoseconds = elapsed.as_nanos();
    match eprintln!(rt; "{name} {amount} {nanoseconds} {answer}") {
        Ok(()) => Ok(()),
        Err(_) => Err(Refusal::Down),
    }
}
