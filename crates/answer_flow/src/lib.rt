//! The answers of a store at one place: reads, checks and watches, one call a turn.
//!
//! Keeps: the place, once it is found, and what was gathered there so far.
//! Never: calls a node itself or waits; reads at another place than the one that it answers.
//! Callers rely on: an answer is what the replies at its place gave, all of it; a refusal was in a reply, or has its very cause.
//!
//! Start at `specs/Finding.antt`, at which place an answer is, and then `specs/Watching.antt`, `specs/Reading.antt` and `specs/Checking.antt`, which
//! calls are made and what each reply makes of it.
#![tactic(auto)]

mod check_at;
mod check_flow;
mod check_phase;
mod check_turns;
mod checking;
mod events;
mod finding;
mod hastening;
mod merging;
mod read_at;
mod read_flow;
mod read_phase;
mod read_turns;
mod reading;
mod walk;
mod watch_flow;
mod watch_phase;
mod watching;

pub use check_flow::{CheckCall, CheckFlow};
pub use check_phase::{CheckDone, CheckEnd};
pub use read_flow::{ReadCall, ReadFlow};
pub use read_phase::{ReadDone, ReadEnd};
pub use watch_flow::{WatchCall, WatchFlow};
pub use watch_phase::WatchEnd;
