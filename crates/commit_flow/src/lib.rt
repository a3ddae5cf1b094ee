//! A write, from its beginning to its place in the log: two-phase commit with presumed abort (Mohan, Lindsay, Obermarck 1986), one call a turn.
//!
//! Keeps: what has to be spent, in the phase that may spend it, until a call takes it.
//! Never: calls a node itself or waits; decides twice, or after a refusal or a cancel; needs memory once it is made.
//! Callers rely on: `next_call` asks only for what may be asked, and a flow that is left has spent every value.
//!
//! Start at `specs/Writing.antt`, which calls are made and what each reply makes of it.
#![tactic(auto)]

mod ballot;
mod cancelling;
mod deciding;
mod dropping;
mod end;
mod flow;
mod giving;
mod leaving;
mod load;
mod next;
mod participants;
mod phase;
mod preparing;
mod voting;

pub use end::WriteEnd;
pub use flow::{WriteCall, WriteFlow};
