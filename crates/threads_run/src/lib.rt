//! A store in memory that threads share: what `checks/stress` runs and judges, and two small plays of threads that a check can name. The program `harness`
//! runs it.
//!
//! Keeps: each line of a run is what one call was told, between two ticks of the one counter that all threads share.
//! Never: judges what was told, raises a horizon, or keeps a store after its run.
//! Callers rely on: status 0 if the whole run is printed, and if a play went as it has to; 1 if it was not.
//!
//! Start at `stress.rt`, the threads of a run; `worker.rt` has what one of them asks, and `two_callers.rt` and `two_writers.rt` the plays.
#![tactic(auto)]

mod asked;
mod asking;
mod calling;
mod course;
mod disks;
mod drawing;
mod ending;
mod findings;
mod meeting;
mod opening;
mod page;
mod plan;
mod random;
mod single;
mod spelling;
mod stress;
mod troubling;
mod two_callers;
mod two_writers;
mod worker;

pub use asked::Asked;
pub use opening::run;
