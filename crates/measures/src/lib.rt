//! Measures of values, tables, queues and sessions, and how a measure is printed.
//!
//! Keeps: what a measure runs is what the other crates prove.
//! Never: opens a node.
//! Callers rely on: each line on standard error is a name, how much was done, the nanoseconds, and what it answered.
//!
//! Each measure has a file; `timing.rt` prints what one found, and `sample.rt` has the records of two.
#![tactic(auto)]

pub mod changes;
pub mod codec;
pub mod crowd;
pub mod doubts;
pub mod latest;
pub mod lines;
pub mod pairs;
pub mod rows;
pub mod sample;
pub mod texts;
pub mod timing;
