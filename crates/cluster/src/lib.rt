//! A store as one value: its nodes over their devices, the flows that run, and the steps that it takes, one after another.
//!
//! Keeps: the coordinator before the shards, each shard at its number, and each flow in its slot until it ends.
//! Never: makes more than one node call in a step, or does part of a step for which memory was refused.
//! Callers rely on: what `run` reports is what its steps did, in their order, and nothing else has changed.
//!
//! Start at `specs/Steps.antt`, what each step does and reports, and then `specs/Flows.antt`, what a flow asks and how it
//! ends.
#![tactic(auto)]

mod asking;
mod calling;
mod cancelling;
mod ending;
mod event;
mod flow;
mod naming;
mod reopening;
mod restarting;
mod running;
mod starting;
mod step;
mod taking;
mod turning;
mod world;

pub use event::{Answer, Event, What};
pub use flow::{Flow, Writing};
pub use reopening::reopen;
pub use running::run;
pub use step::Step;
pub use world::World;
