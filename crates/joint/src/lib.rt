//! One state of all nodes and of all callers, in the proofs alone. Each lock has a pass that holds its node's part of it, and each caller has one that holds its own goods.
//!
//! Keeps: the law of the state at every moment, whichever thread changes which part.
//! Never: locks, writes a word after `new`, or keeps a part: a step is one load of a word that nobody writes.
//! Callers rely on: whoever changes a part owes that the law is kept in every state that has it, and knows that the state has it.
//! A fact that is once right of the state stays right, for each pass that knows it.
//!
//! In the literature the state is ghost state, a pass owns a piece of it, a fact is persistent knowledge, and what a change owes is its guarantee to all others.
//!
//! Start at `specs/Whole.antt`, and then `Joint`.
#![tactic(auto)]

mod pass;
mod rule;
mod state;
mod steps;

pub use pass::Pass;
pub use rule::{Law, Rules, View};
pub use state::Joint;
pub use steps::{Begins, Changes, Issues};

#[cfg(test)]
mod tests;
