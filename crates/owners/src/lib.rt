//! Who began which write, at every moment: passes of one state, one beside the coordinator under its lock and one with each caller, and the steps.
//!
//! Keeps: each write of the list that was not found was begun by one caller, and decided; it is listed once. No id is given twice.
//! Never: locks, writes a word after `new`, or keeps a write: a step is a few loads of a word that nobody writes.
//! Callers rely on: what a caller began and did not decide is not listed, whatever others do, and what was decided stands at its place until the coordinator is
//! opened again.
//!
//! Start at `specs/Owners.antt`, and then `Owners`. No program uses it yet.
#![tactic(auto)]

mod law;
mod owners;
mod passes;
mod picks;
mod steps;

pub use law::Owned;
pub use owners::Owners;
pub use passes::{CallerPass, ListPass};
pub use picks::{Decides, Opens, Restarts, Writes};

#[cfg(test)]
mod tests;
