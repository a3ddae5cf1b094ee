//! Two words that threads share, the safe place and the horizon, and passes that stand for the list of writes that was seen.
//!
//! Keeps: there is one list, as long as the safe place says, and what each pass has seen is a beginning of it;
//! both words only rise, and the horizon is at most the safe place.
//! Never: locks, takes memory after `new`, or keeps a write: the list exists in the proofs alone. Waits only while another one copies a `SharedPass`.
//! Callers rely on: a pass that has seen a write sees it ever after, and so does each pass that it tells.
//!
//! A step is one of four kinds: a load, an advance, a raise, and a meet, by which a pass learns what another knows.
//!
//! Start at `specs/OneList.antt`, the rule of the two words, and then `Published`.
#![tactic(auto)]

mod pass;
mod resting;
mod rule;
mod shared;
mod steps;
mod words;

pub use pass::{LogPass, SessionPass};
pub use resting::RestingPass;
pub use rule::View;
pub use shared::SharedPass;
pub use steps::Adds;
pub use words::Published;

#[cfg(test)]
mod shared_tests;
#[cfg(test)]
mod tests;
