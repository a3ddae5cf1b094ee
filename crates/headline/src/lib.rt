//! The headline: by their contracts, a store's two calls, the opening of its devices and the run of a list of steps, are an opening and a run as promised,
//! over one list of whole writes.
//!
//! Keeps: nothing at run time; each law is the contract of a function with an empty body.
//! Callers rely on: what `cluster`'s `reopen` and `run` promise of themselves, in the words of nodes and flows, is what `turns` promises of a store.
//!
//! Start at `specs/Headline.antt`, the law, and then at `specs/Shown.antt`, how a store of the laws shows a world of nodes and flows.
#![tactic(auto)]

mod found_laws;
mod headline_laws;
mod opening_laws;
mod step_laws;

pub use found_laws::{what_is_found_rests, what_stands_behind_counts_for_nothing};
pub use headline_laws::{
    acted_headline, headline, many_lives, refused_writes_are_never_listed,
    refused_writes_outlive_their_life, runs_keep_their_promise, steps_keep_their_promise,
};
pub use opening_laws::{openings_keep, refused_openings_hand_back, restarts_keep};
pub use step_laws::{cancels_keep, scripts_keep, starts_keep, turns_keep};
