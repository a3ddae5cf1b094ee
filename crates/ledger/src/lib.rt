//! The decisions of a coordinator in memory, from a place on: by place, and by the id of the write.
//!
//! Keeps: no id stands twice, and each is found at its place.
//! Never: reads a record, or knows which of its decisions are durable.
//! Callers rely on: a refused growth leaves it as it was, and forgetting allocates nothing, and takes time
//! only for what goes.
//!
//! Start at `specs/Ledgers.antt`, what a ledger is.
#![tactic(auto)]

mod ledger;

pub use ledger::Ledger;
