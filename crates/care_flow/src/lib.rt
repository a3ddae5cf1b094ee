//! The care of a store's nodes, one call a turn: a flush, or a checkpoint; a shard learns what is kept; what became of the writes in doubt at a shard; a raise of the
//! horizon; a shard's collection.
//!
//! Keeps: what it found of each write in doubt, and what each shard has settled, until it ends.
//! Never: calls a node itself or waits; drops a write without a verdict on it; raises the horizon above what a shard has settled.
//! Callers rely on: `next_call` asks only for what may be asked, and a care is done only after the very answers that say so.
//!
//! Start at `specs/Cares.antt`, any care, and then at `Learning.antt`, the shortest of them that holds something.
#![tactic(auto)]

mod care;
mod collecting;
mod end;
mod findings;
mod flushing;
mod gathering;
mod learning;
mod raise_calls;
mod raise_phase;
mod raise_replies;
mod raising;
mod resolving;

pub use care::{CareCall, CareFlow};
pub use collecting::{CollectCall, CollectFlow};
pub use end::{CareEnd, Resolved};
pub use flushing::{FlushCall, FlushFlow};
pub use learning::{LearnCall, LearnFlow};
pub use raising::{RaiseCall, RaiseFlow};
pub use resolving::{ResolveCall, ResolveFlow};
