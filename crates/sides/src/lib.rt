//! A node that callers share, and its pass, as they lie under the node's lock: changed by calls that take no lock.
//!
//! Keeps: the node is tied to the list of writes that the pass beside it has seen, whatever was called.
//! Never: takes a lock, or tells of a write that the caller's pass has not seen. It waits only while another one copies the shard's pass.
//! Callers rely on: what a pass had seen it sees after each call, what is told of the list is of what it has seen then, and a decision that is told as
//! kept stands in the list there, above all that the caller had seen when it was made. A node's devices may leave and come back between its calls: it is tied
//! as it was, and what they made durable joins the list as they come.
//!
//! Start at `specs/Sides.antt`, and then `ShardSide`; at `specs/CoordinatorSides.antt`, and then `CoordinatorSide`.
#![tactic(auto)]

mod asking;
mod attempts;
mod caller;
mod checkpointing;
mod coordinator_asking;
mod coordinator_lending;
mod coordinator_side;
mod joining;
mod launch;
mod lending;
mod lists;
mod reopening;
mod returning;
mod room;
mod shard_side;

pub use attempts::{Attempt, Attempts};
pub use caller::{Caller, Pass, Tried};
pub use coordinator_lending::LentCoordinator;
pub use coordinator_side::CoordinatorSide;
pub use launch::Launch;
pub use lending::LentShard;
pub use lists::Lists;
pub use room::Room;
pub use shard_side::ShardSide;
