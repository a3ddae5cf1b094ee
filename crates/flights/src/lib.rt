//! What lies under the lock of a node that callers share, while its devices are elsewhere: a flight makes durable what was staged, outside of the lock.
//!
//! Keeps: the node is tied to the list of writes that the pass beside it has seen, whether its devices are here or out; and what flies is the first of what
//! it has staged. What the coordinator's flight made durable joins the list as it lands, and not before.
//! Never: asks a node for a flush or a checkpoint, or opens it again, whose devices are out; holds a node's lock while a flight's devices sync: only a
//! checkpoint and an opening sync under it.
//! Callers rely on: only the flight that took a node's devices brings them back, and that one is never turned away; what it made durable is durable then, and
//! what was staged meanwhile is staged still.
//!
//! Start at `specs/Flights.antt`, and then `ShardPlace`; at `specs/LogPlaces.antt`, and then `CoordinatorPlace`.
#![tactic(auto)]

mod berth;
mod checkpointing;
mod closed;
mod coordinator_cell;
mod coordinator_leaving;
mod coordinator_place;
mod coordinator_returning;
mod flight;
mod landings;
mod launch;
mod leaving;
mod returning;
mod shard_cell;
mod shard_place;
mod spinning;
mod taking_off;
mod waiting;

pub use closed::ClosedShard;
pub use coordinator_cell::CoordinatorCell;
pub use coordinator_place::CoordinatorPlace;
pub use flight::{Flight, Flown};
pub use launch::{LaunchLog, Launches};
pub use returning::Restart;
pub use shard_cell::ShardCell;
pub use shard_place::ShardPlace;
