//! A store of one number of shards is carried over to one of another, on devices of its own, while no flow runs.
//!
//! Keeps: of the old store only cares of its nodes are done, which leave its log as it is; the new one has the same id and log, how often the
//! coordinator was opened, and its horizon, and each version that an old shard has is at the new shard of its tuple, once, by tuple and then by place. Versions are
//! merged without a copy: what is kept is the position of each walk in its memory.
//! Never: carries over a write in doubt, or writes anything of the log before the devices of each new node say that a checkpoint has begun on them.
//! Callers rely on: after `Ok` each new node's devices have exactly the checkpoint of what it is to know, whatever a stop leaves.
//! Callers are told: that all of the old store's list is kept after its flush; that the end of the coordinator's checkpoint is tried once those of all shards
//! are whole; and as which node it is refused if one is not up. `reshard_laws` says what that comes to.
//! Only tested: what two folders then hold.
//!
//! Start at `specs/Made.antt`, what the new devices have, and `resharding.rt`; at `specs/Merging.antt` and `rows.rt` for how versions of several memories are one list.
#![tactic(auto)]

mod blaming;
mod filling;
mod folder;
mod founding;
mod gathering;
mod least;
mod own;
mod playing;
mod resharding;
mod rows;
mod settling;
mod told;

pub use blaming::blamed;
pub use folder::{Folders, reshard_folder};
pub use resharding::{carry_over, reshard};
pub use settling::are_up;
