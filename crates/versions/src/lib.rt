//! The versions of tuples that a shard has: each change with its place.
//!
//! Keeps: the versions of each tuple, in the order in which they were applied; those of different tuples in no promised order.
//! Never: knows which write made a version, or touches a device.
//! Callers rely on: `at` is the snapshot at a place, and `last` the place of the newest version.
//!
//! Start at `versions.rt`, `table.rt` and `specs/Alike.antt`; the other definitions stand in `tuples`, in `specs/Versions.antt` and `specs/Reads.antt`.
#![tactic(auto)]

mod applying;
mod asks;
mod budget;
mod checking;
mod decided;
mod first;
mod history;
mod kept;
mod listing;
mod of_user;
mod rows;
mod steps;
mod table;
mod uncounted;
mod versions;
mod walk;

pub use budget::Budget;
pub use decided::PlacedChanges;
pub use history::Row;
pub use steps::Steps;
pub use versions::{Versions, newest_is_last, read_alike};
pub use walk::Walk;
