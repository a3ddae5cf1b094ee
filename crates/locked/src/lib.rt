//! A store that callers share: each of its nodes under a lock of its own, and one call of a node under one hold, but for a flush, whose devices sync without
//! the lock. Reads of a shard hold its lock side by side.
//!
//! Keeps: what a caller has seen of the list it sees after each call, and so do all whom it tells; and which decisions are its own it knows from one call to
//! the next, no matter who is let in between.
//! Never: holds two nodes' locks at once, a node's while its devices sync but for a checkpoint or an opening, or a lock between two calls of a node.
//! Callers rely on: a read, a check and a watch answer what is so of the list that the caller has then seen, at a place as fresh as asked; and a write that
//! is told a place stands there in that list, above all that the caller had seen.
//!
//! The server and the check of threads use it. Start at `specs/Answering.antt`, how an answer ends, and then `Store`.
#![tactic(auto)]

mod calling;
mod caring;
mod checking;
mod gate;
mod looking;
mod making;
mod notice;
mod opening;
mod opening_laws;
mod parts;
mod placing;
mod reading;
mod shortening;
mod store;
mod tending;
mod watching;
mod window;
mod writing;

pub use gate::{Gate, Open};
pub use looking::LookedOver;
pub use notice::{Notice, Unnoticed};
pub use opening_laws::new_devices_rest;
pub use parts::Parts;
pub use sides::Caller;
pub use store::Store;
pub use window::Window;
