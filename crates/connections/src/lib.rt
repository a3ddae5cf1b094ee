//! Sessions of callers: accepted connections on their way to the workers.
//!
//! Keeps: connections are numbered from 1 in the order in which they are put, and each is taken once, in that order.
//! Never: closes a connection; one that finds no place comes back to the acceptor.
//! Callers rely on: no two workers get one number, and a worker's numbers rise.
//!
//! Start at `specs/Waiting.antt`, the rule of the queue, and then `Connections`.
#![tactic(auto)]

mod connections;

pub use connections::{AcceptorPass, Connections, WorkerPass};
