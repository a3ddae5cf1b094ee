//! Serving: sessions over TCP, one connection a session, by as many threads as there are workers.
//!
//! Keeps: what a connection is written is the session of what was read from it, or a beginning of it if the session broke off. Each connection that is put in
//! the queue is taken once, also if the listener breaks.
//! Never: takes a line of a connection that begins as HTTP or TLS, nor writes to it. Never, but while it ends for a fault: cuts a session that was neither idle
//! for the ticks that it may be, nor slow over a line or its answers for half a minute; one that may be idle for ever is cut only for answers that are not taken,
//! or while the server closes.
//! Callers rely on: a worker serves one connection at a time, from its first line to its last, by a session that answers no other one.
//!
//! Only tested, over the program: that each connection that was taken is served, that sessions of several workers go on beside one another, what is reported, that it goes
//! on short of descriptors, and that the server ends.
//! No contract says that a call returns: threads wait for connections, and each for its caller.
//!
//! Start at `serve_one`, a session over any reader and writer, and then `serve_on`.
#![tactic(auto)]

mod accepting;
mod begun;
mod crowd;
mod ended;
mod fork;
mod gathering;
mod guarded;
mod guarding;
mod hall;
mod patience;
mod patient;
mod pressing;
mod protocols;
mod report;
mod serving;
mod session;
mod signs;
mod slowness;
mod working;

pub use begun::Begun;
pub use ended::Ended;
pub use fork::Fork;
pub use guarded::Guarded;
pub use patience::Patience;
pub use patient::Patient;
pub use pressing::Pressing;
pub use report::Report;
pub use serving::{Serving, serve_on};
pub use session::serve_one;
pub use signs::Signs;
