//! The calls of nodes as values, what makes one (`ask`, and `look` for a read beside others), and what asks for one call after another.
//!
//! A call carries what it spends, as an intent, tickets and votes, and its reply gives back what comes back, so that a flow asks for a call
//! without knowing the node, and a node is called without knowing the flow.
//!
//! Keeps: a reply belongs to its call; what a call was handed is spent by the node or lies in the reply.
//! Never: makes more than the one call, or keeps anything between two.
//! Callers rely on: `ask` and `look` promise what the node's own call does, and what a `Told` holds was carried by a reply.
//!
//! A node may lend its devices for a flush and take them back (`Node::lend`, `Node::land`). The nodes of a server do so.
//!
//! Start at `specs/Asking.antt`, what may be asked and what is answered; then `Flow`, which is all that a driver of flows has to know of one.
#![tactic(auto)]

mod asking;
mod boxed;
mod call;
mod carrying;
mod fitting;
mod flow;
mod lending;
mod looking;
mod node;
mod progress;
mod reply;
mod told;

pub use asking::{ask, refuse};
pub use boxed::Boxed;
pub use call::{CoordinatorCall, NodeCall, ShardCall};
pub use carrying::Reach;
pub use flow::Flow;
pub use lending::{Flying, Lent};
pub use looking::look;
pub use node::Node;
pub use progress::Progress;
pub use reply::{CoordinatorReply, Reply, ShardReply};
pub use told::Told;
