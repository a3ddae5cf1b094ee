//! What a script and the flows call the nodes of a store, their calls, and the cares of nodes.
//!
//! Keeps: each call has one name, and each name one text.
//! Never: makes a call.
//! Callers rely on: `CallName::parse` and `CallName::name` are each other's inverse.
#![tactic(auto)]

mod call_name;
mod care;
mod node_name;

pub use call_name::CallName;
pub use care::Care;
pub use node_name::NodeName;
