// How lines on standard error name a node.
use names::NodeName;
use std::fmt;

/// The node as a text: `the coordinator`, or `shard` and its number.
#[derive(Clone, Copy)]
pub(crate) struct Named(pub NodeName);

impl fmt::Display for Named {
    fn fmt<W: fmt::Write>(&self, f: &mut fmt::Formatter<W>) -> fmt::Result {
        match self.0 {
            NodeName::Coordinator => write!(f, "the coordinator"),
            NodeName::Shard(shard) => write!(f, "shard {shard}"),
        }
    }
}
