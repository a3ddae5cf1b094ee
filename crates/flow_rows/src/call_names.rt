// The names of calls, as a script has them, with the node after them.
use names::{CallName, NodeName};
use std::alloc::AllocError;

/// The name of a call, and the node that is called.
#[derive(Clone, Copy)]
pub(crate) struct Named {
    call: CallName,
    node: NodeName,
}

impl Named {
    pub(crate) fn new(call: CallName, node: NodeName) -> Named {
        Named { call, node }
    }

    /// Writes it, with the node's number, or `c`.
    pub(crate) fn write_to(self, log: &mut String) -> Result<(), AllocError> {
        log.push_str(self.call.name())?;
        log.push_str(match self.node {
            NodeName::Coordinator => " c, ",
            NodeName::Shard(0) => " 0, ",
            NodeName::Shard(_) => " 1, ",
        })
    }
}
