// Where a node stands among the nodes, and which node of which store it is.
ghost use Rattle.std.specs.Prelude.{◌≡◌};
ghost use Rattle.cluster.specs.Worlds.{index_of};

use names::NodeName;

/// Its position among the nodes, the coordinator first.
pub(crate) fn index_of(name: NodeName) -> usize
    ensures { result ≡ index_of name }
{
    match name {
        NodeName::Coordinator => 0,
        NodeName::Shard(shard) => shard as usize + 1,
    }
}
