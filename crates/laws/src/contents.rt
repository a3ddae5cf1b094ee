// What a stop may leave of all nodes, as the laws of their steps speak of it.
ghost use Rattle.std.specs.Prelude.{ℕ, List};
ghost use Rattle.records.specs.declared.record.Record.{Record};
ghost use Rattle.laws.specs.Nodes.{NodeName};

/// What a stop may leave of all nodes, before a step of one of them and after it: lists of records of the coordinator and of each shard.
pub trait Contents {
    ghost coordinator: { List Record → Type 0 };

    ghost coordinator_after: { List Record → Type 0 };

    ghost shard: { ℕ → List Record → Type 0 };

    ghost shard_after: { ℕ → List Record → Type 0 };
}

/// What a stop may leave of each node, except for what it has staged, before a step and after it.
pub trait Leavings {
    ghost left: { NodeName → List Record → Type 0 };

    ghost left_after: { NodeName → List Record → Type 0 };
}
