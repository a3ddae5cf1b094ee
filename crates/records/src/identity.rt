// Which node of which store.
ghost use Rattle.std.specs.Prelude.{◌≡◌, ◌↔◌, ◌<◌, IsTrue};
ghost use Rattle.records.specs.Identity.{IsIdentity, coordinator_number};

use std::marker::Model;
use tuples::Shards;

/// The number of the coordinator among the nodes of its store.
pub const COORDINATOR: u8 = 255;

/// A node of a store: a shard, counted from 0, of its 1 to 64 shards, or its coordinator.
#[derive(Clone, Copy, Debug, PartialEq, Eq)]
pub struct Identity {
    store: u64,
    shards: Shards,
    node: u8,
}

impl Model for Identity {
    ghost use Rattle.records.specs.Identity.{Identity as AnyIdentity, IsIdentity};

    ghost Value = { AnyIdentity };

    ghost view = { λ i. record { store = i.store; shards = i.shards; node = i.node } };

    ghost invariant = { λ i. IsIdentity (record { store = i.store; shards = i.shards; node = i.node }) };

    ghost inverse = { λ i. record { store = i.store; shards = i.shards; node = i.node } };
}

impl Identity {
    /// Shard `node` of a store of this many shards.
    pub fn shard(store: u64, shards: Shards, node: u8) -> Identity
        requires { node < shards }
        ensures { result ≡ record { store = store; shards = shards; node = node } }
    {
        Identity {
            store,
            shards,
            node,
        }
    }

    /// The coordinator of a store of this many shards.
    pub fn coordinator(store: u64, shards: Shards) -> Identity
        ensures { result ≡ record { store = store; shards = shards; node = coordinator_number } }
    {
        Identity {
            store,
            shards,
            node: COORDINATOR,
        }
    }

    /// The number of the store.
    pub fn store(self) -> u64
        ensures { result ≡ self.store }
    {
        self.store
    }

    /// The number of shards of the store.
    pub fn shards(self) -> Shards
        ensures value { result ≡ self.shards }
        ensures whole { IsIdentity self }
    {
        self.shards
    }

    /// The number of the node: of a shard, or `COORDINATOR`.
    pub fn node(self) -> u8
        ensures { result ≡ self.node }
    {
        self.node
    }

    /// Whether it is this node of this store.
    pub fn is(self, store: u64, shards: u8, node: u8) -> bool
        ensures { IsTrue result ↔ ((store ≡ self.store) × (shards ≡ self.shards) × (node ≡ self.node)) }
    {
        store == self.store && shards == self.shards.count() && node == self.node
    }
}
