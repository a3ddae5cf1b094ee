// How many shards a store has.
ghost use Rattle.std.specs.Prelude.{◌≡◌, ◌<◌, ◌≤◌, ◌↔◌, IfSome, IsSome, IsTrue};
ghost use Rattle.tuples.specs.Limits.{IsShardCount, max_shards};

use crate::MAX_SHARDS;
use std::marker::Model;

/// How many shards a store has: 1 to 64. Contracts see the number.
#[derive(Clone, Copy, Debug, PartialEq, Eq)]
pub struct Shards {
    count: u8,
}

impl Model for Shards {
    ghost use Rattle.std.specs.Prelude.{ℕ};
    ghost use Rattle.tuples.specs.Limits.{IsShardCount};

    ghost Value = { ℕ };

    ghost view = { λ s. s.count };

    ghost invariant = { λ s. IsShardCount s.count };

    ghost inverse = { λ n. record { count = n } };
}

impl Shards {
    /// So many, as who asks knows.
    pub fn of(count: u8) -> Shards
        requires some { 1 ≤ count }
        requires few { count ≤ max_shards }
        ensures { result ≡ count }
    {
        Shards { count }
    }

    /// So many, if a store may have so many: None for 0, and for more than 64.
    pub fn checked(count: u8) -> Option<Shards>
        ensures exactly { IsSome result ↔ IsShardCount count }
        ensures value { IfSome result (λ shards. shards ≡ count) }
    {
        if count == 0 || count > MAX_SHARDS {
            return None;
        }
        Some(Shards { count })
    }

    /// The number, from 1 to 64.
    pub fn count(self) -> u8
        ensures value { result ≡ self }
        ensures whole { IsShardCount self }
    {
        self.count
    }

    /// Whether a store of so many has a shard of this number.
    pub fn has(self, shard: u8) -> bool
        ensures { IsTrue result ↔ (shard < self) }
    {
        shard < self.count
    }
}
