// What the shards have settled.
ghost use Rattle.std.specs.Prelude.{◌≡◌, ◌≤◌, ◌<◌, ◌+◌, ◌++◌, ◌∷◌, ◌↔◌, [], None, false, IfOk, IsTrue};
ghost use Rattle.decisions.specs.Coordinators.{HaveSettled};
ghost use Rattle.names.specs.declared.call_name.CallName.TheVariants.{Learned};

use catch_up::CatchUp;
use decisions::{Heads, Settled};
use std::alloc::{AllocError, Global};
use std::marker::Model;
use tuples::Shards;

/// What the shards below one have settled, at or above the place of a raise, with room for what all will have. It is that shard's turn.
#[derive(Drop)]
pub(crate) struct Gathering {
    shards: Shards,
    place: u64,
    heads: Heads,
    next: u8,
    settled: Vec<Settled>,
}

impl Model for Gathering {
    ghost use Rattle.std.specs.Prelude.{◌≤◌};
    ghost use Rattle.std.specs.Vec.{vec_capacity, vec_len};
    ghost use Rattle.decisions.specs.Coordinators.{HaveSettled};
    ghost use Rattle.care_flow.specs.Gatherings.{GatheringValue};

    ghost Value = { GatheringValue };

    ghost view = { λ g. record { shards = g.shards; place = g.place; heads = g.heads; next = g.next; settled = g.settled.items } };

    ghost invariant = { λ g. (g.next ≤ g.shards) × HaveSettled g.next g.place g.settled.items × (vec_len g.settled ≤ g.next) × (g.shards ≤ vec_capacity g.settled) };
}

/// What all shards have settled, at or above the place of a raise.
#[derive(Drop)]
pub(crate) struct Gathered {
    shards: Shards,
    place: u64,
    heads: Heads,
    settled: Vec<Settled>,
}

impl Model for Gathered {
    ghost use Rattle.decisions.specs.Coordinators.{HaveSettled};
    ghost use Rattle.care_flow.specs.Gatherings.{GatheredValue};

    ghost Value = { GatheredValue };

    ghost view = { λ g. record { shards = g.shards; place = g.place; heads = g.heads; settled = g.settled.items } };

    ghost invariant = { λ g. HaveSettled g.shards g.place g.settled.items };
}

impl Gathering {
    /// No shard was asked yet.
    pub(crate) fn new(
        alloc: Global,
        shards: Shards,
        place: u64,
        heads: Heads,
    ) -> Result<Gathering, AllocError>
        ensures { IfOk result (λ g. g ≡ record { shards = shards; place = place; heads = heads; next = 0; settled = [] }) }
    {
        let settled = Vec::with_capacity(alloc, usize::from(shards.count()))?;
        Ok(Gathering {
            shards,
            place,
            heads,
            next: 0,
            settled,
        })
    }

    /// The shard whose turn it is.
    pub(crate) fn next(&self) -> u8
        ensures { result ≡ self.now.next }
    {
        self.next
    }

    /// Whether there is such a shard, or all have settled.
    pub(crate) fn has_next(&self) -> bool
        ensures { IsTrue result ↔ (self.now.next < self.now.shards) }
    {
        self.shards.has(self.next)
    }

    /// That shard on its way to the kept place.
    pub(crate) fn catch_up(&self) -> CatchUp
        ensures { result ≡ record { shard = self.now.next; to = self.now.heads.kept; batch = None; next = Learned; from = None; flushed = false } }
    {
        CatchUp::new(self.next, self.heads.kept())
    }

    /// Whether it is what that shard has settled, and reaches the place.
    pub(crate) fn takes(&self, settled: &Settled) -> bool
        ensures { IsTrue result ↔ ((settled.now.shard ≡ self.now.next) × (self.now.place ≤ settled.now.place)) }
    {
        settled.shard() == self.next && settled.place() >= self.place
    }

    /// The shard has settled, and it is the next one's turn.
    pub(crate) fn add(&mut self, settled: Settled)
        requires there { self.old.next < self.old.shards }
        requires own { settled.shard ≡ self.old.next }
        requires enough { self.old.place ≤ settled.place }
        ensures { self.new ≡ record self.old { next = self.old.next + 1; settled = self.old.settled ++ settled ∷ [] } }
    {
        self.settled.push_reserved(settled);
        self.next += 1;
    }

    /// All shards have settled.
    pub(crate) fn all(self) -> Gathered
        requires { self.shards ≤ self.next }
        ensures { result ≡ record { shards = self.shards; place = self.place; heads = self.heads; settled = self.settled } }
    {
        let Gathering {
            shards,
            place,
            heads,
            next: _,
            settled,
        } = self;
        Gathered {
            shards,
            place,
            heads,
            settled,
        }
    }
}

impl Gathered {
    /// What came back from a raise.
    pub(crate) fn again(shards: Shards, place: u64, heads: Heads, settled: Vec<Settled>) -> Gathered
        requires { HaveSettled shards place settled.items }
        ensures { result ≡ record { shards = shards; place = place; heads = heads; settled = settled.items } }
    {
        Gathered {
            shards,
            place,
            heads,
            settled,
        }
    }

    /// The place and what is handed in with it, and the heads.
    pub(crate) fn into_parts(self) -> (u64, Vec<Settled>, Heads)
        ensures values { (result.0 ≡ self.place) × (result.1.items ≡ self.settled) × (result.2 ≡ self.heads) }
        ensures all { HaveSettled self.shards self.place self.settled }
    {
        let Gathered {
            shards: _,
            place,
            heads,
            settled,
        } = self;
        (place, settled, heads)
    }
}
