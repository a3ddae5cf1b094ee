// Records, and the lists in them.
use crate::Mark;
use std::marker::Model;
use tuples::{Entry, WriteId};

/// A write that a shard has learned: its id, and its place in the log, from 1 on.
#[derive(Clone, Copy, Debug, PartialEq, Eq)]
pub struct PlacedId {
    pub id: WriteId,
    pub place: u64,
}

/// Placed ids in their order; contracts see them as their list.
#[derive(Drop)]
pub struct PlacedIds {
    items: Vec<PlacedId>,
}

impl Model for PlacedIds {
    ghost use Rattle.std.specs.Prelude.{List};
    ghost use Rattle.records.specs.declared.record.PlacedId.{PlacedId};

    ghost Value = { List PlacedId };

    ghost view = { λ a. a.items.items };
}

impl PlacedIds {
    ghost use Rattle.std.specs.Prelude.{◌≡◌};

    /// These placed ids; allocates nothing.
    pub fn from_vec(items: Vec<PlacedId>) -> Self
        ensures { result ≡ items.items }
    {
        PlacedIds { items }
    }

    pub fn as_slice(&self) -> &[PlacedId]
        ensures { result.now ≡ self.now }
    {
        &self.items
    }
}

/// What a node writes down (presumed abort: Mohan, Lindsay, Obermarck 1986).
#[derive(Drop)]
pub enum Record {
    /// A shard holds its part of a write, from its prepare until it is learned or dropped.
    Prepare(Entry),
    /// A shard has applied the decisions up to a place, with the places of the writes in which it takes part.
    Learned {
        to: u64,
        placed_ids: PlacedIds,
    },
    /// A shard has given up a write that was not decided.
    Dropped(WriteId),
    /// A node was opened: how often so far, and which node of which store it is (`COORDINATOR`, or a shard's number).
    Epoch {
        epoch: u64,
        store: u64,
        shards: u8,
        node: u8,
    },
    /// The coordinator has decided a write at a place.
    Decision {
        place: u64,
        entry: Entry,
    },
    /// What lies below this place may be forgotten.
    Horizon(u64),
    /// What lies between the begin and the end of a checkpoint stands for all that was written before it.
    Checkpoint(Mark),
}
