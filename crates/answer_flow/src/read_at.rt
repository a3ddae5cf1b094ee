// A read at a place that is known.
ghost use Rattle.std.specs.Prelude.{◌≡◌, ◌≤◌, Some};
ghost use Rattle.decisions.specs.Flows.{exact, nothing_read};
ghost use Rattle.answer_flow.specs.Reading.{Continues};
ghost use Rattle.answer_flow.specs.ReadViews.{IsAsked, seen_after};

use crate::read_flow::{ReadFlow, with_asked};
use crate::read_phase::{AskedRead, ReadDone};
use crate::reading::go_on;
use calls::Progress;
use std::alloc::Global;
use tuples::{Freshness, Shards, Tupleset};

impl ReadFlow {
    /// To read these tuplesets at a place that is known to be kept. It asks the coordinator for nothing: the first shard that it needs is brought up to
    /// the place. If memory is refused it has ended with `NoMemory`.
    pub fn at(
        alloc: Global,
        shards: Shards,
        place: u64,
        sets: Vec<Tupleset>,
    ) -> Progress<ReadFlow, ReadDone>
        ensures asked { IsAsked shards (exact place) sets.items result }
        ensures begins { Continues sets.items place (record nothing_read { place = Some place }) (seen_after result) }
    {
        let asked = AskedRead {
            alloc,
            shards,
            freshness: Freshness::Exact(place),
            sets,
        };
        let made = go_on(&asked, place, Vec::new(alloc));
        with_asked(asked, made)
    }
}
