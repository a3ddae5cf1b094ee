// A node whose bank has grown makes a checkpoint in place of its records.
ghost use Rattle.std.specs.Prelude.{◌≤◌, ◌<◌, ◌*◌, ◌^◌, max};
ghost use Rattle.care_flow.specs.Cares.{IsThere, begun};
ghost use Rattle.names.specs.declared.care.Care.TheVariants.{Checkpoint as checkpoint_of};
ghost use Rattle.sides.specs.Sides.{IsLater};

use crate::window::Counted;
use crate::{Caller, Gate, Notice, Store};
use calls::Told;
use care_flow::CareEnd;
use device::Device;
use names::{Care, NodeName};
use sides::Room;
use std::alloc::Global;
use std::sync::Wait;
use tuples::MAX_SHARDS;

// No bank has to be shorter than this. An opening replays as much in a fraction of a second.
const LEAST_LIMIT: u64 = 2_097_152;

// From here on a bank grows to twice what its checkpoint left, and no more to four times.
const LARGE: u64 = 67_108_864;

// Up to how many bytes the bank of a node may grow whose checkpoint left so many. Four times as many keep checkpoints to a quarter of all that is
// written, and an opening to some four times of what one of the checkpoint alone takes.
fn limit_behind(length: u64) -> u64
    ensures least { LEAST_LIMIT ≤ result }
    ensures twice { 2 * length < 2 ^ 64 → 2 * length ≤ result }
    ensures four_times { result ≤ max LEAST_LIMIT (4 * length) }
    ensures large { result ≤ max LARGE (2 * length) }
{
    let large = LARGE.max(length.saturating_mul(2));
    LEAST_LIMIT.max(large.min(length.saturating_mul(4)))
}

// How many bytes the bank of each node may have until it makes a checkpoint, and when those of the window were counted.
#[derive(Drop)]
pub(crate) struct Limits {
    pub(crate) counted: Counted,
    coordinator: u64,
    shards: [u64; MAX_SHARDS as usize],
}

impl Limits {
    // Those of a store of which nobody knows what its last checkpoints left.
    fn new() -> Limits {
        Limits {
            counted: Counted::new(),
            coordinator: LEAST_LIMIT,
            shards: [LEAST_LIMIT; MAX_SHARDS as usize],
        }
    }
}

impl<D: Device, B: Room, G: Gate> Store<D, B, G> {
    // How many bytes the bank of the node has.
    pub(crate) fn bank_len<R: Wait>(&self, rt: &R, node: NodeName) -> u64
        requires there { IsThere B.shards (begun B.shards (checkpoint_of node)) }
    {
        match node {
            NodeName::Coordinator => self.coordinator.lock(rt).bank_len(),
            NodeName::Shard(shard) => self.side(rt, shard).bank_len(),
        }
    }

    // How many bytes a checkpoint of the node has; none if its opening was refused, or there is no memory to tell.
    pub(crate) fn checkpoint_len<R: Wait>(&self, rt: &R, node: NodeName) -> Option<u64>
        requires there { IsThere B.shards (begun B.shards (checkpoint_of node)) }
    {
        match node {
            NodeName::Coordinator => self.coordinator.lock(rt).checkpoint_len(),
            NodeName::Shard(shard) => self.side_to_read(rt, shard).checkpoint_len(),
        }
    }

    // Whether the disk of the node has the room for a checkpoint of so many bytes, as far as that can be told.
    fn has_point_room<R: Wait>(&self, rt: &R, node: NodeName, len: u64) -> bool
        requires there { IsThere B.shards (begun B.shards (checkpoint_of node)) }
    {
        match node {
            NodeName::Coordinator => self.coordinator.lock(rt).has_point_room(len),
            NodeName::Shard(shard) => self.side_to_read(rt, shard).has_point_room(len),
        }
    }

    // Up to how many bytes the bank of a node may grow that was just opened: its last checkpoint left about what the next one would have now.
    fn first_limit<R: Wait>(&self, rt: &R, node: NodeName) -> u64
        requires there { IsThere B.shards (begun B.shards (checkpoint_of node)) }
    {
        match self.checkpoint_len(rt, node) {
            Some(len) => limit_behind(len),
            None => LEAST_LIMIT,
        }
    }

    // Those of a store that was just opened.
    pub(crate) fn first_limits<R: Wait>(&self, rt: &R) -> Limits {
        let mut limits = Limits::new();
        limits.coordinator = self.first_limit(rt, NodeName::Coordinator);
        for shard in 0..self.count.count() {
            limits.shards[shard as usize] = self.first_limit(rt, NodeName::Shard(shard));
        }
        limits
    }

    // Whether nothing is known that keeps the node from a checkpoint. It is told if the disk lacks the room.
    fn may_shorten<R: Wait, N: Notice>(&self, rt: &R, node: NodeName, notice: &mut N) -> bool
        requires there { IsThere B.shards (begun B.shards (checkpoint_of node)) }
    {
        let Some(len) = self.checkpoint_len(rt, node) else {
            return true;
        };
        if self.has_point_room(rt, node, len) {
            return true;
        }
        notice.put_off(node, len);
        false
    }

    // The node makes a checkpoint if its bank is longer than its limit and its disk has the room. The limit from then on.
    fn shorten<R: Wait, N: Notice>(
        &self,
        rt: &R,
        alloc: Global,
        caller: &mut Caller<B>,
        node: NodeName,
        limit: u64,
        notice: &mut N,
    ) -> u64
        requires there { IsThere B.shards (begun B.shards (checkpoint_of node)) }
        ensures caller { IsLater caller.old.pass caller.new.pass }
    {
        let len = self.bank_len(rt, node);
        if len <= limit {
            return limit;
        }
        // One that is put off or refused is tried again once so much more was written: a node that is down does not grow, and asking for room fills a disk that
        // has none to its last byte.
        let later = len.saturating_add(LEAST_LIMIT);
        if !self.may_shorten(rt, node, notice) {
            return later;
        }
        let care = Care::Checkpoint(node);
        match self.care(rt, alloc, caller, &mut Told::new(), care) {
            CareEnd::Done => {
                notice.shortened(node);
                limit_behind(self.bank_len(rt, node))
            }
            _ => later,
        }
    }

    // The same at each shard, each with a limit of its own.
    fn shorten_shards<R: Wait, N: Notice>(
        &self,
        rt: &R,
        alloc: Global,
        caller: &mut Caller<B>,
        limits: &mut [u64; MAX_SHARDS as usize],
        notice: &mut N,
    )
        ensures caller { IsLater caller.old.pass caller.new.pass }
    {
        for shard in 0..self.count.count() {
            let at = shard as usize;
            let node = NodeName::Shard(shard);
            limits[at] = self.shorten(rt, alloc, caller, node, limits[at], notice);
        }
    }

    // Each node makes one if its bank is longer than its own limit.
    pub(crate) fn shorten_all<R: Wait, N: Notice>(
        &self,
        rt: &R,
        alloc: Global,
        caller: &mut Caller<B>,
        limits: &mut Limits,
        notice: &mut N,
    )
        ensures caller { IsLater caller.old.pass caller.new.pass }
    {
        let node = NodeName::Coordinator;
        limits.coordinator = self.shorten(rt, alloc, caller, node, limits.coordinator, notice);
        self.shorten_shards(rt, alloc, caller, &mut limits.shards, notice);
    }
}
