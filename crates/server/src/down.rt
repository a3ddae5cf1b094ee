// Lines on standard error of what befalls a node.
use crate::named::Named;
use crate::stamp::Stamp;
use locked::Notice;
use names::NodeName;
use std::io::Eprint;
use std::sync::atomic::{AtomicU64, Ordering};
use std::time::Clock;

/// Which nodes are down, for the thread that finds them so and the one that goes on telling of them. A node stays so until the server is started again.
#[derive(Drop)]
pub(crate) struct DownNodes {
    // 1 once it is
    coordinator: AtomicU64,
    // a bit for each
    shards: AtomicU64,
}

impl DownNodes {
    /// None is.
    pub(crate) fn new() -> DownNodes {
        DownNodes {
            coordinator: AtomicU64::new(0),
            shards: AtomicU64::new(0),
        }
    }

    // This one is from now on. Whether that is news.
    fn note(&self, node: NodeName) -> bool {
        let (bits, bit) = self.place_of(node);
        bits.fetch_or(bit, Ordering::SeqCst) & bit == 0
    }

    // Where its bit stands.
    fn place_of(&self, node: NodeName) -> (&AtomicU64, u64) {
        match node {
            NodeName::Coordinator => (&self.coordinator, 1),
            NodeName::Shard(shard) => (&self.shards, 1u64 << (shard % 64)),
        }
    }

    // This one is no more.
    fn forget(&self, node: NodeName) {
        let (bits, bit) = self.place_of(node);
        bits.fetch_and(!bit, Ordering::SeqCst);
    }

    pub(crate) fn are_any(&self) -> bool {
        self.coordinator.load(Ordering::SeqCst) | self.shards.load(Ordering::SeqCst) != 0
    }

    /// A line for each.
    pub(crate) fn tell(&self, rt: &(impl Eprint + Clock)) {
        if self.coordinator.load(Ordering::SeqCst) != 0 {
            tell_down(rt, NodeName::Coordinator);
        }
        let shards = self.shards.load(Ordering::SeqCst);
        for shard in 0..64u8 {
            if shards >> shard & 1 == 1 {
                tell_down(rt, NodeName::Shard(shard));
            }
        }
    }
}

/// Tells the operator of each node that goes down, as soon as it is found, and of each checkpoint that is put off.
#[derive(Drop)]
pub(crate) struct NodeLines<'a, R: Eprint> {
    pub rt: &'a R,
    pub nodes: &'a DownNodes,
    // those whose checkpoint was put off since their last one
    pub short: DownNodes,
}

impl<'a, R: Eprint + Clock> Notice for NodeLines<'a, R> {
    fn down(&mut self, node: NodeName) {
        if self.nodes.note(node) {
            tell_down(self.rt, node);
        }
    }

    fn put_off(&mut self, node: NodeName, bytes: u64) {
        if self.short.note(node) {
            tell_put_off(self.rt, node, bytes);
        }
    }

    fn shortened(&mut self, node: NodeName) {
        self.short.forget(node);
    }
}

// Nothing depends on the line, so that it can't be printed keeps nobody from being served.
fn tell_put_off(rt: &(impl Eprint + Clock), node: NodeName, bytes: u64) {
    let (stamp, node) = (Stamp::now(rt), Named(node));
    let _ = eprintln!(rt;
        "zanstore: {stamp}{node}: no room on the disk for a checkpoint of {bytes} bytes; it is put off, and writes go on"
    );
}

// Nothing depends on the line, so that it can't be printed keeps nobody from being served.
fn tell_down(rt: &(impl Eprint + Clock), node: NodeName) {
    let stamp = Stamp::now(rt);
    let _ = match node {
        NodeName::Coordinator => eprintln!(rt;
            "zanstore: {stamp}the coordinator is down, and no write is taken until the server is started again"
        ),
        NodeName::Shard(shard) => eprintln!(rt;
            "zanstore: {stamp}shard {shard} is down until the server is started again"
        ),
    };
}
