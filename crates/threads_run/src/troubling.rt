// Nodes are opened again, and were made to fail.
use crate::course::Course;
use crate::worker::Worker;
use device::Device;
use locked::{Gate, Store};
use names::NodeName;
use sides::Room;
use std::sync::Wait;
use std::thread;
use tuples::Shards;

// How often a node is opened again at the end, if it does not come up.
const TRIES: u64 = 10;

// At most how often the trouble yields to others before it opens a node again.
const MOST_TURNS: u64 = 4_000;

impl<B: Room> Worker<B> {
    /// Tells that both disks of each node were set to fail.
    pub(crate) fn tell_failures(&mut self, course: &Course, shards: Shards) {
        for _ in 0..2 {
            self.tell_failing(course, NodeName::Coordinator);
            for shard in 0..shards.count() {
                self.tell_failing(course, NodeName::Shard(shard));
            }
        }
    }

    /// Opens a node again, by chance the coordinator or a shard.
    pub(crate) fn make_trouble<D: Device, G: Gate, R: Wait>(
        &mut self,
        rt: &R,
        store: &Store<D, B, G>,
        course: &Course,
    ) {
        // The others begin at the same time as this one does, and have to be within their calls.
        for _ in 0..self.random.below(MOST_TURNS) {
            thread::yield_now();
        }
        let shards = store.shards();
        let node = if self.random.happens(25) {
            NodeName::Coordinator
        } else {
            NodeName::Shard(self.random.below(u64::from(shards.count())) as u8)
        };
        let _is_up = self.restart(rt, store, course, node);
    }

    /// Opens each node again until it is up.
    pub(crate) fn restart_all<D: Device, G: Gate, R: Wait>(
        &mut self,
        rt: &R,
        store: &Store<D, B, G>,
        course: &Course,
    ) {
        self.restart_until_up(rt, store, course, NodeName::Coordinator);
        for shard in 0..store.shards().count() {
            self.restart_until_up(rt, store, course, NodeName::Shard(shard));
        }
    }

    fn restart_until_up<D: Device, G: Gate, R: Wait>(
        &mut self,
        rt: &R,
        store: &Store<D, B, G>,
        course: &Course,
        node: NodeName,
    ) {
        for _ in 0..TRIES {
            if self.restart(rt, store, course, node) {
                return;
            }
        }
    }
}
