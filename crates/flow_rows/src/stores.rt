// Stores of two shards over disks in memory, and what stores of any number of them are made of.
ghost use Rattle.std.specs.Prelude.{◌≡◌, ◌<◌};
ghost use Rattle.calls.specs.Belonging.{IsOwed, IsReplyTo};

use crate::refusing::{Refusing, answer};
use calls::{Node, NodeCall, Reply, Told, ask, refuse};
use device::{Device, SimDisk, Tear};
use journal::Bank;
use names::NodeName;
use records::Identity;
use std::alloc::{AllocError, Global};
use tuples::{Refusal, Shards};

/// The number of each store.
pub(crate) const STORE: u64 = 1;

/// How many shards each store has.
pub(crate) const SHARDS: u8 = 2;

/// That number, as a store has it.
pub(crate) fn shards() -> Shards
    ensures { result ≡ SHARDS }
{
    Shards::of(SHARDS)
}

/// The nodes of a store. One is not there while it is opened again.
#[derive(Drop)]
pub(crate) struct Store<D: Device> {
    alloc: Global,
    coordinator: Option<Node<D>>,
    first: Option<Node<D>>,
    second: Option<Node<D>>,
    refusing: Refusing,
}

/// This many new disks; each node takes two.
pub(crate) fn new_disks(alloc: Global, count: usize) -> Result<Vec<SimDisk>, Refusal> {
    let mut disks = Vec::new(alloc);
    for _ in 0..count {
        match SimDisk::new(alloc, Vec::new(alloc)) {
            Ok(disk) => {
                disks.reserve(1)?;
                disks.push_reserved(disk);
            }
            Err(_) => return Err(Refusal::NoMemory),
        }
    }
    Ok(disks)
}

// The devices of one node.
fn two_of<D: Device>(devices: &mut Vec<D>) -> Option<(D, D)> {
    match (devices.pop(), devices.pop()) {
        (Some(a), Some(b)) => Some((a, b)),
        _ => None,
    }
}

/// The coordinator of a store of this many shards.
pub(crate) fn open_coordinator<D: Device>(alloc: Global, a: D, b: D, shards: Shards) -> Node<D> {
    Node::open_coordinator(alloc, a, b, Identity::coordinator(STORE, shards))
}

/// One of this many shards.
pub(crate) fn open_shard<D: Device>(alloc: Global, a: D, b: D, shards: Shards, shard: u8) -> Node<D>
    requires { shard < shards }
{
    Node::open_shard(alloc, a, b, Identity::shard(STORE, shards, shard))
}

fn next_coordinator<D: Device>(alloc: Global, devices: &mut Vec<D>) -> Option<Node<D>> {
    let (a, b) = two_of(devices)?;
    Some(open_coordinator(alloc, a, b, shards()))
}

fn next_shard<D: Device>(alloc: Global, devices: &mut Vec<D>, shard: u8) -> Option<Node<D>>
    requires { shard < 2 }
{
    let (a, b) = two_of(devices)?;
    Some(open_shard(alloc, a, b, shards(), shard))
}

// What its devices are found with.
fn revived<D: Device>(node: Node<D>) -> (D, D) {
    let (mut a, mut b) = node.into_devices();
    let _ = a.revive();
    let _ = b.revive();
    (a, b)
}

/// Makes the call at a node of a store of this many shards, if it is the one that is named.
pub(crate) fn ask_at<D: Device>(
    node: &mut Option<Node<D>>,
    shards: Shards,
    call: NodeCall,
    told: &mut Told,
) -> Reply
    requires { IsOwed shards call }
    ensures { IsReplyTo call result }
{
    match node {
        Some(node) => {
            if node.is_node(shards, call.node()) {
                return ask(node, call, told);
            }
            refuse(Refusal::Damaged, call)
        }
        None => refuse(Refusal::Damaged, call),
    }
}

// The node in this place is opened again, if one is there.
fn open_again<D: Device>(alloc: Global, place: &mut Option<Node<D>>, name: NodeName) {
    let Some(node) = place.take() else {
        return;
    };
    let (a, b) = revived(node);
    let opened = match name {
        NodeName::Coordinator => open_coordinator(alloc, a, b, shards()),
        NodeName::Shard(0) => open_shard(alloc, a, b, shards(), 0),
        NodeName::Shard(_) => open_shard(alloc, a, b, shards(), 1),
    };
    drop(place.replace(opened));
}

impl<D: Device> Store<D> {
    /// Over these devices, two for each node; a node without two is not there.
    pub(crate) fn open(alloc: Global, mut devices: Vec<D>) -> Store<D> {
        Store {
            alloc,
            coordinator: next_coordinator(alloc, &mut devices),
            first: next_shard(alloc, &mut devices, 0),
            second: next_shard(alloc, &mut devices, 1),
            refusing: Refusing::new(alloc),
        }
    }

    /// Makes the call at the node that it names, unless it is one that is not made.
    pub(crate) fn ask(&mut self, call: NodeCall, told: &mut Told) -> Reply
        requires { IsOwed 2 call }
        ensures { IsReplyTo call result }
    {
        if let Some(refusal) = self.refusing.next() {
            return answer(refusal, call);
        }
        match call.node() {
            NodeName::Coordinator => ask_at(&mut self.coordinator, shards(), call, told),
            NodeName::Shard(0) => ask_at(&mut self.first, shards(), call, told),
            NodeName::Shard(_) => ask_at(&mut self.second, shards(), call, told),
        }
    }

    /// Sets the script of a node's first device.
    pub(crate) fn fail(&mut self, name: NodeName, n: u64, tear: Tear) {
        let node = match name {
            NodeName::Coordinator => &mut self.coordinator,
            NodeName::Shard(0) => &mut self.first,
            NodeName::Shard(_) => &mut self.second,
        };
        if let Some(node) = node {
            node.fail(Bank::A, n, tear);
        }
    }

    /// The n-th call from now on is not made, and this refusal is its answer.
    pub(crate) fn refuse(&mut self, n: usize, refusal: Refusal) -> Result<(), AllocError> {
        self.refusing.add(n, refusal)
    }

    /// Whether this is the answer of a call that is not made.
    pub(crate) fn refuses(&self, refusal: Refusal) -> bool {
        self.refusing.has(refusal)
    }

    /// Opens a node again, over what its devices are found with.
    pub(crate) fn restart(&mut self, name: NodeName) {
        let alloc = self.alloc;
        match name {
            NodeName::Coordinator => open_again(alloc, &mut self.coordinator, name),
            NodeName::Shard(0) => open_again(alloc, &mut self.first, name),
            NodeName::Shard(_) => open_again(alloc, &mut self.second, name),
        }
    }
}
