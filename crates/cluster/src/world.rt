// A store with its nodes and flows.
ghost use Rattle.std.specs.Prelude.{◌≡◌, ◌↔◌, Err, IsTrue, None, MatchOption, Some};
ghost use Rattle.calls.specs.Rows.{RowsOf};
ghost use Rattle.names.specs.declared.node_name.NodeName.TheVariants.{Shard as shard_name};
ghost use Rattle.cluster.specs.Flows.{next_name_of};
ghost use Rattle.cluster.specs.Nodes.{IsSetIn};
ghost use Rattle.cluster.specs.Worlds.{flow_at, flow_count, node_at};

use crate::Flow;
use crate::naming::index_of;
use calls::{Node, Told};
use device::{Device, Tear};
use journal::Bank;
use names::{CallName, NodeName};
use slab::Slab;
use std::alloc::Global;
use std::marker::Model;
use tuples::{Refusal, Shards, Version};

/// A store: its nodes over their devices, and the flows that run, each in a slot. `reopen` makes it, and `run` takes its steps.
#[derive(Drop)]
pub struct World<D: Device> {
    pub(crate) alloc: Global,
    pub(crate) store: u64,
    pub(crate) shards: Shards,
    // the coordinator, and then the shards by rising number
    pub(crate) nodes: Vec<Node<D>>,
    pub(crate) flows: Slab<Flow>,
    pub(crate) told: Told,
}

impl<D: Device> Model for World<D> {
    ghost use Rattle.cluster.specs.Worlds.{WorldView};
    ghost use Rattle.cluster.specs.Kept.{IsWorld};

    ghost Value = { WorldView D };

    ghost view = { λ w. record { store = w.store; shards = w.shards; nodes = w.nodes.items; flows = w.flows.slots } };

    ghost invariant = { λ w. IsWorld (record { store = w.store; shards = w.shards; nodes = w.nodes.items; flows = w.flows.slots }) };
}

// The node of this name, if it is there.
fn node_of<D: Device>(nodes: &[Node<D>], name: NodeName) -> Option<&Node<D>>
    ensures { MatchOption result (node_at nodes.now name ≡ None) (λ node. node_at nodes.now name ≡ Some node.now) }
{
    let index = index_of(name);
    if index >= nodes.len() {
        return None;
    }
    Some(&nodes[index])
}

// The versions that the shard of this number has learned.
fn rows_of<D: Device>(nodes: &[Node<D>], shard: u8) -> Result<Vec<Version>, Refusal>
    ensures { MatchOption (node_at nodes.now (shard_name shard)) (result ≡ Err Refusal.BadRequest) (λ node. RowsOf D.state D.honest node result) }
{
    let index = index_of(NodeName::Shard(shard));
    if index >= nodes.len() {
        return Err(Refusal::BadRequest);
    }
    nodes[index].rows()
}

// Sets the script of one device of the node of this name, if it is there.
fn set_script<D: Device>(nodes: &mut [Node<D>], name: NodeName, bank: Bank, n: u64, tear: Tear)
    ensures { MatchOption (node_at nodes.old name) (nodes.new ≡ nodes.old) (λ was. IsSetIn D.set_to_fail D.state D.honest D.moment D.left_since bank n tear nodes.old name was nodes.new) }
{
    let index = index_of(name);
    if index >= nodes.len() {
        return;
    }
    nodes[index].fail(bank, n, tear);
}

impl<D: Device> World<D> {
    /// The next call of the flow in the slot; none if there is no flow.
    pub fn next(&self, slot: usize) -> Option<CallName>
        ensures { MatchOption (flow_at self.now.flows slot) (result ≡ None) (λ flow. result ≡ next_name_of flow) }
    {
        Some(self.flows.get(slot)?.next_name())
    }

    /// Whether no flow runs.
    pub fn is_quiet(&self) -> bool
        ensures { IsTrue result ↔ (flow_count self.now.flows ≡ 0) }
    {
        self.flows.is_empty()
    }

    /// The number of the store.
    pub fn store(&self) -> u64
        ensures { result ≡ self.now.store }
    {
        self.store
    }

    /// How many shards it has.
    pub fn shards(&self) -> Shards
        ensures { result ≡ self.now.shards }
    {
        self.shards
    }

    /// The node of this name, if it is there.
    pub fn node(&self, name: NodeName) -> Option<&Node<D>>
        ensures { MatchOption result (node_at self.now.nodes name ≡ None) (λ node. node_at self.now.nodes name ≡ Some node.now) }
    {
        node_of(&self.nodes, name)
    }

    /// The versions that the shard has learned, by tuple and then by place. Refused with `NoMemory`; with the shard's refusal if it is down or its
    /// opening was refused; and with `BadRequest` if there is no such shard.
    pub fn rows(&self, shard: u8) -> Result<Vec<Version>, Refusal>
        ensures { MatchOption (node_at self.now.nodes (shard_name shard)) (result ≡ Err Refusal.BadRequest) (λ node. RowsOf D.state D.honest node result) }
    {
        rows_of(&self.nodes, shard)
    }

    /// Sets the script of one device of the node, and changes nothing else.
    pub fn fail(&mut self, node: NodeName, bank: Bank, n: u64, tear: Tear)
        ensures nodes { MatchOption (node_at self.old.nodes node) (self.new.nodes ≡ self.old.nodes) (λ was. IsSetIn D.set_to_fail D.state D.honest D.moment D.left_since bank n tear self.old.nodes node was self.new.nodes) }
        ensures rest { self.new ≡ record self.old { nodes = self.new.nodes } }
    {
        set_script(&mut self.nodes, node, bank, n, tear);
    }
}
