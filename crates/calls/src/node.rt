// A node: opened, or with the refusal of its opening.
ghost use Rattle.std.specs.Prelude.{◌≡◌, ◌<◌, ◌↔◌, IsTrue};
ghost use Rattle.records.specs.Identity.{coordinator_number};
ghost use Rattle.calls.specs.Belonging.{IsNodeOf};
ghost use Rattle.calls.specs.Failing.{NodeIsSet};
ghost use Rattle.calls.specs.Opening.{CoordinatorOpens, HasStopped, ShardOpens, refusal_of};
ghost use Rattle.calls.specs.Rows.{KnownOf, RowsOf};
ghost use Rattle.calls.specs.Views.{bank_len_of, devices_of, refused};
ghost use Rattle.refusal.specs.declared.refusal.Refusal.TheVariants.{Down};

use coordinator::Coordinator;
use device::{Device, Tear};
use journal::{Bank, Refused};
use names::NodeName;
use records::Identity;
use replay::Memory;
use shard::Shard;
use std::alloc::Global;
use std::marker::Model;
use tuples::{Refusal, Shards, Version};

#[derive(Drop)]
pub(crate) enum Opened<D: Device> {
    Coordinator(Coordinator<D>),
    Shard(Shard<D>),
    Refused(Refused<D>),
}

/// A node of a store, as its last opening left it. If that was refused, it answers that refusal to every call.
#[derive(Drop)]
pub struct Node<D: Device> {
    pub(crate) alloc: Global,
    // the identity with which it was opened
    pub(crate) me: Identity,
    pub(crate) opened: Opened<D>,
}

impl<D: Device> Model for Node<D> {
    ghost use Rattle.calls.specs.Views.{NodeView};

    ghost Value = { NodeView D };

    ghost use Rattle.calls.specs.Seen.{IsKeptBeside, seen};

    ghost view = { λ n. seen n.opened };

    ghost invariant = { λ n. IsKeptBeside n.me n.opened };
}

impl<D: Device> Node<D> {
    /// Opens the coordinator with this identity.
    pub fn open_coordinator(alloc: Global, a: D, b: D, me: Identity) -> Node<D>
        requires { me.node ≡ coordinator_number }
        ensures { CoordinatorOpens D.state D.honest D.moment D.left_since a b me result }
    {
        match Coordinator::open(alloc, a, b, me) {
            Ok(coordinator) => Node {
                alloc,
                me,
                opened: Opened::Coordinator(coordinator),
            },
            Err(refused) => Node {
                alloc,
                me,
                opened: Opened::Refused(refused),
            },
        }
    }

    /// Opens the shard with this identity.
    pub fn open_shard(alloc: Global, a: D, b: D, me: Identity) -> Node<D>
        requires { me.node < me.shards }
        ensures { ShardOpens D.state D.honest D.moment D.left_since a b me result }
    {
        match Shard::open(alloc, a, b, me) {
            Ok(shard) => Node {
                alloc,
                me,
                opened: Opened::Shard(shard),
            },
            Err(refused) => Node {
                alloc,
                me,
                opened: Opened::Refused(refused),
            },
        }
    }

    /// A node that is not opened, since one of its devices failed when it was revived: its opening counts as refused with `Down`.
    pub fn stay_down(alloc: Global, a: D, b: D, me: Identity) -> Node<D>
        requires { HasStopped D.state a b }
        ensures { result ≡ refused Down a b }
    {
        Node {
            alloc,
            me,
            opened: Opened::Refused(Refused {
                refusal: Refusal::Down,
                a,
                b,
            }),
        }
    }

    /// The refusal of its opening, if that was refused.
    pub fn refusal(&self) -> Option<Refusal>
        ensures { result ≡ refusal_of self.now }
    {
        match &self.opened {
            Opened::Coordinator(_) => None,
            Opened::Shard(_) => None,
            Opened::Refused(refused) => Some(refused.refusal),
        }
    }

    /// Whether it is the node of this name in a store of this many shards. One whose opening was refused may be any.
    pub fn is_node(&self, shards: Shards, name: NodeName) -> bool
        ensures { IsTrue result ↔ IsNodeOf shards name self.now }
    {
        match (&self.opened, name) {
            (Opened::Coordinator(coordinator), NodeName::Coordinator) => {
                coordinator.identity().shards() == shards
            }
            (Opened::Shard(_), NodeName::Shard(shard)) => {
                self.me.node() == shard && self.me.shards() == shards
            }
            (Opened::Refused(_), _) => true,
            _ => false,
        }
    }

    /// Sets the script of one device, and changes nothing else.
    pub fn fail(&mut self, bank: Bank, n: u64, tear: Tear)
        ensures { NodeIsSet D.set_to_fail D.state D.honest D.moment D.left_since bank n tear self.old self.new }
    {
        match &mut self.opened {
            Opened::Coordinator(coordinator) => coordinator.fail(bank, n, tear),
            Opened::Shard(shard) => shard.fail(bank, n, tear),
            Opened::Refused(refused) => match bank {
                Bank::A => refused.a.fail(n, tear),
                Bank::B => refused.b.fail(n, tear),
            },
        }
    }

    /// The versions that a shard has learned, by tuple and then by place. Refused with `Down` or `NoMemory`; by a coordinator with `BadRequest`, and by a
    /// node whose opening was refused with that refusal.
    pub fn rows(&self) -> Result<Vec<Version>, Refusal>
        ensures { RowsOf D.state D.honest self.now result }
    {
        match &self.opened {
            Opened::Coordinator(_) => Err(Refusal::BadRequest),
            Opened::Shard(shard) => shard.rows(self.alloc),
            Opened::Refused(refused) => Err(refused.refusal),
        }
    }

    /// What a shard has in memory, to be walked over: nothing is copied. Refused with `Down`; by a coordinator with `BadRequest`, and by a node whose
    /// opening was refused with that refusal.
    pub fn known(&self) -> Result<&Memory, Refusal>
        ensures { KnownOf D.state D.honest self.now result }
    {
        match &self.opened {
            Opened::Coordinator(_) => Err(Refusal::BadRequest),
            Opened::Shard(shard) => shard.known(),
            Opened::Refused(refused) => Err(refused.refusal),
        }
    }

    /// How many bytes its current bank has, up to and including the closed gate that ends the list; 0 if its opening was refused.
    pub fn bank_len(&self) -> u64
        ensures { result ≡ bank_len_of self.now }
    {
        match &self.opened {
            Opened::Coordinator(coordinator) => coordinator.bank_len(),
            Opened::Shard(shard) => shard.bank_len(),
            Opened::Refused(_) => 0,
        }
    }

    /// How many bytes a checkpoint of what it knows has; none if its opening was refused, or there is no memory to tell.
    pub fn checkpoint_len(&self) -> Option<u64> {
        match &self.opened {
            Opened::Coordinator(coordinator) => coordinator.checkpoint_len(self.alloc).ok(),
            Opened::Shard(shard) => shard.checkpoint_len(self.alloc).ok(),
            Opened::Refused(_) => None,
        }
    }

    /// Whether its disk has the room for a checkpoint of this many bytes, as far as is known.
    pub fn has_point_room(&self, len: u64) -> bool {
        match &self.opened {
            Opened::Coordinator(coordinator) => coordinator.has_point_room(len),
            Opened::Shard(shard) => shard.has_point_room(len),
            Opened::Refused(_) => true,
        }
    }

    /// Its devices.
    pub fn devices(&self) -> (&D, &D)
        ensures { (result.0.now, result.1.now) ≡ devices_of self.now }
    {
        match &self.opened {
            Opened::Coordinator(coordinator) => coordinator.devices(),
            Opened::Shard(shard) => shard.devices(),
            Opened::Refused(refused) => (&refused.a, &refused.b),
        }
    }

    /// Gives the devices back.
    pub fn into_devices(self) -> (D, D)
        ensures { result ≡ devices_of self }
    {
        let Node {
            alloc: _,
            me: _,
            opened,
        } = self;
        match opened {
            Opened::Coordinator(coordinator) => coordinator.into_devices(),
            Opened::Shard(shard) => shard.into_devices(),
            Opened::Refused(refused) => {
                let Refused { refusal: _, a, b } = refused;
                (a, b)
            }
        }
    }
}
