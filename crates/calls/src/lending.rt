// A node whose devices are elsewhere, while what was staged is made durable there.
ghost use Rattle.std.specs.Prelude.{◌≡◌, ◌↔◌, IfErr, IfOk, IsErr, IsSome};
ghost use Rattle.calls.specs.Lending.{NodeLands, NodeLends, NodeMayLand};
ghost use Rattle.calls.specs.Opening.{refusal_of};

use crate::Node;
use crate::node::Opened;
use away::Away;
use device::Device;
use journal::{BatchRoom, Journal};

/// Which of a node's staged records fly.
#[derive(Clone, Copy, Debug, PartialEq, Eq)]
pub enum Flying {
    Coordinator(coordinator::Flying),
    Shard(shard::Flying),
}

/// A node without its devices, and a flight: its journal with them.
#[derive(Drop)]
pub struct Lent<D: Device> {
    /// May be asked for anything but a flush, which would put it down.
    pub node: Node<Away<D>>,
    /// To be flushed.
    pub flight: Journal<D>,
    pub flying: Flying,
}

impl<D: Device> Node<D> {
    /// Lends the devices of an opened node. One whose opening was refused is returned as it was: it has nothing that could fly.
    pub fn lend(self, room: BatchRoom) -> Result<Lent<D>, (Node<D>, BatchRoom)>
        ensures ok { IfOk result (λ r. NodeLends D.state D.honest self r.node r.flight r.flying) }
        ensures refused { IsErr result ↔ IsSome (refusal_of self) }
        ensures err { IfErr result (λ e. e.0 ≡ self) }
    {
        let Node { alloc, me, opened } = self;
        match opened {
            Opened::Coordinator(coordinator) => {
                let (lent, flight, flying) = coordinator.lend(room);
                let node = Node {
                    alloc,
                    me,
                    opened: Opened::Coordinator(lent),
                };
                let flying = Flying::Coordinator(flying);
                Ok(Lent {
                    node,
                    flight,
                    flying,
                })
            }
            Opened::Shard(shard) => {
                let (lent, flight, flying) = shard.lend(room);
                let node = Node {
                    alloc,
                    me,
                    opened: Opened::Shard(lent),
                };
                let flying = Flying::Shard(flying);
                Ok(Lent {
                    node,
                    flight,
                    flying,
                })
            }
            Opened::Refused(refused) => {
                let node = Node {
                    alloc,
                    me,
                    opened: Opened::Refused(refused),
                };
                Err((node, room))
            }
        }
    }
}

impl<D: Device> Node<Away<D>> {
    /// Gives the devices back to the node that lent them, and returns the room for the next flight.
    pub fn land(self, flown: Journal<D>, flying: Flying) -> (Node<D>, BatchRoom)
        requires { NodeMayLand D.state D.honest self flown flying }
        ensures { NodeLands D.state D.honest self flown flying result.0 }
    {
        let Node { alloc, me, opened } = self;
        match (opened, flying) {
            (Opened::Coordinator(coordinator), Flying::Coordinator(flying)) => {
                let (back, room) = coordinator.land(flown, flying);
                let node = Node {
                    alloc,
                    me,
                    opened: Opened::Coordinator(back),
                };
                (node, room)
            }
            (Opened::Shard(shard), Flying::Shard(flying)) => {
                let (back, room) = shard.land(flown, flying);
                let node = Node {
                    alloc,
                    me,
                    opened: Opened::Shard(back),
                };
                (node, room)
            }
            _ => unreachable!(),
        }
    }
}
