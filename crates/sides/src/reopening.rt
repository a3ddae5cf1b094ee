// A shard is opened under its lock, or opened again.
ghost use Rattle.std.specs.Prelude.{◌≡◌, ◌<◌, true, false, IsTrue, is_some};
ghost use Rattle.calls.specs.Opening.{ShardOpens};
ghost use Rattle.laws.specs.Worlds.{shard_node};
ghost use Rattle.sides.specs.Reopening.{FailsAgain, IsFound, OpenedIn, RestartedIn, ShardReopens};
ghost use Rattle.ties.specs.ShardTies.{RowsAnywhere};

use crate::{Room, ShardSide};
use calls::Node;
use device::Device;
use published::SharedPass;
use records::Identity;
use std::alloc::Global;
use std::marker::PhantomData;
use tuples::{Entry, Refusal};

/// Whether what a stop may have left of it was found. A device that fails even now answers only errors.
pub(crate) fn revive<D: Device>(device: &mut D) -> bool
    ensures found { IsTrue result → IsFound D.state D.honest device.old device.new }
    ensures failed { result ≡ false → FailsAgain D.state D.honest device.old device.new }
{
    device.revive().is_ok()
}

fn reopen<D: Device>(alloc: Global, mut a: D, mut b: D, me: Identity) -> Node<D>
    requires { me.node < me.shards }
    ensures { ShardReopens D.state D.honest D.moment D.left_since me a b result }
{
    let is_found_a = revive(&mut a);
    let is_found_b = revive(&mut b);
    if is_found_a && is_found_b {
        return Node::open_shard(alloc, a, b, me);
    }
    Node::stay_down(alloc, a, b, me)
}

// Opens the node again, which is there.
fn restart_shard<D: Device>(
    node: &mut Option<Node<D>>,
    alloc: Global,
    me: Identity,
) -> Option<Refusal>
    requires shard { me.node < me.shards }
    requires there { is_some node.old ≡ true }
    ensures { RestartedIn D.state D.honest D.moment D.left_since me node.old result node.new }
{
    let Some(was) = node.take() else {
        unreachable!();
    };
    let (a, b) = was.into_devices();
    let opened = reopen(alloc, a, b, me);
    let refusal = opened.refusal();
    node.insert(opened);
    refusal
}

impl<D: Device, B: Room> ShardSide<D, B> {
    /// Opens a shard over two devices, of which a stop leaves its part of the list that the pass has seen. Both are revived first, and it is up, or
    /// holds the refusal of its opening.
    pub fn open(alloc: Global, a: D, b: D, me: Identity, pass: SharedPass<Entry>) -> ShardSide<D, B>
        requires own { pass.table ≡ B.log }
        requires me { me ≡ shard_node B.store B.shards me.node }
        requires shard { me.node < B.shards }
        requires rows { B.rests → RowsAnywhere D.state D.honest B.shards me.node a b pass.seen pass.horizon }
        ensures opened { OpenedIn D.state D.honest D.moment D.left_since me a b result.node }
        ensures number { result.number ≡ me.node }
        ensures pass { result.pass ≡ pass }
    {
        ShardSide {
            node: Some(reopen(alloc, a, b, me)),
            me,
            pass,
            room: PhantomData,
        }
    }

    /// The node's memory is thrown away, its devices are revived, and it is opened again. The refusal of its opening, if that was refused.
    pub fn restart(&mut self, alloc: Global) -> Option<Refusal>
        ensures restarted { RestartedIn D.state D.honest D.moment D.left_since (shard_node B.store B.shards self.old.number) self.old.node result self.new.node }
        ensures same { (self.new.number ≡ self.old.number) × (self.new.pass ≡ self.old.pass) }
    {
        restart_shard(&mut self.node, alloc, self.me)
    }
}
