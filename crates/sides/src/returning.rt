// The coordinator is opened under its lock, or opened again, and what it found joins the list.
ghost use Rattle.std.specs.Prelude.{◌≡◌, ◌≤◌, [], IfErr, IfOk, true, is_some};
ghost use mathlib.Core.List.{IsPrefix};
ghost use Rattle.calls.specs.Views.{refused};
ghost use Rattle.laws.specs.Worlds.{coordinator_node};
ghost use Rattle.records.specs.Identity.{coordinator_number};
ghost use Rattle.sides.specs.CoordinatorSides.{HasLaterList};
ghost use Rattle.sides.specs.Reopening.{LogOpenedIn, LogReopens, LogRestartedIn};
ghost use Rattle.ties.specs.Ties.{Anywhere};

use crate::joining::{begin, join};
use crate::reopening::revive;
use crate::{Attempt, CoordinatorSide, Lists, Room};
use calls::Node;
use device::Device;
use published::LogPass;
use records::Identity;
use std::alloc::Global;
use std::marker::PhantomData;
use tuples::{Entry, Refusal};

fn reopen<D: Device>(alloc: Global, mut a: D, mut b: D, me: Identity) -> Node<D>
    requires { me.node ≡ coordinator_number }
    ensures { LogReopens D.state D.honest D.moment D.left_since me a b result }
{
    let is_found_a = revive(&mut a);
    let is_found_b = revive(&mut b);
    if is_found_a && is_found_b {
        return Node::open_coordinator(alloc, a, b, me);
    }
    Node::stay_down(alloc, a, b, me)
}

// Opens the node again, which is there.
fn restart_coordinator<D: Device>(
    node: &mut Option<Node<D>>,
    alloc: Global,
    me: Identity,
) -> Option<Refusal>
    requires coordinator { me.node ≡ coordinator_number }
    requires there { is_some node.old ≡ true }
    ensures { LogRestartedIn D.state D.honest D.moment D.left_since me node.old result node.new }
{
    let Some(was) = node.take() else {
        unreachable!();
    };
    let (a, b) = was.into_devices();
    let opened = reopen(alloc, a, b, me);
    let refusal = opened.refusal();
    node.insert(opened);
    refusal
}

impl<D: Device, B: Room> CoordinatorSide<D, B> {
    /// Opens the coordinator over two devices, of which a stop leaves the list at which the store rests, and perhaps more. Both are revived first. It is up,
    /// with what was found after the list; or its opening is refused.
    pub fn open(
        lists: &Lists<B>,
        alloc: Global,
        a: D,
        b: D,
        me: Identity,
        log: LogPass<Entry>,
        attempts: LogPass<Attempt>,
    ) -> Result<CoordinatorSide<D, B>, Refusal>
        requires own { (log.table ≡ B.log) × (attempts.table ≡ B.attempts) }
        requires empty { (log.seen ≡ []) × (log.horizon ≡ 0) × (attempts.seen ≡ []) }
        requires me { me ≡ coordinator_node B.store B.shards }
        requires honest { D.honest a × D.honest b }
        requires anywhere { B.rests → Anywhere D.state D.honest a b B.first B.low [] }
        ensures opened { IfOk result (λ side. LogOpenedIn D.state D.honest D.moment D.left_since me a b side.node) }
        ensures list { IfOk result (λ side. B.rests → IsPrefix B.first side.seen × (B.low ≤ side.low)) }
        ensures refused { IfErr result (λ e. (x : D) × (y : D) × LogReopens D.state D.honest D.moment D.left_since me a b (refused e x y)) }
    {
        let opened = reopen(alloc, a, b, me);
        if let Some(refusal) = opened.refusal() {
            drop(opened);
            drop(log);
            drop(attempts);
            return Err(refusal);
        }
        let mut log = log;
        let mut node = Some(opened);
        begin::<D, B>(lists, &mut log, &mut node);
        Ok(CoordinatorSide {
            node,
            me,
            log,
            attempts,
            room: PhantomData,
        })
    }

    /// The node's memory is thrown away, its devices are revived, and it is opened again: what was found after the list joins it. The refusal of its
    /// opening, if that was refused.
    pub fn restart(&mut self, lists: &Lists<B>, alloc: Global) -> Option<Refusal>
        ensures restarted { LogRestartedIn D.state D.honest D.moment D.left_since (coordinator_node B.store B.shards) self.old.node result self.new.node }
        ensures list { HasLaterList self.old self.new }
    {
        let refusal = restart_coordinator(&mut self.node, alloc, self.me);
        join::<D, B>(lists, &mut self.log, &mut self.node);
        refusal
    }
}
