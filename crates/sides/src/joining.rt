// What the coordinator has made durable joins the list.
ghost use Rattle.std.specs.Prelude.{◌≡◌, ◌≤◌, ◌-◌, ◌++◌, List, [], length};
ghost use mathlib.Core.List.{IsPrefix};
ghost use Rattle.calls.specs.declared.call.CoordinatorCall.TheVariants.{Heads as heads_call};
ghost use Rattle.sides.specs.CoordinatorSides.{IsSoundThere, IsTiedThere, MayAskThere};
ghost use Rattle.sides.specs.Joining.{AreHeadsOf, FollowsHeads, MayJoin, RunsThere, behind_in, exactly, heads_in};
ghost use Rattle.ties.specs.Ties.{Attempt};

use crate::coordinator_side::ask_coordinator;
use crate::{Lists, Room};
use calls::{CoordinatorCall, CoordinatorReply, Node, Reply, Told};
use decisions::Heads;
use device::Device;
use published::{Adds, LogPass, Published};
use std::marker::Brand;
use tuples::Entry;

// The list is as long as the place, by what is kept after it.
fn advance<D: Device, A: Adds<Entry>>(
    words: &Published<Entry>,
    log: &mut LogPass<Entry>,
    node: &Option<Node<D>>,
    place: u64,
)
    requires own { log.old.table ≡ words.now }
    requires longer { length log.old.seen ≤ place }
    requires added { A.added ≡ exactly (place - length log.old.seen) (behind_in log.old.seen node.now) }
    ensures same { (log.new.table ≡ log.old.table) × (log.new.horizon ≡ log.old.horizon) }
    ensures added { log.new.seen ≡ log.old.seen ++ exactly (place - length log.old.seen) (behind_in log.old.seen node.now) }
{
    let _node = node;
    words.advance::<A>(log, place);
}

fn advance_to<D: Device>(
    words: &Published<Entry>,
    log: &mut LogPass<Entry>,
    node: &Option<Node<D>>,
    place: u64,
)
    requires own { log.old.table ≡ words.now }
    requires longer { length log.old.seen ≤ place }
    ensures same { (log.new.table ≡ log.old.table) × (log.new.horizon ≡ log.old.horizon) }
    ensures added { log.new.seen ≡ log.old.seen ++ exactly (place - length log.old.seen) (behind_in log.old.seen node.now) }
{
    advance::<D, Brand>(words, log, node, place);
}

// The list is no shorter than the place. If the place counts what is kept after the list, the list is longer by just that.
fn reach<D: Device>(
    words: &Published<Entry>,
    log: &mut LogPass<Entry>,
    node: &Option<Node<D>>,
    place: u64,
)
    requires own { log.old.table ≡ words.now }
    ensures same { (log.new.table ≡ log.old.table) × (log.new.horizon ≡ log.old.horizon) }
    ensures later { IsPrefix log.old.seen log.new.seen }
    ensures counted { place ≡ length (log.old.seen ++ behind_in log.old.seen node.now) → log.new.seen ≡ log.old.seen ++ behind_in log.old.seen node.now }
{
    if words.length(log) < place {
        advance_to(words, log, node, place);
    }
}

// The horizon is no lower than the place, if that is one of the list.
fn raise_to(words: &Published<Entry>, log: &mut LogPass<Entry>, place: u64)
    requires own { log.old.table ≡ words.now }
    ensures same { (log.new.table ≡ log.old.table) × (log.new.seen ≡ log.old.seen) }
    ensures later { log.old.horizon ≤ log.new.horizon }
    ensures raised { place ≤ length log.old.seen → log.old.horizon ≤ place → log.new.horizon ≡ place }
{
    if place <= words.length(log) {
        words.raise(log, place);
    }
}

// The list is that which the heads count, and its horizon is theirs.
fn join_to<D: Device>(
    words: &Published<Entry>,
    log: &mut LogPass<Entry>,
    node: &Option<Node<D>>,
    heads: &Heads,
)
    requires own { log.old.table ≡ words.now }
    ensures same { log.new.table ≡ log.old.table }
    ensures later { IsPrefix log.old.seen log.new.seen × (log.old.horizon ≤ log.new.horizon) }
    ensures follows { FollowsHeads (log.old.seen ++ behind_in log.old.seen node.now) log.old.horizon heads.now log.new.seen log.new.horizon }
{
    reach(words, log, node, heads.kept());
    raise_to(words, log, heads.horizon());
}

// The list begins, as long as the place: with the list at which the devices rest, and what is kept after it.
fn advance_first<D: Device, B: Room, A: Adds<Entry>>(
    words: &Published<Entry>,
    log: &mut LogPass<Entry>,
    node: &Option<Node<D>>,
    place: u64,
)
    requires own { log.old.table ≡ words.now }
    requires empty { log.old.seen ≡ [] }
    requires added { A.added ≡ exactly place (B.first ++ behind_in B.first node.now) }
    ensures same { (log.new.table ≡ log.old.table) × (log.new.horizon ≡ log.old.horizon) }
    ensures added { log.new.seen ≡ exactly place (B.first ++ behind_in B.first node.now) }
{
    let _node = node;
    words.advance::<A>(log, place);
}

fn begin_at<D: Device, B: Room>(
    words: &Published<Entry>,
    log: &mut LogPass<Entry>,
    node: &Option<Node<D>>,
    place: u64,
)
    requires own { log.old.table ≡ words.now }
    requires empty { log.old.seen ≡ [] }
    ensures same { (log.new.table ≡ log.old.table) × (log.new.horizon ≡ log.old.horizon) }
    ensures added { log.new.seen ≡ exactly place (B.first ++ behind_in B.first node.now) }
{
    advance_first::<D, B, Brand>(words, log, node, place);
}

// The list begins with what the heads count.
fn begin_to<D: Device, B: Room>(
    words: &Published<Entry>,
    log: &mut LogPass<Entry>,
    node: &Option<Node<D>>,
    heads: &Heads,
)
    requires own { log.old.table ≡ words.now }
    requires empty { (log.old.seen ≡ []) × (log.old.horizon ≡ 0) }
    ensures same { log.new.table ≡ log.old.table }
    ensures follows { FollowsHeads (B.first ++ behind_in B.first node.now) 0 heads.now log.new.seen log.new.horizon }
{
    begin_at::<D, B>(words, log, node, heads.kept());
    raise_to(words, log, heads.horizon());
}

// The heads that a reply tells.
fn heads_of(reply: Reply) -> Option<Heads>
    ensures { result ≡ heads_in reply }
{
    match reply {
        Reply::Coordinator(CoordinatorReply::Heads(Ok(heads))) => Some(heads),
        other => {
            other.leave();
            None
        }
    }
}

/// How far the coordinator is, if it is up.
pub(crate) fn ask_heads<D: Device>(node: &mut Option<Node<D>>) -> Option<Heads>
    requires { MayAskThere node.old heads_call }
    ensures same { node.new ≡ node.old }
    ensures heads { AreHeadsOf D.state D.honest node.old result }
{
    let mut told = Told::new();
    let reply = ask_coordinator(node, CoordinatorCall::Heads, &mut told);
    drop(told);
    heads_of(reply)
}

/// Adds to the list what is durable of the coordinator, if that is up. What is only staged a stop may take away.
pub(crate) fn join<D: Device, B: Room>(
    lists: &Lists<B>,
    log: &mut LogPass<Entry>,
    node: &mut Option<Node<D>>,
)
    requires own { log.old.table ≡ B.log }
    requires sound { IsSoundThere D.state D.honest B.store B.shards node.old }
    ensures node { node.new ≡ node.old }
    ensures same { log.new.table ≡ log.old.table }
    ensures later { IsPrefix log.old.seen log.new.seen × (log.old.horizon ≤ log.new.horizon) }
    ensures tied { (tried : List Attempt) → MayJoin D.state D.honest B.store B.shards node.old log.old.seen log.old.horizon tried
        → IsTiedThere D.state D.honest B.store B.shards node.new log.new.seen log.new.horizon tried }
{
    if let Some(heads) = ask_heads(node) {
        join_to(&lists.writes, log, node, &heads);
    }
}

/// The list begins with what the coordinator, which is up, has found.
pub(crate) fn begin<D: Device, B: Room>(
    lists: &Lists<B>,
    log: &mut LogPass<Entry>,
    node: &mut Option<Node<D>>,
)
    requires own { log.old.table ≡ B.log }
    requires empty { (log.old.seen ≡ []) × (log.old.horizon ≡ 0) }
    requires runs { RunsThere D.state D.honest node.old }
    ensures node { node.new ≡ node.old }
    ensures same { log.new.table ≡ log.old.table }
    ensures tied { MayJoin D.state D.honest B.store B.shards node.old B.first B.low []
        → IsTiedThere D.state D.honest B.store B.shards node.new log.new.seen log.new.horizon [] × IsPrefix B.first log.new.seen × (B.low ≤ log.new.horizon) }
{
    let Some(heads) = ask_heads(node) else {
        unreachable!()
    };
    begin_to::<D, B>(&lists.writes, log, node, &heads);
}
