// The old store: what its shards have yet to learn is learned, and what nobody reads any more is forgotten.
ghost use Rattle.std.specs.Prelude.{◌≡◌, ◌<◌, ◌⊎◌, IfErr, IfOk, MatchResult, OnOk};
ghost use Rattle.names.specs.declared.node_name.NodeName.{NodeName as AnyName};
ghost use Rattle.reshard.specs.Caring.{CaresOn, HaveReached, IsCaredFor, ReachesAt};
ghost use Rattle.reshard.specs.Refusing.{AreApart, AreUp, IsFirstDown, RefusesAt, RefusesCare};

use crate::playing::serve;
use calls::Reach;
use cluster::World;
use device::Device;
use names::{Care, NodeName};
use tuples::{Refusal, Shards};

fn reach_of<D: Device>(world: &World<D>, name: NodeName) -> Result<Reach, Refusal>
    ensures { MatchResult result (ReachesAt D.state D.honest world.now.nodes name) (RefusesAt D.state D.honest world.now.nodes name) }
{
    match world.node(name) {
        Some(node) => node.reach(),
        None => Err(Refusal::BadRequest),
    }
}

/// Whether each node is up: else the refusal of the first that is not, the coordinator before the shards.
pub fn are_up<D: Device>(world: &World<D>) -> Result<(), Refusal>
    ensures { MatchResult result (λ _. AreUp D.state D.honest world.now) (IsFirstDown D.state D.honest world.now) }
{
    let _log = reach_of(world, NodeName::Coordinator)?;
    for shard in 0..world.shards().count() {
        let _shard = reach_of(world, NodeName::Shard(shard))?;
    }
    Ok(())
}

// What each write in doubt has become is found out and done, what is kept is learned, and what lies below the horizon is forgotten.
fn care_for<D: Device>(world: &mut World<D>, shard: u8) -> Result<(), Refusal>
    requires { shard < world.old.shards }
    ensures ok { OnOk result (CaresOn D.state D.honest D.moment D.left_since world.old world.new) }
    ensures err { IfErr result (λ e. RefusesCare D.state D.honest D.moment D.left_since world.old e world.new) }
    ensures shards { world.new.shards ≡ world.old.shards }
{
    serve(world, Care::Resolve(shard))?;
    serve(world, Care::Learn(shard))?;
    serve(world, Care::Collect(shard))
}

fn care_for_all<D: Device>(world: &mut World<D>, shards: Shards) -> Result<(), Refusal>
    requires { shards ≡ world.old.shards }
    ensures ok { OnOk result (CaresOn D.state D.honest D.moment D.left_since world.old world.new) }
    ensures err { IfErr result (λ e. RefusesCare D.state D.honest D.moment D.left_since world.old e world.new) }
{
    for shard in 0..shards.count() {
        care_for(world, shard)?;
    }
    Ok(())
}

/// All that the coordinator has staged becomes durable, and then each shard is cared for.
pub(crate) fn settle<D: Device>(world: &mut World<D>) -> Result<(), Refusal>
    ensures ok { OnOk result (IsCaredFor D.state D.honest D.moment D.left_since world.old world.new) }
    ensures err { IfErr result (λ e. RefusesCare D.state D.honest D.moment D.left_since world.old e world.new) }
{
    let shards = world.shards();
    serve(world, Care::Flush(NodeName::Coordinator))?;
    care_for_all(world, shards)
}

/// How far all nodes reach. `Damaged` if one reaches further than another: the devices are not all of one moment.
pub(crate) fn reach<D: Device>(world: &World<D>) -> Result<Reach, Refusal>
    ensures ok { IfOk result (HaveReached D.state D.honest world.now.nodes world.now.shards) }
    ensures err { IfErr result (λ e. ((name : AnyName) × RefusesAt D.state D.honest world.now.nodes name e) ⊎ ((e ≡ Refusal.Damaged) × AreApart D.state D.honest world.now.nodes world.now.shards)) }
{
    let reach = reach_of(world, NodeName::Coordinator)?;
    for shard in 0..world.shards().count() {
        let other = reach_of(world, NodeName::Shard(shard))?;
        if other != reach {
            return Err(Refusal::Damaged);
        }
    }
    Ok(reach)
}
