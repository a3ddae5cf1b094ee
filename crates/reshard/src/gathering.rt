// The versions of all shards of the old store, where they lie.
ghost use Rattle.std.specs.Prelude.{◌≡◌, ◌++◌, ◌∷◌, ◌⊎◌, ℕ, [], List, OnOk, IfErr, IfOk, MatchResult};
ghost use Rattle.reshard.specs.Merging.{all_of, merged};
ghost use Rattle.reshard.specs.Gathering.{AreGathered, IsKnownOf, TellAll, TellsShard};
ghost use Rattle.reshard.specs.Refusing.{TellsNot};
ghost use Rattle.tuples.specs.declared.version.Version.{Version as AnyVersion};

use crate::rows::Rows;
use cluster::World;
use device::Device;
use names::NodeName;
use replay::Memory;
use std::alloc::Global;
use tuples::Refusal;

fn known<D: Device>(world: &World<D>, shard: u8) -> Result<&Memory, Refusal>
    ensures { MatchResult result (IsKnownOf D.state D.honest world.now.nodes shard) (TellsNot D.state D.honest world.now.nodes shard) }
{
    match world.node(NodeName::Shard(shard)) {
        Some(node) => node.known(),
        None => Err(Refusal::BadRequest),
    }
}

fn append<'a, D: Device>(world: &'a World<D>, shard: u8, rows: &mut Rows<'a>) -> Result<(), Refusal>
    ensures ok { OnOk result ((more : List AnyVersion) × TellsShard D.state D.honest world.now.nodes shard more × (rows.new ≡ rows.old ++ more ∷ [])) }
    ensures err { IfErr result (λ e. TellsNot D.state D.honest world.now.nodes shard e ⊎ (e ≡ Refusal.NoMemory)) }
{
    let known = known(world, shard)?;
    match rows.push(known) {
        Ok(()) => Ok(()),
        Err(_) => Err(Refusal::NoMemory),
    }
}

fn append_all<'a, D: Device>(world: &'a World<D>, rows: &mut Rows<'a>) -> Result<(), Refusal>
    requires { rows.old ≡ [] }
    ensures ok { OnOk result (TellAll D.state D.honest world.now.nodes world.now.shards (all_of rows.new)) }
    ensures err { IfErr result (λ e. ((s : ℕ) × TellsNot D.state D.honest world.now.nodes s e) ⊎ (e ≡ Refusal.NoMemory)) }
{
    for shard in 0..world.shards().count() {
        append(world, shard, rows)?;
    }
    Ok(())
}

/// The versions of all shards, which stay where they lie: merged, by tuple and then by place.
pub(crate) fn gather<D: Device>(alloc: Global, world: &World<D>) -> Result<Rows<'_>, Refusal>
    ensures ok { IfOk result (λ rows. AreGathered D.state D.honest world.now.nodes world.now.shards (merged rows)) }
    ensures err { IfErr result (λ e. ((s : ℕ) × TellsNot D.state D.honest world.now.nodes s e) ⊎ (e ≡ Refusal.NoMemory)) }
{
    let mut rows = Rows::new(alloc);
    match append_all(world, &mut rows) {
        Ok(()) => {
            rows.keeps_order();
            Ok(rows)
        }
        Err(refusal) => Err(refusal),
    }
}
