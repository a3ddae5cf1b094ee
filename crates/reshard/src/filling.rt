// What the old store knows is written to the devices of the new nodes, on which a checkpoint has begun.
ghost use Rattle.std.specs.Prelude.{◌≡◌, ◌⊎◌, ◌≤◌, ◌<◌, ◌+◌, ◌↔◌, ◌∷◌, ◌++◌, ℕ, List, map, IfErr, OnOk, Some, length, slice_get};
ghost use Rattle.journal.specs.Ahead.{checkpoint_of};
ghost use Rattle.journal.specs.Beginnings.{BegunView};
ghost use Rattle.journal.specs.Records.{HasRecords};
ghost use Rattle.reshard.specs.Merging.{merged};
ghost use Rattle.records.specs.Format.{AreRecords};
ghost use Rattle.replay.specs.Checkpoints.{row_of};
ghost use Rattle.reshard.specs.Made.{AreHonest, HasLog, HaveShards, heads_of, shard_first};
ghost use Rattle.reshard.specs.Refusing.{LacksLog};
ghost use Rattle.reshard.specs.Written.{EndsFirst, EndsLast, HasTried, KeepsFirst};
ghost use Rattle.tuples.specs.Versions.{of_shard};

use crate::rows::Rows;
use crate::told::Told;
use calls::Reach;
use cluster::World;
use device::Device;
use journal::Begun;
use names::NodeName;
use records::{Identity, PlacedIds, Record};
use std::alloc::Global;
use tuples::{Refusal, Shards};

// The records before the versions, which take no memory.
fn heads(alloc: Global, me: Identity, reach: Reach) -> [Record; 3]
    ensures are { AreRecords result }
    ensures value { result ≡ heads_of me reach }
{
    let epoch = Record::Epoch {
        epoch: 1,
        store: me.store(),
        shards: me.shards().count(),
        node: me.node(),
    };
    let learned = Record::Learned {
        to: reach.place,
        placed_ids: PlacedIds::from_vec(Vec::new(alloc)),
    };
    [epoch, Record::Horizon(reach.horizon), learned]
}

// Ends the checkpoint of a shard after these records and its own of the versions.
fn fill_rows<'h, 'r: 'h, D: Device>(
    alloc: Global,
    begun: &mut Begun<D>,
    heads: &'h [Record],
    rows: &Rows<'r>,
    me: Identity,
) -> Result<(), Refusal>
    requires { AreRecords heads.now }
    ensures honest { (D.honest begun.old.a ↔ D.honest begun.new.a) × (D.honest begun.old.b ↔ D.honest begun.new.b) }
    ensures ok { D.honest begun.old.a → D.honest begun.old.b → OnOk result (HasRecords (D.state begun.new.a) (D.state begun.new.b) (checkpoint_of 1 (heads.now ++ map row_of (of_shard me.shards me.node (merged rows.now))))) }
    ensures err { IfErr result (λ e. (e ≡ Refusal.Down) ⊎ (e ≡ Refusal.NoMemory)) }
{
    match Told::new(alloc, heads, rows, me) {
        Ok(mut told) => begun.finish(&mut told),
        Err(_) => Err(Refusal::NoMemory),
    }
}

// Ends the checkpoint of a shard.
fn fill_shard<D: Device>(
    alloc: Global,
    begun: &mut Begun<D>,
    me: Identity,
    reach: Reach,
    rows: &Rows<'_>,
) -> Result<(), Refusal>
    ensures honest { (D.honest begun.old.a ↔ D.honest begun.new.a) × (D.honest begun.old.b ↔ D.honest begun.new.b) }
    ensures ok { D.honest begun.old.a → D.honest begun.old.b → OnOk result (HasRecords (D.state begun.new.a) (D.state begun.new.b) (shard_first me reach (merged rows.now))) }
    ensures err { IfErr result (λ e. (e ≡ Refusal.Down) ⊎ (e ≡ Refusal.NoMemory)) }
{
    let heads = heads(alloc, me, reach);
    fill_rows(alloc, begun, &heads, rows, me)
}

// Ends the checkpoint of each shard.
fn fill_shards<D: Device>(
    alloc: Global,
    store: u64,
    shards: Shards,
    reach: Reach,
    rows: &Rows<'_>,
    begun: &mut [Begun<D>],
) -> Result<(), Refusal>
    requires count { length begun.old ≡ shards + 1 }
    ensures honest { AreHonest D.honest begun.old → AreHonest D.honest begun.new }
    ensures ok { AreHonest D.honest begun.old → OnOk result (HaveShards D.state store shards reach (merged rows.now) shards begun.new) }
    ensures head { KeepsFirst begun.old begun.new }
    ensures err { IfErr result (λ e. (e ≡ Refusal.Down) ⊎ (e ≡ Refusal.NoMemory)) }
{
    for shard in 0..shards.count() {
        let me = Identity::shard(store, shards, shard);
        fill_shard(alloc, &mut begun[shard as usize + 1], me, reach, rows)?;
    }
    Ok(())
}

// Ends the checkpoint of the coordinator.
fn fill_log<D: Device>(
    old: &World<D>,
    shards: Shards,
    begun: &mut [Begun<D>],
) -> Result<(), Refusal>
    requires there { 1 ≤ length begun.old }
    ensures honest { AreHonest D.honest begun.old → AreHonest D.honest begun.new }
    ensures ok { AreHonest D.honest begun.old → OnOk result (HasLog D.state D.honest old.now shards begun.new) }
    ensures ends { EndsFirst D.state D.honest D.moment D.left_since old.now shards begun.old begun.new }
    ensures others { (s : ℕ) (n : BegunView D) → slice_get begun.new (s + 1) ≡ Some n → slice_get begun.old (s + 1) ≡ Some n }
    ensures err { IfErr result (λ e. (e ≡ Refusal.Down) ⊎ LacksLog old.now.nodes e) }
{
    match old.node(NodeName::Coordinator) {
        Some(node) => node.carry(shards, &mut begun[0]),
        None => Err(Refusal::BadRequest),
    }
}

/// Ends the checkpoint of each node, that of the coordinator last.
pub(crate) fn fill<D: Device>(
    alloc: Global,
    old: &World<D>,
    shards: Shards,
    reach: Reach,
    rows: &Rows<'_>,
    begun: &mut [Begun<D>],
) -> Result<(), Refusal>
    requires count { length begun.old ≡ shards + 1 }
    ensures honest { AreHonest D.honest begun.old → AreHonest D.honest begun.new }
    ensures each { AreHonest D.honest begun.old → OnOk result (HaveShards D.state old.now.store shards reach (merged rows.now) shards begun.new) }
    ensures log { AreHonest D.honest begun.old → OnOk result (HasLog D.state D.honest old.now shards begun.new) }
    ensures last { (head : BegunView D) (others : List (BegunView D)) → begun.old ≡ head ∷ others
        → OnOk result (EndsLast D.state D.honest D.moment D.left_since old.now shards reach (merged rows.now) (AreHonest D.honest begun.old) head begun.new) }
    ensures tried { (head : BegunView D) (others : List (BegunView D)) → begun.old ≡ head ∷ others
        → HasTried D.state D.honest D.moment D.left_since old.now shards reach (merged rows.now) (AreHonest D.honest begun.old) head begun.new }
    ensures err { IfErr result (λ e. (e ≡ Refusal.Down) ⊎ ((e ≡ Refusal.NoMemory) ⊎ LacksLog old.now.nodes e)) }
{
    fill_shards(alloc, old.store(), shards, reach, rows, begun)?;
    fill_log(old, shards, begun)
}
