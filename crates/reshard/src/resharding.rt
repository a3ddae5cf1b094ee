// A store is carried over to one of another number of shards.
ghost use Rattle.std.specs.Prelude.{◌≡◌, ◌⊎◌, ◌≤◌, ◌+◌, ◌*◌, [], All, List, IfErr, IfOk, IsErr, OnErr, OnOk};
ghost use Rattle.std.specs.Vec.{vec_capacity, vec_len};
ghost use Rattle.calls.specs.declared.carrying.Reach.{Reach as AnyReach};
ghost use Rattle.cluster.specs.Openings.{IsOpenedOver};
ghost use Rattle.cluster.specs.Worlds.{flow_count};
ghost use Rattle.journal.specs.Beginnings.{BegunView};
ghost use Rattle.reshard.specs.Merging.{merged};
ghost use Rattle.refusal.specs.declared.refusal.Refusal.{Refusal as AnyRefusal};
ghost use Rattle.reshard.specs.Caring.{Cares, HaveReached, IsCaredFor};
ghost use Rattle.reshard.specs.Gathering.{AreGathered};
ghost use Rattle.reshard.specs.Made.{AreHonest, AreMade, HasLog, HaveShards, IsCarriedOver};
ghost use Rattle.reshard.specs.Refusing.{AreUp, CarriesNot, IsFirstDown, IsNotKnown, IsNotWritten, IsRefusedCare};
ghost use Rattle.reshard.specs.Written.{AreLeft, AreWrittenInOrder, EndsLast, FirstTwo, HasBegunOn, HasTried, IsLeftOver};
ghost use Rattle.tuples.specs.declared.version.Version.{Version as AnyVersion};

use crate::filling::fill;
use crate::founding::{begin_all, give_back};
use crate::gathering::gather;
use crate::rows::Rows;
use crate::settling::{are_up, reach, settle};
use calls::Reach;
use cluster::{World, reopen};
use device::Device;
use journal::Begun;
use std::alloc::Global;
use tuples::{Refusal, Shards};

// What the shards of a store know, which is to be known by others: how far they reach, and their versions, where they lie.
#[derive(Drop)]
struct Known<'a> {
    reach: Reach,
    rows: Rows<'a>,
}

fn know<D: Device>(alloc: Global, old: &World<D>) -> Result<Known<'_>, Refusal>
    ensures ok { IfOk result (λ known. HaveReached D.state D.honest old.now.nodes old.now.shards known.reach × AreGathered D.state D.honest old.now.nodes old.now.shards (merged known.rows)) }
    ensures err { IfErr result (IsNotKnown D.state D.honest old.now) }
{
    let reach = reach(old)?;
    match gather(alloc, old) {
        Ok(rows) => Ok(Known { reach, rows }),
        Err(refusal) => Err(refusal),
    }
}

// The cares of the old store, each node of which is up.
fn close<D: Device>(old: &mut World<D>) -> Result<(), Refusal>
    ensures cared { OnOk result (AreUp D.state D.honest old.old × IsCaredFor D.state D.honest D.moment D.left_since old.old old.new) }
    ensures err { IfErr result (λ e. (IsFirstDown D.state D.honest old.old e × (old.new ≡ old.old)) ⊎ (AreUp D.state D.honest old.old × IsRefusedCare D.state D.honest D.moment D.left_since old.old e old.new)) }
{
    are_up(old)?;
    settle(old)
}

// A checkpoint begins on the devices of each new node, and then each has its own.
fn write<D: Device>(
    alloc: Global,
    old: &World<D>,
    shards: Shards,
    known: &Known<'_>,
    devices: &mut Vec<D>,
    begun: &mut Vec<Begun<D>>,
) -> Result<(), Refusal>
    requires count { vec_len devices.old ≡ 2 * (shards + 1) }
    requires within { vec_len devices.old ≤ vec_capacity devices.old }
    requires none { begun.old.items ≡ [] }
    requires empty { vec_len begun.old ≡ 0 }
    requires room { shards + 1 ≤ vec_capacity begun.old }
    ensures left { vec_len devices.new + 2 * vec_len begun.new ≡ vec_len devices.old }
    ensures capacity { vec_capacity devices.new ≡ vec_capacity devices.old }
    ensures count { OnOk result (vec_len begun.new ≡ shards + 1) }
    ensures honest { All D.honest devices.old.items → OnOk result (AreHonest D.honest begun.new.items) }
    ensures each { All D.honest devices.old.items → OnOk result (HaveShards D.state old.now.store shards known.now.reach (merged known.now.rows) shards begun.new.items) }
    ensures log { All D.honest devices.old.items → OnOk result (HasLog D.state D.honest old.now shards begun.new.items) }
    ensures order { OnOk result ((head : BegunView D) × HasBegunOn D.state D.honest D.moment D.left_since devices.old.items head
        × EndsLast D.state D.honest D.moment D.left_since old.now shards known.now.reach (merged known.now.rows) (All D.honest devices.old.items) head begun.new.items) }
    ensures so_far { ((begun.new.items ≡ []) × FirstTwo D.state D.honest D.moment D.left_since devices.old.items devices.new.items)
        ⊎ ((head : BegunView D) × HasBegunOn D.state D.honest D.moment D.left_since devices.old.items head × HasTried D.state D.honest D.moment D.left_since old.now shards known.now.reach (merged known.now.rows) (All D.honest devices.old.items) head begun.new.items) }
    ensures err { IfErr result (IsNotWritten D.state D.honest devices.old.items old.now.nodes) }
{
    begin_all(alloc, shards.count() as usize + 1, devices, begun)?;
    fill(alloc, old, shards, known.reach, &known.rows, begun)
}

// The devices become those of the new store.
fn make<D: Device>(
    alloc: Global,
    old: &World<D>,
    shards: Shards,
    known: &Known<'_>,
    devices: &mut Vec<D>,
) -> Result<(), Refusal>
    requires count { vec_len devices.old ≡ 2 * (shards + 1) }
    ensures count { vec_len devices.new ≡ vec_len devices.old }
    ensures ok { OnOk result (AreMade D.state D.honest old.now shards known.now.reach (merged known.now.rows) devices.old.items devices.new.items) }
    ensures order { OnOk result (AreWrittenInOrder D.state D.honest D.moment D.left_since old.now shards known.now.reach (merged known.now.rows) devices.old.items devices.new.items) }
    ensures left { OnErr result (AreLeft D.state D.honest D.moment D.left_since old.now shards known.now.reach (merged known.now.rows) devices.old.items devices.new.items) }
    ensures err { IfErr result (IsNotWritten D.state D.honest devices.old.items old.now.nodes) }
{
    let Ok(mut begun) = Vec::with_capacity(alloc, shards.count() as usize + 1) else {
        return Err(Refusal::NoMemory);
    };
    let made = write(alloc, old, shards, known, devices, &mut begun);
    give_back(begun, devices);
    made
}

// What is known becomes that of the new devices, and the log beside it.
fn carry_known<D: Device>(
    alloc: Global,
    old: &World<D>,
    shards: Shards,
    known: &Known<'_>,
    mut devices: Vec<D>,
) -> Result<Vec<D>, (Refusal, Vec<D>)>
    requires count { vec_len devices ≡ 2 * (shards + 1) }
    ensures ok { IfOk result (λ made. AreMade D.state D.honest old.now shards known.now.reach (merged known.now.rows) devices.items made.items) }
    ensures count { IfOk result (λ made. vec_len made ≡ vec_len devices) }
    ensures back { IfErr result (λ e. vec_len e.1 ≡ vec_len devices) }
    ensures order { IfOk result (λ made. AreWrittenInOrder D.state D.honest D.moment D.left_since old.now shards known.now.reach (merged known.now.rows) devices.items made.items) }
    ensures left { IfErr result (λ e. AreLeft D.state D.honest D.moment D.left_since old.now shards known.now.reach (merged known.now.rows) devices.items e.1.items) }
    ensures err { IfErr result (λ e. IsNotWritten D.state D.honest devices.items old.now.nodes e.0) }
{
    match make(alloc, old, shards, known, &mut devices) {
        Ok(()) => Ok(devices),
        Err(refusal) => Err((refusal, devices)),
    }
}

// What the old store knows becomes that of the new devices.
fn carry<D: Device>(
    alloc: Global,
    old: &World<D>,
    shards: Shards,
    devices: Vec<D>,
) -> Result<Vec<D>, (Refusal, Vec<D>)>
    requires count { vec_len devices ≡ 2 * (shards + 1) }
    ensures ok { IfOk result (λ made. IsCarriedOver D.state D.honest old.now shards devices.items made.items) }
    ensures count { IfOk result (λ made. vec_len made ≡ vec_len devices) }
    ensures back { IfErr result (λ e. vec_len e.1 ≡ vec_len devices) }
    ensures order { IfOk result (λ made. (reach : AnyReach) × (rows : List AnyVersion) × AreWrittenInOrder D.state D.honest D.moment D.left_since old.now shards reach rows devices.items made.items) }
    ensures left { IfErr result (λ e. IsLeftOver D.state D.honest D.moment D.left_since old.now shards devices.items e.1.items) }
    ensures err { IfErr result (λ e. IsNotKnown D.state D.honest old.now e.0 ⊎ IsNotWritten D.state D.honest devices.items old.now.nodes e.0) }
{
    match know(alloc, old) {
        Ok(known) => carry_known(alloc, old, shards, &known, devices),
        Err(refusal) => Err((refusal, devices)),
    }
}

/// Carries a store over to one of so many shards, on new devices: those of its coordinator, and then those of each shard, by rising number, bank a before
/// bank b, each without a byte. They come back with all that the new nodes are to know, to be opened as a store with the same id.
///
/// The old store is cared for first: all that its coordinator has staged becomes durable, and each shard finds out what became of its writes in doubt, learns
/// what is kept, and forgets what lies below the horizon. Its log stays as it is, and it can be gone on with wherever this ends. A write that is in doubt
/// still is not carried over: it has no place in the log, and the new coordinator, which is opened once more than the old one, tells that it is aborted.
///
/// If a node is not up it is refused as that one, the coordinator before the shards; as a care was, or with `Down` if a call of a device failed,
/// `NoMemory` or `Full`. `Damaged` if the old devices are not all of one moment, a shard is to learn what the log no longer has, or a new device has
/// something. Then the new devices come back to be emptied: unless the very last call failed, they are no store.
pub fn carry_over<D: Device>(
    alloc: Global,
    old: &mut World<D>,
    devices: Vec<D>,
    shards: Shards,
) -> Result<Vec<D>, (Refusal, Vec<D>)>
    requires quiet { flow_count old.old.flows ≡ 0 }
    requires count { vec_len devices ≡ 2 * (shards + 1) }
    ensures cares { Cares D.state D.honest D.moment D.left_since old.old old.new }
    ensures ok { IfOk result (λ made. IsCaredFor D.state D.honest D.moment D.left_since old.old old.new × IsCarriedOver D.state D.honest old.new shards devices.items made.items) }
    ensures count { IfOk result (λ made. vec_len made ≡ vec_len devices) }
    ensures back { IfErr result (λ e. vec_len e.1 ≡ vec_len devices) }
    ensures order { IfOk result (λ made. (reach : AnyReach) × (rows : List AnyVersion) × AreWrittenInOrder D.state D.honest D.moment D.left_since old.new shards reach rows devices.items made.items) }
    ensures left { IfErr result (λ r. IsLeftOver D.state D.honest D.moment D.left_since old.new shards devices.items r.1.items) }
    ensures not_up { (e : AnyRefusal) → IsFirstDown D.state D.honest old.old e → IsErr result × IfErr result (λ r. (r.0 ≡ e) × (r.1 ≡ devices)) × (old.new ≡ old.old) }
    ensures err { IfErr result (λ r. CarriesNot D.state D.honest D.moment D.left_since devices.items old.old r.0 old.new) }
{
    match close(old) {
        Ok(()) => carry(alloc, old, shards, devices),
        Err(refusal) => Err((refusal, devices)),
    }
}

/// As `carry_over`, and the new store is opened over the devices, as `reopen` does.
pub fn reshard<D: Device>(
    alloc: Global,
    old: &mut World<D>,
    devices: Vec<D>,
    shards: Shards,
) -> Result<World<D>, (Refusal, Vec<D>)>
    requires quiet { flow_count old.old.flows ≡ 0 }
    requires count { vec_len devices ≡ 2 * (shards + 1) }
    ensures cares { Cares D.state D.honest D.moment D.left_since old.old old.new }
    ensures ok { IfOk result (λ w. (made : List D) × IsCaredFor D.state D.honest D.moment D.left_since old.old old.new × IsCarriedOver D.state D.honest old.new shards devices.items made
        × IsOpenedOver D.state D.honest D.moment D.left_since old.new.store shards made w) }
    ensures back { IfErr result (λ e. vec_len e.1 ≡ vec_len devices) }
    ensures not_up { (e : AnyRefusal) → IsFirstDown D.state D.honest old.old e → IsErr result × IfErr result (λ r. (r.0 ≡ e) × (r.1 ≡ devices)) × (old.new ≡ old.old) }
    ensures err { IfErr result (λ r. CarriesNot D.state D.honest D.moment D.left_since devices.items old.old r.0 old.new ⊎ (r.0 ≡ Refusal.NoMemory)) }
{
    match carry_over(alloc, old, devices, shards) {
        Ok(made) => open(alloc, old.store(), shards, made),
        Err(refused) => Err(refused),
    }
}

// Opens the new store.
fn open<D: Device>(
    alloc: Global,
    store: u64,
    shards: Shards,
    devices: Vec<D>,
) -> Result<World<D>, (Refusal, Vec<D>)>
    requires count { vec_len devices ≡ 2 * (shards + 1) }
    ensures ok { IfOk result (IsOpenedOver D.state D.honest D.moment D.left_since store shards devices.items) }
    ensures back { IfErr result (λ e. vec_len e.1 ≡ vec_len devices) }
    ensures err { IfErr result (λ e. e.0 ≡ Refusal.NoMemory) }
{
    match reopen(alloc, devices, store, shards) {
        Ok(world) => Ok(world),
        Err(devices) => Err((Refusal::NoMemory, devices)),
    }
}
