// Each shard learns what is kept before anybody is served.
ghost use Rattle.std.specs.Prelude.{◌<◌};
ghost use Rattle.locked.specs.Opening.{HasFound};

use crate::fault::Fault;
use calls::Told;
use care_flow::CareEnd;
use device::Device;
use locked::{Caller, Gate, LookedOver, Store};
use names::{Care, NodeName};
use node_files::{About, Trouble};
use refusal::Refusal;
use sides::Room;
use std::alloc::Global;
use std::sync::Wait;

// With which refusal the care ended, if it was refused.
fn refused_in(end: CareEnd) -> Option<Refusal> {
    match end {
        CareEnd::Refused(refusal) => Some(refusal),
        other => {
            drop(other);
            None
        }
    }
}

// What the coordinator keeps the shard learns.
fn learn<D: Device, B: Room, G: Gate, R: Wait>(
    rt: &R,
    alloc: Global,
    store: &Store<D, B, G>,
    first: &mut Caller<B>,
    shard: u8,
) -> Result<(), Fault>
    requires there { shard < B.shards }
    requires found { B.rests → HasFound B.first B.low first.old.pass }
    ensures found { B.rests → HasFound B.first B.low first.new.pass }
{
    let end = store.care(rt, alloc, first, &mut Told::new(), Care::Learn(shard));
    match refused_in(end) {
        Some(refusal) => {
            let trouble = Trouble::of_node(refusal, NodeName::Shard(shard));
            Err(Fault::Refused(trouble))
        }
        None => Ok(()),
    }
}

/// Each shard learns what the coordinator keeps. One that can't, for example since its file was lost, keeps the server from starting.
pub(crate) fn learn_all<D: Device, B: Room, G: Gate, R: Wait>(
    rt: &R,
    alloc: Global,
    store: &Store<D, B, G>,
    first: &mut Caller<B>,
) -> Result<(), Fault>
    requires found { B.rests → HasFound B.first B.low first.old.pass }
    ensures found { B.rests → HasFound B.first B.low first.new.pass }
{
    for shard in 0..store.shards().count() {
        learn(rt, alloc, store, first, shard)?;
    }
    Ok(())
}

// Whether this is what the shard refuses a call with that changes nothing of it.
fn is_refused<D: Device, B: Room, G: Gate, R: Wait>(
    rt: &R,
    alloc: Global,
    store: &Store<D, B, G>,
    first: &mut Caller<B>,
    shard: u8,
    refusal: Refusal,
) -> bool
    requires there { shard < B.shards }
    requires found { B.rests → HasFound B.first B.low first.old.pass }
    ensures found { B.rests → HasFound B.first B.low first.new.pass }
{
    let flush = Care::Flush(NodeName::Shard(shard));
    let end = store.care(rt, alloc, first, &mut Told::new(), flush);
    refused_in(end) == Some(refusal)
}

/// Why a look over the store ended with this refusal: a shard was not opened, and the first of these is the one that was met.
pub(crate) fn blamed<D: Device, B: Room, G: Gate, R: Wait>(
    rt: &R,
    alloc: Global,
    store: &Store<D, B, G>,
    first: &mut Caller<B>,
    refusal: Refusal,
) -> Fault
    requires found { B.rests → HasFound B.first B.low first.old.pass }
    ensures found { B.rests → HasFound B.first B.low first.new.pass }
{
    for shard in 0..store.shards().count() {
        if is_refused(rt, alloc, store, first, shard, refusal) {
            let trouble = Trouble::of_node(refusal, NodeName::Shard(shard));
            return Fault::Refused(trouble);
        }
    }
    Fault::Refused(Trouble::from(refusal))
}

/// The first shard that is not of one moment with the coordinator, if one is not.
pub(crate) fn apart(found: &LookedOver) -> Fault {
    let mut shard = 0u8;
    for place in &found.learned {
        if *place < found.horizon || found.latest < *place {
            break;
        }
        shard = shard.saturating_add(1);
    }
    Fault::Refused(Trouble {
        refusal: Refusal::Damaged,
        about: Some(About::Apart(shard)),
    })
}
