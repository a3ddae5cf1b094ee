// A store that was just opened is looked over before anybody is served.
ghost use Rattle.std.specs.Prelude.{◌≡◌, ◌⊎◌, ◌≤◌, ◌<◌, ◌+◌, ◌↔◌, IfErr, IfOk, IsTrue, OnOk, length, vec_len};
ghost use Rattle.refusal.specs.declared.refusal.Refusal.{Refusal as AnyRefusal};
ghost use Rattle.calls.specs.Refusing.{HasTold};
ghost use Rattle.locked.specs.Looking.{AreOfOneStore};
ghost use Rattle.sides.specs.Sides.{IsLater};

use crate::{Caller, Gate, Store};
use calls::{NodeCall, Reply, ShardCall, ShardReply, Told};
use device::Device;
use sides::Room;
use std::alloc::Global;
use std::sync::Wait;
use tuples::Refusal;

/// How far the nodes of a store were that was looked over.
#[derive(Drop)]
pub struct LookedOver {
    /// No place below it can be read.
    pub horizon: u64,
    /// The latest place that is kept.
    pub latest: u64,
    /// The place up to which each shard has learned, by rising number.
    pub learned: Vec<u64>,
}

impl LookedOver {
    /// Whether no shard has learned less than the horizon, or more than is kept. Else what the nodes were opened over was not left there by one store at one
    /// moment, and places that were told would be given out again, or tuples be missing.
    pub fn is_of_one_store(&self) -> bool
        ensures { IsTrue result ↔ AreOfOneStore self.now.horizon self.now.latest self.now.learned.items }
    {
        self.learned
            .iter()
            .all(|place| self.horizon <= *place && *place <= self.latest)
    }
}

impl<D: Device, B: Room, G: Gate> Store<D, B, G> {
    // How far the shard of this number has learned; if its opening was refused, that refusal.
    fn learned<R: Wait>(
        &self,
        rt: &R,
        caller: &mut Caller<B>,
        told: &mut Told,
        shard: u8,
    ) -> Result<u64, Refusal>
        requires there { shard < B.shards }
        ensures caller { IsLater caller.old.pass caller.new.pass }
        ensures refused { IfErr result (λ e. HasTold told.new e) }
    {
        let call = NodeCall::Shard(shard, ShardCall::Learned);
        match self.make(rt, caller, told, call) {
            Reply::Shard(ShardReply::Learned(answer)) => answer,
            _ => unreachable!(),
        }
    }

    // How far each shard has learned, after what stands there.
    fn learned_by_all<R: Wait>(
        &self,
        rt: &R,
        caller: &mut Caller<B>,
        told: &mut Told,
        places: &mut Vec<u64>,
    ) -> Result<(), Refusal>
        ensures caller { IsLater caller.old.pass caller.new.pass }
        ensures all { OnOk result (vec_len places.new ≡ vec_len places.old + B.shards) }
        ensures refused { IfErr result (λ e. HasTold told.new e ⊎ (e ≡ AnyRefusal.NoMemory)) }
    {
        for shard in 0..self.count.count() {
            let place = self.learned(rt, caller, told, shard)?;
            places.reserve(1)?;
            places.push_reserved(place);
        }
        Ok(())
    }

    /// How far each node is, of a store that nobody asks yet: no less than its caller knows. The refusal of the first shard whose opening was refused.
    pub fn look_over<R: Wait>(
        &self,
        rt: &R,
        alloc: Global,
        caller: &mut Caller<B>,
        told: &mut Told,
    ) -> Result<LookedOver, Refusal>
        ensures caller { IsLater caller.old.pass caller.new.pass }
        ensures all { IfOk result (λ found. vec_len found.learned ≡ B.shards) }
        ensures known { IfOk result (λ found. (found.horizon ≤ found.latest) × (found.latest ≤ length caller.new.pass.seen)) }
        ensures rises { IfOk result (λ found. (caller.old.pass.horizon ≤ found.horizon) × (length caller.old.pass.seen ≤ found.latest)) }
        ensures refused { IfErr result (λ e. HasTold told.new e ⊎ (e ≡ AnyRefusal.NoMemory)) }
    {
        let horizon = self.horizon(caller);
        let latest = self.latest(caller);
        let mut learned = Vec::new(alloc);
        match self.learned_by_all(rt, caller, told, &mut learned) {
            Ok(()) => Ok(LookedOver {
                horizon,
                latest,
                learned,
            }),
            Err(refusal) => Err(refusal),
        }
    }
}
