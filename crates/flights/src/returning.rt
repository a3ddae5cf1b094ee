// A shard's devices come back, and it is opened again.
ghost use Rattle.std.specs.Prelude.{◌≡◌, ◌↔◌, IfErr, IsOk, IsTrue, OnOk};
ghost use Rattle.calls.specs.Refusing.{Notes};
ghost use Rattle.calls.specs.Belonging.{IsReplyTo};
ghost use Rattle.calls.specs.declared.call.NodeCall.TheVariants.{Shard as of_shard};
ghost use Rattle.calls.specs.declared.call.ShardCall.TheVariants.{Flush as flush_call};
ghost use Rattle.sides.specs.Lending.{IsSoundIn, LandsIn};
ghost use Rattle.flights.specs.Flights.{IsOutOn};
ghost use Rattle.flights.specs.Places.{HasLanded, HasRestarted, IsOutFor, TellsUp, number_at};

use crate::berth::Berth;
use crate::{Flown, ShardPlace};
use away::Away;
use calls::{Reply, ShardCall, ShardReply, Told};
use device::Device;
use journal::BatchRoom;
use published::{RestingPass, SessionPass};
use sides::{Launch, Lists, Room, ShardSide};
use std::alloc::Global;
use std::sync::Wait;
use tuples::Refusal;

/// How a node that was to be opened again fared.
#[derive(Clone, Copy, Debug, PartialEq, Eq)]
pub enum Restart {
    /// Its devices are out, and have to land first.
    HasToWait,
    /// It is up.
    IsUp,
    /// Its opening was refused.
    IsRefused(Refusal),
}

// The flight that has its devices brings them back.
fn arrive<D: Device, B: Room>(
    lists: &Lists<B>,
    pass: &mut SessionPass<Launch>,
    side: ShardSide<Away<D>, B>,
    flown: Flown<D, B>,
) -> (ShardSide<D, B>, BatchRoom)
    requires own { pass.old.table ≡ B.launches }
    requires out { IsOutOn D.state D.honest B.rests B.shards pass.old.seen side flown.launch }
    ensures own { pass.new.table ≡ B.launches }
    ensures lands { LandsIn D.state D.honest side.node flown.journal flown.flying result.0.node }
    ensures same { (result.0.number ≡ side.number) × (result.0.pass ≡ side.pass) }
    ensures sound { IsSoundIn D.state D.honest result.0.node }
{
    let Flown {
        journal,
        flying,
        pass: mut known,
        launch: _,
        room: _,
    } = flown;
    lists.launches.share(pass, &mut known);
    side.land(journal, flying)
}

impl<D: Device, B: Room> ShardPlace<D, B> {
    // Whether this flight has its devices.
    fn awaits(&self, launch: u64) -> bool
        ensures { IsTrue result ↔ IsOutFor launch self.now }
    {
        match &self.berth {
            Some(Berth::Out(_, number)) => *number == launch,
            _ => false,
        }
    }

    /// Its devices come back from their flight. If that went well, what flew is durable; else the shard is down. What was staged since is staged still.
    /// Only another flight does not land: it comes back as it was, and nothing is changed.
    pub fn land<R: Wait>(
        &mut self,
        rt: &R,
        lists: &Lists<B>,
        flown: Flown<D, B>,
    ) -> Result<(), Flown<D, B>>
        ensures landed { OnOk result (HasLanded D.state D.honest self.old flown self.new) }
        ensures lands { IsOk result ↔ IsOutFor flown.launch self.old }
        ensures stays { IfErr result (λ back. (back ≡ flown) × (self.new ≡ self.old)) }
    {
        if !self.awaits(flown.launch) {
            return Err(flown);
        }
        let side = match self.berth.take() {
            Some(Berth::Out(side, _)) => side,
            other => {
                drop(other);
                unreachable!();
            }
        };
        let mut pass = self.pass.take(rt);
        let (side, room) = arrive(lists, &mut pass, side, flown);
        self.pass = RestingPass::new(pass);
        drop(self.berth.replace(Berth::Here(side, room)));
        Ok(())
    }

    /// What is answered to a flush whose flight has landed. It makes no call of a device.
    pub fn tell_flushed(&mut self, told: &mut Told) -> Reply
        ensures same { self.new ≡ self.old }
        ensures up { TellsUp self.old result }
        ensures belongs { IsReplyTo (of_shard (number_at self.old) flush_call) result }
        ensures told { Notes told.old result told.new }
    {
        match &mut self.berth {
            Some(Berth::Here(side, _)) => {
                if side.is_up() {
                    return Reply::Shard(ShardReply::Flush(Ok(())));
                }
                side.make(told, ShardCall::Flush)
            }
            Some(Berth::Out(_, _)) => Reply::Shard(ShardReply::Flush(Ok(()))),
            None => unreachable!(),
        }
    }

    /// The node's memory is thrown away, its devices are revived, and it is opened again, if they are here.
    pub fn restart(&mut self, alloc: Global) -> Restart
        ensures { HasRestarted D.state D.honest D.moment D.left_since B.store B.shards self.old result self.new }
    {
        match &mut self.berth {
            Some(Berth::Here(side, _)) => match side.restart(alloc) {
                None => Restart::IsUp,
                Some(refusal) => Restart::IsRefused(refusal),
            },
            Some(Berth::Out(_, _)) => Restart::HasToWait,
            None => unreachable!(),
        }
    }
}
