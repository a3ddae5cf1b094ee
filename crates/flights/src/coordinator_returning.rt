// The coordinator's devices come back, and it is opened again.
ghost use Rattle.std.specs.Prelude.{◌≡◌, ◌↔◌, IfErr, IsOk, IsTrue, OnOk};
ghost use Rattle.calls.specs.Belonging.{IsReplyTo};
ghost use Rattle.calls.specs.Refusing.{Notes};
ghost use Rattle.calls.specs.declared.call.NodeCall.TheVariants.{Coordinator as of_coordinator};
ghost use Rattle.calls.specs.declared.call.CoordinatorCall.TheVariants.{Flush as flush_call};
ghost use Rattle.sides.specs.CoordinatorSides.{HasLaterList};
ghost use Rattle.sides.specs.Lending.{LandsIn};
ghost use Rattle.sides.specs.Sides.{IsLater};
ghost use Rattle.flights.specs.Flights.{IsLogOutOn};
ghost use Rattle.flights.specs.LogPlaces.{HasLogLanded, HasLogRestarted, LogTellsUp};
ghost use Rattle.flights.specs.Places.{IsOutFor};

use crate::berth::Berth;
use crate::{CoordinatorPlace, Flown, Restart};
use away::Away;
use calls::{CoordinatorReply, Reply, Told};
use device::Device;
use journal::BatchRoom;
use published::SessionPass;
use sides::{CoordinatorSide, Launch, Lists, Pass, Room};
use std::alloc::Global;

// The flight that has its devices brings them back.
fn arrive<D: Device, B: Room>(
    lists: &Lists<B>,
    pass: &mut SessionPass<Launch>,
    side: CoordinatorSide<Away<D>, B>,
    flown: Flown<D, B>,
) -> (CoordinatorSide<D, B>, BatchRoom)
    requires own { pass.old.table ≡ B.launches }
    requires out { IsLogOutOn pass.old.seen side flown.launch }
    ensures own { pass.new.table ≡ B.launches }
    ensures lands { LandsIn D.state D.honest side.node flown.journal flown.flying result.0.node }
    ensures list { HasLaterList side result.0 }
{
    let Flown {
        journal,
        flying,
        pass: mut known,
        launch: _,
        room: _,
    } = flown;
    lists.launches.share(pass, &mut known);
    side.keeps();
    side.land(lists, journal, flying)
}

impl<D: Device, B: Room> CoordinatorPlace<D, B> {
    // Whether this flight has its devices.
    fn awaits(&self, launch: u64) -> bool
        ensures { IsTrue result ↔ IsOutFor launch self.now }
    {
        match &self.berth {
            Some(Berth::Out(_, number)) => *number == launch,
            _ => false,
        }
    }

    /// Its devices come back from their flight. If that went well, what flew is durable, and joins the list; else the coordinator is down. What was staged
    /// since is staged still. Only another flight does not land: it comes back as it was, and nothing is changed.
    pub fn land(&mut self, lists: &Lists<B>, flown: Flown<D, B>) -> Result<(), Flown<D, B>>
        ensures landed { OnOk result (HasLogLanded D.state D.honest self.old flown self.new) }
        ensures lands { IsOk result ↔ IsOutFor flown.launch self.old }
        ensures stays { IfErr result (λ back. (back ≡ flown) × (self.new ≡ self.old)) }
    {
        if !self.awaits(flown.launch) {
            return Err(flown);
        }
        let side = match self.berth.take() {
            Some(Berth::Out(side, _)) => side,
            other => {
                drop(other);
                unreachable!();
            }
        };
        let (side, room) = arrive(lists, &mut self.pass, side, flown);
        drop(self.berth.replace(Berth::Here(side, room)));
        Ok(())
    }

    /// What is answered to a flush whose flight has landed. It makes no call of a device. The caller knows what is kept then.
    pub fn tell_flushed(&mut self, lists: &Lists<B>, pass: &mut Pass<B>, told: &mut Told) -> Reply
        ensures same { self.new ≡ self.old }
        ensures caller { IsLater pass.old pass.new }
        ensures up { LogTellsUp self.old result }
        ensures belongs { IsReplyTo (of_coordinator flush_call) result }
        ensures told { Notes told.old result told.new }
    {
        match &mut self.berth {
            Some(Berth::Here(side, _)) => side.tell_flushed(lists, pass, told),
            Some(Berth::Out(side, _)) => {
                side.tell(lists, pass);
                Reply::Coordinator(CoordinatorReply::Flush(Ok(())))
            }
            None => unreachable!(),
        }
    }

    /// The node's memory is thrown away, its devices are revived, and it is opened again, and what it found joins the list, if they are here.
    pub fn restart(&mut self, lists: &Lists<B>, alloc: Global) -> Restart
        ensures { HasLogRestarted D.state D.honest D.moment D.left_since B.store B.shards self.old result self.new }
    {
        match &mut self.berth {
            Some(Berth::Here(side, _)) => match side.restart(lists, alloc) {
                None => Restart::IsUp,
                Some(refusal) => Restart::IsRefused(refusal),
            },
            Some(Berth::Out(_, _)) => Restart::HasToWait,
            None => unreachable!(),
        }
    }
}
