// What lies under the lock of the coordinator.
ghost use Rattle.std.specs.Prelude.{◌≡◌, ◌↔◌, ◌++◌, IsTrue, false};
ghost use Rattle.calls.specs.Asking.{MayAskCoordinator};
ghost use Rattle.calls.specs.Belonging.{IsReplyTo};
ghost use Rattle.calls.specs.Refusing.{Notes};
ghost use Rattle.calls.specs.declared.call.NodeCall.TheVariants.{Coordinator as of_coordinator};
ghost use Rattle.flights.specs.LogPlaces.{HasCount, LogPlaceAnswers, tried_at};
ghost use Rattle.flights.specs.Places.{here};
ghost use Rattle.flights.specs.Serving.{KnowsMore};
ghost use Rattle.sides.specs.CoordinatorSides.{TellsOf, is_log_flush, tried_by, write_of};
ghost use Rattle.sides.specs.Sides.{IsLater};

use crate::berth::Berth;
use crate::waiting::Lands;
use away::Away;
use calls::{CoordinatorCall, Reply, Told};
use device::Device;
use journal::BatchRoom;
use published::SessionPass;
use sides::{Caller, CoordinatorSide, Launch, Lists, Room, Tried};
use std::marker::Model;

/// The coordinator, whose devices are here or on a flight.
#[derive(Drop)]
pub struct CoordinatorPlace<D: Device, B: Room> {
    // moved only within a call
    pub(crate) berth: Option<Berth<CoordinatorSide<D, B>, CoordinatorSide<Away<D>, B>>>,
    pub(crate) pass: SessionPass<Launch>,
    // how many of its flights have left
    pub(crate) flights: u64,
}

impl<D: Device, B: Room> Model for CoordinatorPlace<D, B> {
    ghost use Rattle.std.specs.Prelude.{◌≡◌};
    ghost use Rattle.flights.specs.LogPlaces.{IsLogBerthed, LogPlaceView};
    ghost use Rattle.flights.specs.Places.{place_of};

    ghost Value = { LogPlaceView D };

    ghost view = { λ p. place_of p.berth };

    ghost invariant = { λ p. (p.pass.table ≡ B.launches) × IsLogBerthed p.pass.seen p.berth };
}

// Whether the call is one that stages something, so that its caller may have to wait for a flight.
fn is_staging(call: &CoordinatorCall) -> bool {
    match call {
        CoordinatorCall::Decide(_, _) | CoordinatorCall::Raise(_, _) => true,
        _ => false,
    }
}

impl<D: Device, B: Room> CoordinatorPlace<D, B> {
    /// The coordinator with its devices, and the room for one flight. The pass of launches is of the words that name the store's flights.
    pub fn new(
        side: CoordinatorSide<D, B>,
        room: BatchRoom,
        launches: SessionPass<Launch>,
    ) -> CoordinatorPlace<D, B>
        requires own { launches.table ≡ B.launches }
        ensures here { result ≡ here side }
    {
        CoordinatorPlace {
            berth: Some(Berth::Here(side, room)),
            pass: launches,
            flights: 0,
        }
    }

    /// A new caller, which knows all that there is, and for which nothing was staged yet.
    pub fn session(&mut self, lists: &Lists<B>) -> Caller<B>
        ensures same { self.new ≡ self.old }
        ensures all { result.tried.seen ≡ tried_at self.old }
    {
        match &mut self.berth {
            Some(Berth::Here(side, _)) => side.session(lists),
            Some(Berth::Out(side, _)) => side.session(lists),
            None => unreachable!(),
        }
    }

    /// Whether a decision more can be counted among all that were ever staged.
    pub fn may_decide(&mut self, lists: &Lists<B>) -> bool
        ensures same { self.new ≡ self.old }
        ensures room { IsTrue result ↔ HasCount (tried_at self.old) }
    {
        match &mut self.berth {
            Some(Berth::Here(side, _)) => side.may_decide(lists),
            Some(Berth::Out(side, _)) => side.may_decide(lists),
            None => unreachable!(),
        }
    }

    /// Makes a call that is no flush, wherever its devices are. What it tells is of the list, and of the decisions, that the caller then knows. It has to be
    /// asked first whether one decision more can be counted.
    pub fn ask(
        &mut self,
        lists: &Lists<B>,
        caller: &mut Caller<B>,
        told: &mut Told,
        call: CoordinatorCall,
    ) -> Reply
        requires owed { MayAskCoordinator B.shards call }
        requires counted { HasCount (tried_at self.old) }
        requires no_flush { is_log_flush call ≡ false }
        ensures answers { LogPlaceAnswers D.state D.honest D.moment D.left_since self.old call result self.new }
        ensures belongs { IsReplyTo (of_coordinator call) result }
        ensures caller { IsLater caller.old.pass caller.new.pass }
        ensures tried { KnowsMore caller.old.tried caller.new.tried }
        ensures known { caller.new.tried.seen ≡ tried_at self.old ++ tried_by (write_of call) result }
        ensures tells { B.rests → TellsOf caller.new.pass.seen caller.new.pass.horizon caller.new.tried.seen call result }
        ensures told { Notes told.old result told.new }
    {
        self.note_staging(&mut caller.tried, &call);
        match &mut self.berth {
            Some(Berth::Here(side, _)) => side.ask(lists, caller, told, call),
            Some(Berth::Out(side, _)) => side.ask(lists, caller, told, call),
            None => unreachable!(),
        }
    }

    // Notes by which flight goes what the call stages, if it stages anything.
    fn note_staging(&self, tried: &mut Tried<B>, call: &CoordinatorCall)
        ensures { tried.new ≡ tried.old }
    {
        if is_staging(call) {
            tried.board(self.ticket());
        }
    }
}

impl<D: Device, B: Room> Lands for CoordinatorPlace<D, B> {
    fn ticket(&self) -> u64 {
        self.flights.saturating_add(1)
    }

    fn has_landed(&self, ticket: u64) -> bool {
        match &self.berth {
            Some(Berth::Out(_, _)) => ticket < self.flights,
            _ => ticket <= self.flights,
        }
    }

    fn is_out(&self) -> bool {
        match &self.berth {
            Some(Berth::Out(_, _)) => true,
            _ => false,
        }
    }
}
