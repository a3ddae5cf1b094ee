// The coordinator's devices leave.
ghost use Rattle.std.specs.Prelude.{◌≡◌, ◌↔◌, ◌<◌, ◌+◌, ◌^◌, IfNone, IfSome, IsSome, Some, length};
ghost use Rattle.sides.specs.Lending.{IsUpThere};
ghost use Rattle.flights.specs.Flights.{HasNumber, IsReady, LogStaysIn, launch_of};
ghost use Rattle.flights.specs.LogPlaces.{HasLogLaunched, IsLogBerthed, IsLogUpHere};
ghost use Rattle.flights.specs.Places.{here, out as out_on, place_of};
ghost use Rattle.flights.specs.declared.berth.Berth.TheVariants.{Here};

use crate::berth::Berth;
use crate::taking_off::take_off;
use crate::{CoordinatorPlace, Flight, LaunchLog};
use away::Away;
use calls::Flying;
use device::Device;
use journal::{BatchRoom, Journal};
use sides::{CoordinatorSide, LentCoordinator, Lists, Room};

// The flight that leaves now gets its number.
fn leave<D: Device, B: Room>(
    lists: &Lists<B>,
    log: &mut LaunchLog<B>,
    side: CoordinatorSide<Away<D>, B>,
    journal: Journal<D>,
    flying: Flying,
    number: u64,
) -> (
    Berth<CoordinatorSide<D, B>, CoordinatorSide<Away<D>, B>>,
    Flight<D, B>,
)
    requires number { (number ≡ length log.old.seen) × (number + 1 < 2 ^ 64) }
    requires ready { IsReady D.state D.honest journal flying }
    requires out { LogStaysIn (launch_of journal flying) side.node }
    ensures berth { IsLogBerthed log.new.seen (Some result.0) }
    ensures flight { result.1 ≡ record { journal = journal; flying = flying; launch = number } }
    ensures place { place_of (Some result.0) ≡ out_on side number }
{
    let flight = take_off(lists, log, journal, flying, number);
    (Berth::Out(side, number), flight)
}

// Lends the devices of a coordinator that is up.
#[tactic(auto, using(crate::proofs::LogLaunched::log_up_is_opened))]
fn send<D: Device, B: Room>(
    lists: &Lists<B>,
    log: &mut LaunchLog<B>,
    side: CoordinatorSide<D, B>,
    room: BatchRoom,
    number: u64,
) -> (
    Berth<CoordinatorSide<D, B>, CoordinatorSide<Away<D>, B>>,
    Flight<D, B>,
)
    requires number { (number ≡ length log.old.seen) × (number + 1 < 2 ^ 64) }
    requires up { IsUpThere side.node }
    ensures berth { IsLogBerthed log.new.seen (Some result.0) }
    ensures launched { HasLogLaunched D.state D.honest (here side) result.1 (place_of (Some result.0)) }
{
    side.keeps();
    match side.lend(room) {
        Ok(
            LentCoordinator {
                side,
                flight,
                flying,
            },
        ) => leave(lists, log, side, flight, flying, number),
        // Only one whose opening was refused stays, and that is not up.
        Err(_) => unreachable!(),
    }
}

// Lends the coordinator's devices, if it is up.
fn send_if_up<D: Device, B: Room>(
    lists: &Lists<B>,
    log: &mut LaunchLog<B>,
    mut side: CoordinatorSide<D, B>,
    room: BatchRoom,
) -> (
    Berth<CoordinatorSide<D, B>, CoordinatorSide<Away<D>, B>>,
    Option<Flight<D, B>>,
)
    ensures berth { IfSome result.1 (λ f. IsLogBerthed log.new.seen (Some result.0)) }
    ensures launched { IfSome result.1 (λ f. HasLogLaunched D.state D.honest (here side) f (place_of (Some result.0))) }
    ensures leaves { IsSome result.1 ↔ (IsUpThere side.node × HasNumber log.old.seen) }
    ensures stays { IfNone result.1 (result.0 ≡ Here side room) }
{
    let number = lists.launches.length(&mut log.log);
    if number == u64::MAX || !side.is_up() {
        return (Berth::Here(side, room), None);
    }
    let (berth, flight) = send(lists, log, side, room, number);
    (berth, Some(flight))
}

impl<D: Device, B: Room> CoordinatorPlace<D, B> {
    /// Its devices leave on a flight, with all that is staged, if they are here, it is up, and one flight more can be numbered. Else all stays as it is.
    pub fn launch(&mut self, lists: &Lists<B>, log: &mut LaunchLog<B>) -> Option<Flight<D, B>>
        ensures launched { IfSome result (λ f. HasLogLaunched D.state D.honest self.old f self.new) }
        ensures leaves { IsSome result ↔ (IsLogUpHere self.old × HasNumber log.old.seen) }
        ensures stays { IfNone result (self.new ≡ self.old) }
    {
        let (side, room) = match self.berth.take() {
            Some(Berth::Here(side, room)) => (side, room),
            Some(Berth::Out(side, number)) => {
                drop(self.berth.replace(Berth::Out(side, number)));
                return None;
            }
            None => unreachable!(),
        };
        let (berth, flight) = send_if_up(lists, log, side, room);
        drop(self.berth.replace(berth));
        let Some(flight) = flight else {
            return None;
        };
        // From here on the node knows of the flight.
        self.pass = log.session(lists);
        self.flights = self.flights.saturating_add(1);
        Some(flight)
    }
}
