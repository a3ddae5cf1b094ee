// A shard's devices leave.
ghost use Rattle.std.specs.Prelude.{◌≡◌, ◌↔◌, ◌<◌, ◌+◌, ◌^◌, IfNone, IfSome, IsSome, Some, length};
ghost use Rattle.sides.specs.Lending.{IsSoundIn, IsUpIn};
ghost use Rattle.flights.specs.Flights.{HasNumber, IsOut, IsReady, launch_of};
ghost use Rattle.flights.specs.Places.{HasLaunched, IsBerthed, IsUpHere, here, out as out_on, place_of};
ghost use Rattle.flights.specs.declared.berth.Berth.TheVariants.{Here};

use crate::berth::Berth;
use crate::taking_off::take_off;
use crate::waiting::Lands;
use crate::{Flight, LaunchLog, ShardPlace};
use away::Away;
use calls::Flying;
use device::Device;
use journal::{BatchRoom, Journal};
use published::RestingPass;
use sides::{LentShard, Lists, Room, ShardSide};

// The flight that leaves now gets its number.
fn leave<D: Device, B: Room>(
    lists: &Lists<B>,
    log: &mut LaunchLog<B>,
    side: ShardSide<Away<D>, B>,
    journal: Journal<D>,
    flying: Flying,
    number: u64,
) -> (Berth<ShardSide<D, B>, ShardSide<Away<D>, B>>, Flight<D, B>)
    requires number { (number ≡ length log.old.seen) × (number + 1 < 2 ^ 64) }
    requires ready { IsReady D.state D.honest journal flying }
    requires out { IsOut D.state D.honest B.rests B.shards side (launch_of journal flying) }
    ensures berth { IsBerthed D.state D.honest B.rests B.shards log.new.seen (Some result.0) }
    ensures flight { result.1 ≡ record { journal = journal; flying = flying; launch = number } }
    ensures place { place_of (Some result.0) ≡ out_on side number }
{
    let flight = take_off(lists, log, journal, flying, number);
    (Berth::Out(side, number), flight)
}

// Lends the devices of a shard that is up.
#[tactic(auto, using(crate::proofs::Launched::up_is_opened))]
fn send<D: Device, B: Room>(
    lists: &Lists<B>,
    log: &mut LaunchLog<B>,
    side: ShardSide<D, B>,
    room: BatchRoom,
    number: u64,
) -> (Berth<ShardSide<D, B>, ShardSide<Away<D>, B>>, Flight<D, B>)
    requires number { (number ≡ length log.old.seen) × (number + 1 < 2 ^ 64) }
    requires sound { IsSoundIn D.state D.honest side.node }
    requires up { IsUpIn side.node }
    ensures berth { IsBerthed D.state D.honest B.rests B.shards log.new.seen (Some result.0) }
    ensures launched { HasLaunched D.state D.honest (here side) result.1 (place_of (Some result.0)) }
{
    side.keeps();
    match side.lend(room) {
        Ok(
            LentShard {
                side,
                flight,
                flying,
            },
        ) => leave(lists, log, side, flight, flying, number),
        // Only one whose opening was refused stays, and that is not up.
        Err(_) => unreachable!(),
    }
}

// Lends a shard's devices, if it is up.
fn send_if_up<D: Device, B: Room>(
    lists: &Lists<B>,
    log: &mut LaunchLog<B>,
    mut side: ShardSide<D, B>,
    room: BatchRoom,
) -> (
    Berth<ShardSide<D, B>, ShardSide<Away<D>, B>>,
    Option<Flight<D, B>>,
)
    requires sound { IsSoundIn D.state D.honest side.node }
    ensures berth { IfSome result.1 (λ f. IsBerthed D.state D.honest B.rests B.shards log.new.seen (Some result.0)) }
    ensures launched { IfSome result.1 (λ f. HasLaunched D.state D.honest (here side) f (place_of (Some result.0))) }
    ensures leaves { IsSome result.1 ↔ (IsUpIn side.node × HasNumber log.old.seen) }
    ensures stays { IfNone result.1 (result.0 ≡ Here side room) }
{
    let number = lists.launches.length(&mut log.log);
    if number == u64::MAX || !side.is_up() {
        return (Berth::Here(side, room), None);
    }
    let (berth, flight) = send(lists, log, side, room, number);
    (berth, Some(flight))
}

impl<D: Device, B: Room> ShardPlace<D, B> {
    /// Its devices leave on a flight, with all that is staged, if they are here, it is up, and one flight more can be numbered. Else all stays as it is.
    pub fn launch(&mut self, lists: &Lists<B>, log: &mut LaunchLog<B>) -> Option<Flight<D, B>>
        ensures launched { IfSome result (λ f. HasLaunched D.state D.honest self.old f self.new) }
        ensures leaves { IsSome result ↔ (IsUpHere self.old × HasNumber log.old.seen) }
        ensures stays { IfNone result (self.new ≡ self.old) }
    {
        let (side, room) = match self.berth.take() {
            Some(Berth::Here(side, room)) => (side, room),
            Some(Berth::Out(side, number)) => {
                drop(self.berth.replace(Berth::Out(side, number)));
                return None;
            }
            None => unreachable!(),
        };
        let (berth, flight) = send_if_up(lists, log, side, room);
        drop(self.berth.replace(berth));
        let Some(flight) = flight else {
            return None;
        };
        // From here on the node knows of the flight.
        self.pass = RestingPass::new(log.session(lists));
        self.flights = self.flights.saturating_add(1);
        Some(flight)
    }
}

impl<D: Device, B: Room> Lands for ShardPlace<D, B> {
    fn ticket(&self) -> u64 {
        self.flights.saturating_add(1)
    }

    fn has_landed(&self, ticket: u64) -> bool {
        match &self.berth {
            Some(Berth::Out(_, _)) => ticket < self.flights,
            _ => ticket <= self.flights,
        }
    }

    fn is_out(&self) -> bool {
        match &self.berth {
            Some(Berth::Out(_, _)) => true,
            _ => false,
        }
    }
}
