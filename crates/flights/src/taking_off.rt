// A flight gets its number, as the devices of a node leave.
ghost use Rattle.std.specs.Prelude.{◌≡◌, ◌<◌, ◌+◌, ◌^◌, Some, length, slice_get};
ghost use Rattle.flights.specs.Flights.{IsReady, launch_of};

use crate::launch::tell_of;
use crate::{Flight, LaunchLog};
use calls::Flying;
use device::Device;
use journal::Journal;
use sides::{Lists, Room};
use std::marker::PhantomData;

/// The flight of a journal that leaves now, as the next of all flights. Its pass knows of it.
pub(crate) fn take_off<D: Device, B: Room>(
    lists: &Lists<B>,
    log: &mut LaunchLog<B>,
    journal: Journal<D>,
    flying: Flying,
    number: u64,
) -> Flight<D, B>
    requires number { (number ≡ length log.old.seen) × (number + 1 < 2 ^ 64) }
    requires ready { IsReady D.state D.honest journal flying }
    ensures known { slice_get log.new.seen number ≡ Some (launch_of journal flying) }
    ensures flight { result ≡ record { journal = journal; flying = flying; launch = number } }
{
    tell_of(lists, log, &journal, flying, number + 1);
    Flight {
        journal,
        flying,
        pass: log.session(lists),
        launch: number,
        room: PhantomData,
    }
}
