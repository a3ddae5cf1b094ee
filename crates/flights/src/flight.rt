// A flight: what was staged is made durable outside of all locks.
ghost use Rattle.std.specs.Prelude.{◌≡◌};

use calls::Flying;
use device::Device;
use journal::Journal;
use published::SessionPass;
use sides::{Launch, Room};
use std::marker::{Model, PhantomData};

/// A node's journal with its devices, and all that was staged. It has to fly and then to land: the node has no devices until then.
#[must_use]
#[derive(Drop)]
pub struct Flight<D: Device, B: Room> {
    pub(crate) journal: Journal<D>,
    pub(crate) flying: Flying,
    pub(crate) pass: SessionPass<Launch>,
    pub(crate) launch: u64,
    pub(crate) room: PhantomData<B>,
}

impl<D: Device, B: Room> Model for Flight<D, B> {
    ghost use Rattle.std.specs.Prelude.{◌≡◌, Some, slice_get};
    ghost use Rattle.flights.specs.Flights.{FlightView, IsReady, launch_of};

    ghost Value = { FlightView D };

    ghost view = { λ f. record { journal = f.journal; flying = f.flying; launch = f.launch } };

    ghost invariant = { λ f. (f.pass.table ≡ B.launches) × IsReady D.state D.honest f.journal f.flying × (slice_get f.pass.seen f.launch ≡ Some (launch_of f.journal f.flying)) };
}

/// A flight that was flown: its records are durable, or a device failed.
#[must_use]
#[derive(Drop)]
pub struct Flown<D: Device, B: Room> {
    pub(crate) journal: Journal<D>,
    pub(crate) flying: Flying,
    pub(crate) pass: SessionPass<Launch>,
    pub(crate) launch: u64,
    pub(crate) room: PhantomData<B>,
}

impl<D: Device, B: Room> Model for Flown<D, B> {
    ghost use Rattle.std.specs.Prelude.{◌≡◌};
    ghost use Rattle.flights.specs.Flights.{FlightView, HasCome};

    ghost Value = { FlightView D };

    ghost view = { λ f. record { journal = f.journal; flying = f.flying; launch = f.launch } };

    ghost invariant = { λ f. (f.pass.table ≡ B.launches) × HasCome D.state D.honest f.pass.seen f.launch f.journal f.flying };
}

impl<D: Device, B: Room> Flight<D, B> {
    /// Makes durable what flies. It takes no lock, and may take as long as the devices do.
    pub fn fly(self) -> Flown<D, B>
        ensures same { (result.launch ≡ self.launch) × (result.flying ≡ self.flying) }
    {
        let Flight {
            mut journal,
            flying,
            pass,
            launch,
            room,
        } = self;
        // Whether it went well the journal says, as it lands.
        let _ = journal.flush();
        Flown {
            journal,
            flying,
            pass,
            launch,
            room,
        }
    }
}
