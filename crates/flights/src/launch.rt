// Of which flights a store knows.
ghost use Rattle.std.specs.Prelude.{◌≡◌, ◌+◌, ◌++◌, ◌∷◌, [], length};
ghost use Rattle.flights.specs.Flights.{launch_of};

use calls::Flying;
use device::Device;
use journal::Journal;
use published::{Adds, LogPass, Published, SessionPass};
use sides::{Launch, Lists, Room};
use std::alloc::{AllocError, Global};
use std::marker::{Brand, Model, PhantomData};

/// The pass that alone numbers the flights of a store.
#[derive(Drop)]
pub struct LaunchLog<B: Room> {
    pub(crate) log: LogPass<Launch>,
    room: PhantomData<B>,
}

impl<B: Room> Model for LaunchLog<B> {
    ghost use Rattle.std.specs.Prelude.{◌≡◌};
    ghost use Rattle.published.specs.Known.{Known};
    ghost use Rattle.sides.specs.declared.launch.Launch.{Launch as AnyLaunch};

    ghost Value = { Known AnyLaunch };

    ghost view = { λ l. l.log };

    ghost invariant = { λ l. l.log.table ≡ B.launches };
}

/// The words that name a store's flights, until the store is opened.
#[derive(Drop)]
pub struct Launches {
    words: Published<Launch>,
    log: LogPass<Launch>,
}

impl Model for Launches {
    ghost use Rattle.std.specs.Prelude.{◌≡◌};
    ghost use Rattle.atomic_table.specs.Seated.{TableId};

    ghost Value = { TableId };

    ghost view = { λ l. l.words };

    ghost invariant = { λ l. l.log.table ≡ l.words };
}

impl Launches {
    /// There was no flight yet.
    pub fn new(alloc: Global) -> Result<Launches, AllocError> {
        let (words, log) = Published::new(alloc)?;
        Ok(Launches { words, log })
    }

    /// The words, and the pass that numbers the flights.
    pub fn into_parts<B: Room>(self) -> (Published<Launch>, LaunchLog<B>)
        requires { self ≡ B.launches }
        ensures { result.0 ≡ B.launches }
    {
        let Launches { words, log } = self;
        let log = LaunchLog {
            log,
            room: PhantomData,
        };
        (words, log)
    }
}

impl<B: Room> LaunchLog<B> {
    /// A new pass of the store's flights, for a node.
    pub fn session(&mut self, lists: &Lists<B>) -> SessionPass<Launch>
        ensures same { self.new ≡ self.old }
        ensures pass { result ≡ self.old }
        ensures own { result.table ≡ B.launches }
    {
        lists.launches.session(&mut self.log)
    }
}

// One flight more.
fn announce<D: Device, B: Room, A: Adds<Launch>>(
    lists: &Lists<B>,
    log: &mut LaunchLog<B>,
    flight: &Journal<D>,
    flying: Flying,
    count: u64,
)
    requires count { count ≡ length log.old.seen + 1 }
    requires added { A.added ≡ launch_of flight.now flying ∷ [] }
    ensures added { log.new.seen ≡ log.old.seen ++ launch_of flight.now flying ∷ [] }
{
    lists.launches.advance::<A>(&mut log.log, count);
}

/// Numbers a flight: so many there are then.
pub(crate) fn tell_of<D: Device, B: Room>(
    lists: &Lists<B>,
    log: &mut LaunchLog<B>,
    flight: &Journal<D>,
    flying: Flying,
    count: u64,
)
    requires count { count ≡ length log.old.seen + 1 }
    ensures added { log.new.seen ≡ log.old.seen ++ launch_of flight.now flying ∷ [] }
{
    announce::<D, B, Brand>(lists, log, flight, flying, count);
}
