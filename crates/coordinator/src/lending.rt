// A coordinator whose devices are elsewhere, while what was staged is made durable there.
ghost use Rattle.std.specs.Prelude.{◌≡◌, ◌≤◌, ◌+◌, None, false, length, take};
ghost use Rattle.away.specs.Aways.{lent_honest, lent_state};
ghost use Rattle.coordinator.specs.Lending.{HasFlown, IsLentCoordinator, IsToldOf, landed_coordinator};
ghost use Rattle.decisions.specs.Coordinators.{IsRunning, coordinator_journal};
ghost use Rattle.journal.specs.Lending.{Flies};
ghost use Rattle.records.specs.Replays.{greatest_number};

use crate::Coordinator;
use crate::coordinator::rise;
use away::Away;
use device::Device;
use journal::{BatchRoom, Journal, Sent};
use ledger::Ledger;

/// What of a coordinator's staged records flies.
#[derive(Clone, Copy, Debug, PartialEq, Eq)]
pub struct Flying {
    /// How many records.
    pub sent: Sent,
    /// How many of them are decisions.
    pub decisions: u64,
    /// The last horizon among them.
    pub rising: Option<u64>,
}

// The place of the last durable decision, once so many more are durable.
fn kept_after(ledger: &Ledger, kept: u64, decisions: u64) -> u64
    requires { kept + decisions ≤ ledger.now.base + length ledger.now.log }
    ensures value { result ≡ kept + decisions }
    ensures fits { result ≤ greatest_number }
{
    let _end = ledger.end();
    kept + decisions
}

// The greatest staged horizon, once this one is durable.
fn left_rising(rising: Option<u64>, flown: Option<u64>) -> Option<u64>
    ensures none { rising ≡ flown → result ≡ None }
    ensures some { (rising ≡ flown → ⊥) → result ≡ rising }
{
    if rising == flown {
        return None;
    }
    rising
}

impl<D: Device> Coordinator<D> {
    /// The coordinator without its devices, of which all may be asked but a flush; and a flight, its journal with them, to be flushed.
    pub fn lend(self, room: BatchRoom) -> (Coordinator<Away<D>>, Journal<D>, Flying)
        ensures flight { result.1 ≡ coordinator_journal self }
        ensures stays { IsLentCoordinator D.state self result.0 }
        ensures all { result.2.sent.count ≡ length self.staged }
        ensures sent { Flies self.staged result.2.sent }
        ensures told { self.is_down ≡ false → IsToldOf self.staged result.2 }

        // It runs on without its devices.
        ensures running { IsRunning D.state D.honest self → IsRunning (lent_state D.state) (lent_honest D.honest) result.0 }
    {
        let Coordinator {
            journal,
            me,
            epoch,
            open_numbers,
            given,
            ledger,
            kept,
            horizon,
            rising,
        } = self;
        let decisions = ledger.end() - kept;
        let (without, flight, sent) = journal.lend(room);
        let lent = Coordinator {
            journal: without,
            me,
            epoch,
            open_numbers,
            given,
            ledger,
            kept,
            horizon,
            rising,
        };
        let flying = Flying {
            sent,
            decisions,
            rising,
        };
        (lent, flight, flying)
    }
}

impl<D: Device> Coordinator<Away<D>> {
    /// The devices come back, and the room for the next flight. If the flight's flush went well, what flew is durable: its decisions are
    /// kept, and its horizon counts. Else the coordinator is down, and has to be opened again.
    pub fn land(self, flown: Journal<D>, flying: Flying) -> (Coordinator<D>, BatchRoom)
        requires sent { Flies self.staged flying.sent }
        requires told { self.is_down ≡ false → flown.is_down ≡ false → IsToldOf (take flying.sent.count self.staged) flying }
        requires flown { self.is_down ≡ false → flown.is_down ≡ false → D.honest flown.a → D.honest flown.b → HasFlown D.state D.honest self flown flying.sent.count }
        ensures landed { result.0 ≡ landed_coordinator self flown flying.sent }
        ensures running { self.is_down ≡ false → flown.is_down ≡ false → D.honest flown.a → D.honest flown.b → IsRunning D.state D.honest result.0 }
    {
        let Coordinator {
            journal,
            me,
            epoch,
            open_numbers,
            given,
            mut ledger,
            mut kept,
            mut horizon,
            mut rising,
        } = self;
        let (journal, room) = journal.land(flown, flying.sent);
        if !journal.is_down() {
            kept = kept_after(&ledger, kept, flying.decisions);
            rise(&mut ledger, &mut horizon, flying.rising);
            rising = left_rising(rising, flying.rising);
        }
        let back = Coordinator {
            journal,
            me,
            epoch,
            open_numbers,
            given,
            ledger,
            kept,
            horizon,
            rising,
        };
        (back, room)
    }
}
