// That a write was aborted.
ghost use Rattle.std.specs.Prelude.{◌≡◌};
ghost use Rattle.decisions.specs.Values.{IsAbortedBy};

use device::Device;
use journal::Journal;
use std::marker::Model;
use tuples::WriteId;

/// A write was aborted: its id was given out, it is not open, and no decision above the horizon has its id. It only informs, and may
/// be dropped.
#[derive(Drop, Debug)]
pub struct Verdict {
    id: WriteId,
}

impl Model for Verdict {
    ghost use Rattle.decisions.specs.Values.{VerdictValue};

    ghost Value = { VerdictValue };

    ghost view = { λ v. record { id = v.id } };
}

impl Verdict {
    /// Made by a coordinator that has given the numbers 1 to `given` since its opening, with `still_open` those of its open writes: its journal shows
    /// that the id was given out and is not open, and that no decision above the horizon has it, by what every stop leaves and by what is staged.
    pub fn new<D: Device>(
        journal: &Journal<D>,
        given: u64,
        still_open: &[u64],
        id: WriteId,
    ) -> Verdict
        requires aborted { IsAbortedBy D.state D.honest journal.now given still_open.now id }
        ensures { result ≡ record { id = id } }
    {
        let _journal = journal;
        let _given = given;
        let _still_open = still_open;
        Verdict { id }
    }

    /// The id of the write.
    pub fn id(&self) -> WriteId
        ensures { result ≡ self.now.id }
    {
        self.id
    }
}
