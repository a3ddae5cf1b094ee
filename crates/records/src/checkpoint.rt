// Which record may come next within a checkpoint, at whatever node.
ghost use Rattle.std.specs.Prelude.{◌≡◌, ◌↔◌, IsTrue};
ghost use Rattle.records.specs.Inside.{IsFirst};
ghost use Rattle.records.specs.Replays.{MayTakeEpoch, MayTakeHorizon};

use crate::{Identity, Inside, Stage};
use tuples::MAX_NUMBER;

/// Whether a checkpoint of this generation may begin the records of a node that was opened this often before.
pub fn may_begin(epoch: u64, generation: u64) -> bool
    ensures { IsTrue result ↔ IsFirst epoch generation }
{
    epoch == 0 && generation >= 1 && generation <= MAX_NUMBER
}

impl Inside {
    /// After its begin.
    pub fn begun(generation: u64) -> Inside
        ensures { result ≡ record { generation = generation; stage = Stage.Begun } }
    {
        Inside {
            generation,
            stage: Stage::Begun,
        }
    }

    /// The same checkpoint, with this part last.
    pub fn behind(self, stage: Stage) -> Inside
        ensures { result ≡ record self { stage = stage } }
    {
        Inside {
            generation: self.generation,
            stage,
        }
    }

    /// The openings so far, of this very node.
    pub fn may_take_epoch(self, me: Identity, epoch: u64, store: u64, shards: u8, node: u8) -> bool
        ensures { IsTrue result ↔ MayTakeEpoch me self epoch store shards node }
    {
        if self.stage != Stage::Begun || epoch == 0 || epoch > MAX_NUMBER {
            return false;
        }
        me.is(store, shards, node)
    }

    /// A place of a log, no lower than the horizon before.
    pub fn may_take_horizon(self, before: u64, place: u64) -> bool
        ensures { IsTrue result ↔ MayTakeHorizon self before place }
    {
        self.stage == Stage::Opened && before <= place && place <= MAX_NUMBER
    }
}
