// Laws of the flush, the checkpoint and the opening of a coordinator that is tied, each the clause of a function with an empty body.
ghost use Rattle.std.specs.Prelude.{ℕ};
ghost use Rattle.ties.specs.JoiningLaws.{CheckpointsStayTied, FailedCheckpointsStayTied, FailedFlushesStayTied, FlushesStayTied, LandingsStayTied, OpeningsStayTied, RefusedOpeningsStayTied, TiedUpIsTied};

use device::Device;

/// If a coordinator is up and tied, a stop leaves just the list.
pub fn tied_up_is_tied<D: Device>()
    ensures { TiedUpIsTied D.state D.honest }
{}

/// Once the beginning of what is staged is durable, its decisions are kept, and the list is longer by them.
pub fn landings_stay_tied<D: Device, E: Device>()
    ensures { LandingsStayTied D.state D.honest E.state E.honest }
{}

/// Once all that is staged is durable, the list is longer by its decisions.
pub fn flushes_stay_tied<D: Device>()
    ensures { FlushesStayTied D.state D.honest }
{}

/// If a device failed in a flush, a stop leaves the list, and perhaps what was staged after it.
pub fn failed_flushes_stay_tied<D: Device>()
    ensures { (store shards : ℕ) → FailedFlushesStayTied D.state D.honest D.moment D.left_since store shards }
{}

/// A checkpoint leaves the coordinator tied to the whole list, even to what lies below the horizon and is no longer in its records.
pub fn checkpoints_stay_tied<D: Device>()
    ensures { CheckpointsStayTied D.state D.honest }
{}

/// If a device failed in a checkpoint, a stop leaves the list, and perhaps what was staged after it.
pub fn failed_checkpoints_stay_tied<D: Device>()
    ensures { (store shards : ℕ) → FailedCheckpointsStayTied D.state D.honest D.moment D.left_since store shards }
{}

/// An opening cuts nothing that was seen: the list is longer by what it found after it.
pub fn openings_stay_tied<D: Device>()
    ensures { (store shards : ℕ) → OpeningsStayTied D.state D.honest D.moment D.left_since store shards }
{}

/// An opening that is refused leaves the list as it was, for the next one.
pub fn refused_openings_stay_tied<D: Device>()
    ensures { (store shards : ℕ) → RefusedOpeningsStayTied D.state D.honest D.moment D.left_since store shards }
{}
