// Laws over lists of records, each the clause of a function with an empty body.
ghost use Rattle.tuples.specs.Watching.{EventsJoin};
ghost use Rattle.laws.specs.LogLaws.{LaterHorizonsCollect, PreparedMeansTheSame, SelectionsAreOne, SelectionsAscend, VersionsGiveSnapshots};
ghost use Rattle.laws.specs.Machines.{EventsStay, KeptWritesStay, SnapshotsStay};

/// A prepare of a write that is not listed changes nothing of what a shard's records mean.
pub fn prepared_records_mean_the_same()
    ensures { PreparedMeansTheSame }
{}

/// What one watch lists and then the next, from its heartbeat on, is what one watch over both would list.
pub fn watches_join()
    ensures { EventsJoin }
{}

/// A selection is sorted, so each tuple stands once in it.
pub fn selections_ascend()
    ensures { SelectionsAscend }
{}

/// A read has one answer.
pub fn selections_are_one()
    ensures { SelectionsAreOne }
{}

/// What a shard keeps of the log shows each snapshot from its horizon on.
pub fn versions_give_snapshots()
    ensures { VersionsGiveSnapshots }
{}

/// Collecting under one horizon and then under a later one is collecting under the later one.
pub fn later_horizons_collect()
    ensures { LaterHorizonsCollect }
{}

/// Whatever moves the machine makes, what was kept stays kept, write by write, and the kept place and the horizon only rise.
pub fn kept_writes_stay()
    ensures { KeptWritesStay }
{}

/// A kept place shows the same tuples for good.
pub fn snapshots_stay()
    ensures { SnapshotsStay }
{}

/// A watch up to a kept place lists the same changes for good.
pub fn events_stay()
    ensures { EventsStay }
{}
