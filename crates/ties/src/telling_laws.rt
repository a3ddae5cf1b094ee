// Laws of what a coordinator that is up and tied tells, each the clause of a function with an empty body.
ghost use Rattle.ties.specs.TellingLaws.{BatchesAreSeen, FoundWritesStand, HeadsAreSeen};

use device::Device;

/// The kept place that it tells is the length of the list, and the horizon the one that was seen, a place of the list.
pub fn heads_are_seen<D: Device>()
    ensures { HeadsAreSeen D.state D.honest }
{}

/// A batch is a part of the list.
pub fn batches_are_seen<D: Device>()
    ensures { BatchesAreSeen D.state D.honest }
{}

/// A write that it finds by its id stands in the list, its id once.
pub fn found_writes_stand<D: Device>()
    ensures { FoundWritesStand D.state D.honest }
{}
