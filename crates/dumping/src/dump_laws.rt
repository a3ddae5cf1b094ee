// What a dump tells is a snapshot: a law, the clause of a function with an empty body.
ghost use Rattle.dumping.specs.DumpLaws.{DumpsAreSnapshots};

use device::Device;

/// Whatever machine its devices rest at, a dump of a store that is opened over them tells all tuples that are there at its place of the store's one list.
pub fn dumps_are_snapshots<D: Device>()
    ensures { DumpsAreSnapshots D.state D.honest D.moment D.left_since }
{}
