// What a line that was refused memory has done, and what lines do that ask for no other number of shards: laws, each the clause of a function with an empty body.
ghost use Rattle.scripts.specs.RefusedWrites.{WritesRefusedMemory};
ghost use Rattle.scripts.specs.Staying.{StayingIsOneLife};

use crate::Supply;
use device::Device;

/// A line that asks for a write, and prints that memory was refused, did nothing; or its write was refused so at its end, and stands nowhere; or its flow
/// made as many calls as can be counted, and was given up. What such a write tells has room.
pub fn writes_refused_memory<D: Device, P: Supply<D>>()
    ensures { WritesRefusedMemory P.gives D.set_to_fail D.state D.honest D.moment D.left_since }
{}

/// A script none of whose lines asks for another number of shards is one life of its store.
pub fn staying_is_one_life<D: Device, P: Supply<D>>()
    ensures { StayingIsOneLife P.gives D.set_to_fail D.state D.honest D.moment D.left_since }
{}
