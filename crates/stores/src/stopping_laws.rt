// A law of stops, the clause of a function with an empty body.
ghost use Rattle.stores.specs.StoppingLaws.{WhatIsLeftRests};

use device::Device;

/// Once a stop cuts off nodes that agree, devices that were just opened and find what it left of them rest, with all that was kept.
pub fn what_is_left_rests<D: Device>()
    ensures { WhatIsLeftRests D.state D.honest }
{}
