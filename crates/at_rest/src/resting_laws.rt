// The laws of devices at rest, each the clause of a function with an empty body.
ghost use Rattle.std.specs.Prelude.{ℕ};
ghost use Rattle.at_rest.specs.RestingLaws.{WhatIsFoundIsAtRest, WhatRestsIsAtRest};
ghost use Rattle.at_rest.specs.Stopped.{WhatAStopLeavesIsAtRest};

use device::Device;

/// Devices that were just opened, and over which one store rests, are at rest at its list, or at a beginning of it that has all that was kept: so what a
/// store that was run by steps leaves may be served, whatever its coordinator has forgotten.
pub fn what_rests_is_at_rest<D: Device>()
    ensures { WhatRestsIsAtRest D.state D.honest }
{}

/// If devices rest at a list, as between two calls of a store that is served, those that find what a stop left of them, in files that are longer or not, are at
/// rest at that list, or at one that extends it: so a server may be started again and again, after checkpoints too.
pub fn what_is_found_is_at_rest<D: Device>()
    ensures { WhatIsFoundIsAtRest D.state D.honest }
{}

/// A store that is served may be stopped at any moment of any calls of its nodes: devices that find what the stop left are at rest at its list, or at one that
/// extends it. Each node is between two calls, or is within a flush, a checkpoint or an opening, and before the stop the coordinator's devices could be read.
pub fn what_a_stop_leaves_is_at_rest<D: Device>()
    ensures { (store shards : ℕ) → WhatAStopLeavesIsAtRest D.state D.honest D.moment D.left_since store shards }
{}
