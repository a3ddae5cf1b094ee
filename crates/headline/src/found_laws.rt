// What the next process finds in the files of a store: laws, each the clause of a function with an empty body.
ghost use Rattle.headline.specs.Found.{CountsForNothing, WhatIsFoundRests};

use device::Device;

/// What follows a list that a closed gate ends counts for nothing: so a file may be longer than what was written to it.
pub fn what_stands_behind_counts_for_nothing()
    ensures { CountsForNothing }
{}

/// If devices rest, those that find what a stop left of them, in files that are longer or not, rest likewise: at the same machine, with all that was told,
/// and with each write that came to nothing.
pub fn what_is_found_rests<D: Device>()
    ensures { WhatIsFoundRests D.state D.honest D.moment D.left_since }
{}
