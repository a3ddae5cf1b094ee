// Laws of a coordinator that is up and tied, each the clause of a function with an empty body.
ghost use Rattle.ties.specs.DecidingLaws.{AbortsStayTied, BeginningsStayTied, DecisionsStayTied, KeptAttemptsStand, RaisesStayTied};

use device::Device;

/// A write that is begun leaves the coordinator tied, and knows how long the list is.
pub fn beginnings_stay_tied<D: Device>()
    ensures { BeginningsStayTied D.state D.honest }
{}

/// A write that is aborted leaves the coordinator tied.
pub fn aborts_stay_tied<D: Device>()
    ensures { AbortsStayTied D.state D.honest }
{}

/// A horizon that is raised to a kept place leaves the coordinator tied: it is seen once it is flushed.
pub fn raises_stay_tied<D: Device>()
    ensures { RaisesStayTied D.state D.honest }
{}

/// A decision leaves the coordinator tied: it is one more write that is not kept, and one more attempt, at a place above all that was seen.
pub fn decisions_stay_tied<D: Device>()
    ensures { DecisionsStayTied D.state D.honest }
{}

/// A decision that is kept is the write of its attempt, at its place in the list, and its id stands there once.
pub fn kept_attempts_stand<D: Device>()
    ensures { KeptAttemptsStand D.state D.honest }
{}
