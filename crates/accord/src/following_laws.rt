// Laws of the list beside its coordinator, each the clause of a function with an empty body.
ghost use Rattle.accord.specs.Following.{AbortsFollow, BeginningsFollow, DecisionsFollow};

/// A write that is begun is open in the list's part, under the next id.
pub fn beginnings_follow<D>()
    ensures { BeginningsFollow D }
{}

/// A write that is decided was open there, and is the last of the list.
pub fn decisions_follow<D>()
    ensures { DecisionsFollow D }
{}

/// A write that is aborted is open no longer.
pub fn aborts_follow<D>()
    ensures { AbortsFollow D }
{}
