// Laws of the steps of a coordinator's list beside what callers began, each the clause of a function with an empty body.
ghost use Rattle.accord.specs.OwnedLists.{AbortsKeepOwners, BeginningsKeepOwners, CallersBeginWithNothing, DecidedWritesStay, DecisionsKeepOwners, FoundListsAreOwned, NoListIsOwned, RestartsKeepOwners};

/// Before the store is opened nobody has begun anything.
pub fn no_list_is_owned()
    ensures { NoListIsOwned }
{}

/// What is found as the store is opened nobody has begun, and no id of it is given again.
pub fn found_lists_are_owned()
    ensures { FoundListsAreOwned }
{}

/// A new caller has begun nothing.
pub fn callers_begin_with_nothing()
    ensures { CallersBeginWithNothing }
{}

/// A write that is begun under the next id is its caller's alone.
pub fn beginnings_keep_owners()
    ensures { BeginningsKeepOwners }
{}

/// The caller of an open write gives it up in the step that decides it. It is listed once.
pub fn decisions_keep_owners()
    ensures { DecisionsKeepOwners }
{}

/// A write that is aborted is not listed.
pub fn aborts_keep_owners()
    ensures { AbortsKeepOwners }
{}

/// A restart cuts what was not kept. A write that was not decided is not listed after it either.
pub fn restarts_keep_owners()
    ensures { RestartsKeepOwners }
{}

/// A decided write stands at its place, until the coordinator is opened again.
pub fn decided_writes_stay()
    ensures { DecidedWritesStay }
{}
