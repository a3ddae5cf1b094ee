// The laws of a store that is carried over, each the clause of a function with an empty body.
ghost use Rattle.reshard_laws.specs.Cared.{CaresKeepTheList, FlushedListsAreKept};
ghost use Rattle.reshard_laws.specs.Carried.{ClosedStoresAreCarriedOver, TokensReadTheSame, WhatIsCarriedOverRests};
ghost use Rattle.reshard_laws.specs.Moments.{NewCoordinatorsAreWhole};

use device::Device;

/// Cares of a store in which no flow runs leave its list as it is, at every moment of each of them: so wherever a resharding ends, the old store rests at its
/// list.
pub fn cares_keep_the_list<D: Device>()
    ensures { CaresKeepTheList D.state D.honest D.moment D.left_since }
{}

/// After a flush of the coordinator that told its end, and whatever cares follow, all of the list is kept.
pub fn flushed_lists_are_kept<D: Device>()
    ensures { FlushedListsAreKept D.state D.honest D.moment D.left_since }
{}

/// The devices that a store was carried over to rest at its list, whose end is kept, and at its horizon; what was told to be aborted stays so.
pub fn what_is_carried_over_rests<D: Device>()
    ensures { WhatIsCarriedOverRests D.state D.honest D.moment D.left_since }
{}

/// The same for a store that was closed, and is opened to be carried over: from whatever machine its devices rest at.
pub fn a_closed_store_is_carried_over<D: Device>()
    ensures { ClosedStoresAreCarriedOver D.state D.honest D.moment D.left_since }
{}

/// Whatever lives the new store then has, each place of the old list shows the same tuples.
pub fn tokens_read_the_same<D: Device>()
    ensures { TokensReadTheSame D.state D.honest D.moment D.left_since D.set_to_fail }
{}

/// A stop at any moment of a resharding leaves of the new coordinator no record, or what each opening finds to be damage, or all that the old one knew.
pub fn new_coordinators_are_whole<D: Device>()
    ensures { NewCoordinatorsAreWhole D.state D.honest D.moment D.left_since }
{}
