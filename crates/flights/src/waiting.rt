// Who waits at the lock of a node for its devices to land.
use crate::landings::Landings;

/// What lies under the lock of a node, whose flights are numbered from 1 on.
pub(crate) trait Lands {
    /// The number of the flight that will have carried all that is staged now: the next one that leaves.
    fn ticket(&self) -> u64;

    /// Whether the flight of this number has landed.
    fn has_landed(&self, ticket: u64) -> bool;

    /// Whether its devices are out.
    fn is_out(&self) -> bool;
}

/// For who wants the flight of this number to have landed, or the devices to be here: which flight to wait for, without the lock, and what was told so far of it.
/// None if it has landed, or they are here.
pub(crate) fn awaited<P: Lands>(place: &P, landings: &Landings, ticket: u64) -> Option<(u64, u64)> {
    if place.has_landed(ticket) || !place.is_out() {
        return None;
    }
    // Whoever lands tells of it after the lock, so no landing since is missed.
    let flight = ticket.min(place.ticket());
    Some((flight, landings.seen(flight)))
}
