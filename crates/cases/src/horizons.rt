// Raising the horizon of a coordinator.
use crate::logs::{coordinator_with, shard_with};
use crate::small_stores::{self, new_disks, only};
use coordinator::{Coordinator, Inquiry, NotRaised};
use device::Device;
use shard::Shard;
use std::alloc::Global;
use tuples::{Refusal, WriteId};

/// What became of a call of `raise`.
#[derive(Clone, Copy, Debug, PartialEq, Eq)]
enum Raising {
    Raised,
    /// The call was refused, and what was handed in came back.
    Refused(Refusal),
    /// The values for it do not settle the place, so it may not be made.
    NotSettled,
    /// The call was refused, and what came back is something else.
    Lost,
}

fn refused(not_raised: &NotRaised, place: u64) -> Raising {
    match not_raised.settled.as_slice() {
        [one] if one.shard() == 0 && one.place() == place => Raising::Refused(not_raised.refusal),
        _ => Raising::Lost,
    }
}

/// Raises the horizon to a place by what the shard of a store of one has settled.
fn raise<D: Device>(
    alloc: Global,
    coordinator: &mut Coordinator<D>,
    shard: &Shard<D>,
    place: u64,
) -> Result<Raising, Refusal> {
    let one = shard.settle()?;
    let settled_place = one.place();
    let settled = only(alloc, one)?;
    match small_stores::raise(coordinator, place, settled) {
        None => Ok(Raising::NotSettled),
        Some(Ok(())) => Ok(Raising::Raised),
        Some(Err(not_raised)) => {
            let raising = refused(&not_raised, settled_place);
            drop(not_raised);
            Ok(raising)
        }
    }
}

/// Whether an inquiry for the second write finds it at place 2.
fn is_found<D: Device>(coordinator: &Coordinator<D>) -> Result<bool, Refusal> {
    let inquiry = coordinator.inquire(WriteId {
        epoch: 1,
        number: 2,
    })?;
    let is_found = matches!(&inquiry, Inquiry::Commit(2));
    drop(inquiry);
    Ok(is_found)
}

/// Whether the durable horizon is at this place by the heads, by a batch from below place 2 on, and by an inquiry for the write there.
fn is_at<D: Device>(
    alloc: Global,
    coordinator: &Coordinator<D>,
    horizon: u64,
) -> Result<bool, Refusal> {
    let is_served = coordinator.batch(alloc, 1, 3).is_ok();
    let is_found = is_found(coordinator)?;
    let is_below = horizon < 2;
    Ok(coordinator.heads()?.horizon() == horizon && is_served == is_below && is_found == is_below)
}

/// A place, what becomes of the call, and the durable horizon before the next flush and after it.
const RAISINGS: &[(u64, Raising, u64, u64)] = &[
    (5, Raising::NotSettled, 0, 0),
    (4, Raising::Refused(Refusal::Future), 0, 0),
    (2, Raising::Raised, 0, 2),
    (1, Raising::Refused(Refusal::Collected), 2, 2),
    (2, Raising::Raised, 2, 2),
    (3, Raising::Raised, 2, 3),
];

/// Whether a call of `raise` comes to that, and the durable horizon is as told before the next flush and after it.
fn is_raised<D: Device>(
    alloc: Global,
    coordinator: &mut Coordinator<D>,
    shard: &Shard<D>,
    (place, wanted, before, behind): (u64, Raising, u64, u64),
) -> Result<bool, Refusal> {
    let raising = raise(alloc, coordinator, shard, place)?;
    let is_before = is_at(alloc, coordinator, before)?;
    coordinator.flush()?;
    Ok(raising == wanted && is_before && is_at(alloc, coordinator, behind)?)
}

/// The first row that is wrong, of a coordinator that has kept three decisions. The shard has settled place 4, as one of another store does.
fn wrong_row<D: Device>(
    alloc: Global,
    coordinator: &mut Coordinator<D>,
    shard: &Shard<D>,
) -> Result<Option<usize>, Refusal> {
    for (i, row) in RAISINGS.iter().enumerate() {
        if !is_raised(alloc, coordinator, shard, *row)? {
            return Ok(Some(i));
        }
    }
    Ok(None)
}

/// The same for a coordinator over two of the devices. Each node is owned by a function of its own, since each exit of one that owns both
/// is proved.
fn wrong_row_beside<D: Device>(
    alloc: Global,
    devices: &mut Vec<D>,
    shard: &Shard<D>,
) -> Result<Option<usize>, Refusal> {
    let mut coordinator = coordinator_with(alloc, devices, 3, 0)?;
    let wrong = wrong_row(alloc, &mut coordinator, shard);
    drop(coordinator);
    wrong
}

fn first_wrong<D: Device>(alloc: Global, devices: &mut Vec<D>) -> Result<Option<usize>, Refusal> {
    let shard = shard_with(alloc, devices, 4)?;
    let wrong = wrong_row_beside(alloc, devices, &shard);
    drop(shard);
    wrong
}

fn first_wrong_on_disks(alloc: Global) -> Result<Option<usize>, Refusal> {
    let mut disks = new_disks(alloc, 4)?;
    let wrong = first_wrong(alloc, &mut disks);
    drop(disks);
    wrong
}

#[test]
fn a_horizon_counts_from_its_flush_on(rt: HostRuntime) {
    assert_eq!(rt; first_wrong_on_disks(rt.alloc()), Ok(None));
}

/// Whether the horizon is raised to each place from 1 to this one.
fn raise_to_each<D: Device>(
    alloc: Global,
    coordinator: &mut Coordinator<D>,
    shard: &Shard<D>,
    last: u64,
) -> Result<bool, Refusal> {
    for before in 0..last {
        if raise(alloc, coordinator, shard, before + 1)? != Raising::Raised {
            return Ok(false);
        }
    }
    Ok(true)
}

/// Whether a horizon to place 65,536 is refused after 65,535 staged ones, which fill the batch, and raised after their flush.
fn is_refused_once<D: Device>(
    alloc: Global,
    coordinator: &mut Coordinator<D>,
    shard: &Shard<D>,
) -> Result<bool, Refusal> {
    let are_raised = raise_to_each(alloc, coordinator, shard, 65_535)?;
    let first = raise(alloc, coordinator, shard, 65_536)?;
    coordinator.flush()?;
    let below = coordinator.horizon();
    let second = raise(alloc, coordinator, shard, 65_536)?;
    Ok(
        are_raised
            && first == Raising::Refused(Refusal::Full)
            && below == 65_535
            && second == Raising::Raised,
    )
}

fn is_refused_once_beside<D: Device>(
    alloc: Global,
    devices: &mut Vec<D>,
    shard: &Shard<D>,
) -> Result<bool, Refusal> {
    let mut coordinator = coordinator_with(alloc, devices, 65_536, 0)?;
    let is_refused = is_refused_once(alloc, &mut coordinator, shard);
    drop(coordinator);
    is_refused
}

fn is_full_once<D: Device>(alloc: Global, devices: &mut Vec<D>) -> Result<bool, Refusal> {
    let shard = shard_with(alloc, devices, 65_536)?;
    let is_full = is_refused_once_beside(alloc, devices, &shard);
    drop(shard);
    is_full
}

fn is_full_once_on_disks(alloc: Global) -> Result<bool, Refusal> {
    let mut disks = new_disks(alloc, 4)?;
    let is_full = is_full_once(alloc, &mut disks);
    drop(disks);
    is_full
}

#[test]
fn a_full_batch_takes_no_horizon(rt: HostRuntime) {
    assert!(rt; is_full_once_on_disks(rt.alloc()) == Ok(true));
}
