// The decisions that a coordinator hands to the shards, and the places that its log has.
use crate::logs::coordinator_with;
use crate::small_stores::{new_disks, open_only_shard};
use crate::writes::{begin, decide, touch, touch_since};
use coordinator::Coordinator;
use decisions::Batch;
use device::Device;
use shard::Shard;
use std::alloc::Global;
use tuples::Refusal;

/// The numbers of the first write and the last one of a batch from a place on; the write with a number stands at the place of that number.
fn ends(batch: &Batch, from: u64) -> Result<Option<(u64, u64)>, Refusal> {
    let writes = batch.writes();
    if batch.from() != from || batch.to() - from != writes.len() as u64 {
        return Err(Refusal::BadRequest);
    }
    match (writes.first(), writes.last()) {
        (Some(first), Some(last)) => Ok(Some((first.id.number, last.id.number))),
        _ => Ok(None),
    }
}

/// The ends of the decisions after a place and up to another.
fn batch<D: Device>(
    alloc: Global,
    coordinator: &Coordinator<D>,
    from: u64,
    to: u64,
) -> Result<Option<(u64, u64)>, Refusal> {
    if from > to {
        return Err(Refusal::BadRequest);
    }
    let batch = coordinator.batch(alloc, from, to)?;
    let ends = ends(&batch, from);
    drop(batch);
    ends
}

/// Two places, and the ends of the batch that is handed out for them.
const BATCHES: &[(u64, u64, Result<Option<(u64, u64)>, Refusal>)] = &[
    (19, 300, Err(Refusal::Collected)),
    (20, 301, Err(Refusal::Future)),
    (19, 301, Err(Refusal::Future)),
    // At most 256.
    (20, 300, Ok(Some((21, 276)))),
    (20, 276, Ok(Some((21, 276)))),
    (290, 300, Ok(Some((291, 300)))),
    (300, 300, Ok(None)),
];

/// The first batch that is not as wanted. The coordinator has 300 kept decisions with the horizon at 20, and a staged one.
fn wrong_batch<D: Device>(alloc: Global, coordinator: &Coordinator<D>) -> Option<usize> {
    for (i, &(from, to, wanted)) in BATCHES.iter().enumerate() {
        if batch(alloc, coordinator, from, to) != wanted {
            return Some(i);
        }
    }
    None
}

/// Why a write that asks about a place is refused.
fn refusal_since<D: Device>(
    alloc: Global,
    coordinator: &mut Coordinator<D>,
    place: u64,
) -> Result<Option<Refusal>, Refusal> {
    let write = touch_since(alloc, "doc:a#viewer@u1", place)?;
    Ok(begin(coordinator, write).err())
}

/// Places, and why a condition on each is refused.
const PLACES: &[(u64, Option<Refusal>)] = &[
    (19, Some(Refusal::Collected)),
    (20, None),
    // The staged decision counts here.
    (301, None),
    (302, Some(Refusal::Future)),
];

/// The first place of a condition that is not refused as wanted, at the same coordinator.
fn wrong_place<D: Device>(
    alloc: Global,
    coordinator: &mut Coordinator<D>,
) -> Result<Option<usize>, Refusal> {
    for (i, &(place, wanted)) in PLACES.iter().enumerate() {
        if refusal_since(alloc, coordinator, place)? != wanted {
            return Ok(Some(i));
        }
    }
    Ok(None)
}

/// The three numbers of a coordinator, and the kept place that its next write is told.
fn heads<D: Device>(
    alloc: Global,
    coordinator: &mut Coordinator<D>,
) -> Result<(u64, u64, u64, u64), Refusal> {
    let (_, kept) = begin(coordinator, touch(alloc, "doc:a#viewer@u1")?)?;
    let heads = coordinator.heads()?;
    Ok((heads.length(), heads.kept(), heads.horizon(), kept))
}

/// Whether the numbers are right before the flush of the staged decision and after it.
fn are_right<D: Device>(alloc: Global, coordinator: &mut Coordinator<D>) -> Result<bool, Refusal> {
    let staged = heads(alloc, coordinator)?;
    coordinator.flush()?;
    let kept = heads(alloc, coordinator)?;
    Ok(staged == (301, 300, 20, 300) && kept == (301, 301, 20, 301))
}

fn stage<D: Device>(
    alloc: Global,
    coordinator: &mut Coordinator<D>,
    shard: &mut Shard<D>,
) -> Result<(), Refusal> {
    let write = touch(alloc, "doc:a#viewer@u1")?;
    decide(alloc, coordinator, shard, write)?.leave();
    Ok(())
}

/// The coordinator of the tables, beside its shard. Each node is owned by a function of its own, since each exit of one that owns both is
/// proved.
fn long_beside<D: Device>(
    alloc: Global,
    devices: &mut Vec<D>,
    shard: &mut Shard<D>,
) -> Result<Coordinator<D>, Refusal> {
    let mut coordinator = coordinator_with(alloc, devices, 300, 20)?;
    match stage(alloc, &mut coordinator, shard) {
        Ok(()) => Ok(coordinator),
        Err(refusal) => {
            drop(coordinator);
            Err(refusal)
        }
    }
}

fn long<D: Device>(alloc: Global, devices: &mut Vec<D>) -> Result<Coordinator<D>, Refusal> {
    let mut shard = open_only_shard(alloc, devices)?;
    let coordinator = long_beside(alloc, devices, &mut shard);
    drop(shard);
    coordinator
}

fn first_wrong_batch<D: Device>(
    alloc: Global,
    devices: &mut Vec<D>,
) -> Result<Option<usize>, Refusal> {
    let coordinator = long(alloc, devices)?;
    let wrong = wrong_batch(alloc, &coordinator);
    drop(coordinator);
    Ok(wrong)
}

fn first_wrong_place<D: Device>(
    alloc: Global,
    devices: &mut Vec<D>,
) -> Result<Option<usize>, Refusal> {
    let mut coordinator = long(alloc, devices)?;
    let wrong = wrong_place(alloc, &mut coordinator);
    drop(coordinator);
    wrong
}

fn are_right_numbers<D: Device>(alloc: Global, devices: &mut Vec<D>) -> Result<bool, Refusal> {
    let mut coordinator = long(alloc, devices)?;
    let are_right = are_right(alloc, &mut coordinator);
    drop(coordinator);
    are_right
}

fn first_wrong_batch_on_disks(alloc: Global) -> Result<Option<usize>, Refusal> {
    let mut disks = new_disks(alloc, 4)?;
    let wrong = first_wrong_batch(alloc, &mut disks);
    drop(disks);
    wrong
}

#[test]
fn a_batch_is_of_kept_decisions_from_the_horizon_on(rt: HostRuntime) {
    assert_eq!(rt; first_wrong_batch_on_disks(rt.alloc()), Ok(None));
}

fn first_wrong_place_on_disks(alloc: Global) -> Result<Option<usize>, Refusal> {
    let mut disks = new_disks(alloc, 4)?;
    let wrong = first_wrong_place(alloc, &mut disks);
    drop(disks);
    wrong
}

#[test]
fn a_condition_names_a_place_within_the_log(rt: HostRuntime) {
    assert_eq!(rt; first_wrong_place_on_disks(rt.alloc()), Ok(None));
}

fn are_right_numbers_on_disks(alloc: Global) -> Result<bool, Refusal> {
    let mut disks = new_disks(alloc, 4)?;
    let are_right = are_right_numbers(alloc, &mut disks);
    drop(disks);
    are_right
}

#[test]
fn a_staged_decision_lengthens_the_log_alone(rt: HostRuntime) {
    assert!(rt; are_right_numbers_on_disks(rt.alloc()) == Ok(true));
}
