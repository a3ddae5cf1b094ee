// What a shard knows after its records, and which records may not come next: bytes of records that were worked out by hand.
use records::{Identity, decode_batch};
use refusal::Refusal;
use replay::{Memory, Replay};
use std::alloc::{AllocError, Global};
use tuples::{Shards, Tupleset};
use versions::Budget;

// Each record is alone in a batch.

/// The first opening of shard 1 of the two of store 9.
const OPENED: &[u8] = &[
    2, 0, 1, 4, 0, 0, 0, 0, 0, 0, 0, 1, 0, 0, 0, 0, 0, 0, 0, 9, 2, 1,
];

/// Its second opening.
const OPENED_AGAIN: &[u8] = &[
    2, 0, 1, 4, 0, 0, 0, 0, 0, 0, 0, 2, 0, 0, 0, 0, 0, 0, 0, 9, 2, 1,
];

/// The second opening of shard 1 of the two of store 8.
const OPENED_ELSEWHERE: &[u8] = &[
    2, 0, 1, 4, 0, 0, 0, 0, 0, 0, 0, 2, 0, 0, 0, 0, 0, 0, 0, 8, 2, 1,
];

/// Write 1.1 touches `doc:a#viewer@u1`, on the condition that `doc:c#owner@u1` is not there.
const PREPARED: &[u8] = &[
    2, 0, 1, 1, 0, 0, 0, 0, 0, 0, 0, 1, 0, 0, 0, 0, 0, 0, 0, 1, 1, 1, 3, 100, 111, 99, 1, 97, 6,
    118, 105, 101, 119, 101, 114, 1, 2, 117, 49, 1, 3, 100, 111, 99, 1, 99, 5, 111, 119, 110, 101,
    114, 1, 2, 117, 49, 3,
];

/// Write 1.2 touches `doc:c#owner@u1`.
const PREPARED_LATER: &[u8] = &[
    2, 0, 1, 1, 0, 0, 0, 0, 0, 0, 0, 1, 0, 0, 0, 0, 0, 0, 0, 2, 1, 1, 3, 100, 111, 99, 1, 99, 5,
    111, 119, 110, 101, 114, 1, 2, 117, 49, 0,
];

/// Write 1.3 touches the same tuple.
const PREPARED_BESIDE: &[u8] = &[
    2, 0, 1, 1, 0, 0, 0, 0, 0, 0, 0, 1, 0, 0, 0, 0, 0, 0, 0, 3, 1, 1, 3, 100, 111, 99, 1, 99, 5,
    111, 119, 110, 101, 114, 1, 2, 117, 49, 0,
];

/// Write 1.3 touches `doc:b#viewer@u1`, which shard 0 has.
const PREPARED_ELSEWHERE: &[u8] = &[
    2, 0, 1, 1, 0, 0, 0, 0, 0, 0, 0, 1, 0, 0, 0, 0, 0, 0, 0, 3, 1, 1, 3, 100, 111, 99, 1, 98, 6,
    118, 105, 101, 119, 101, 114, 1, 2, 117, 49, 0,
];

/// Write 1.3 has the condition that `doc:a#viewer@u1` was not changed after place 2^63, which no log has.
const PREPARED_AFTER_ALL: &[u8] = &[
    2, 0, 1, 1, 0, 0, 0, 0, 0, 0, 0, 1, 0, 0, 0, 0, 0, 0, 0, 3, 0, 1, 3, 100, 111, 99, 1, 97, 6,
    118, 105, 101, 119, 101, 114, 1, 2, 117, 49, 1, 128, 0, 0, 0, 0, 0, 0, 0,
];

/// Learned to 5, with write 1.1 at 3.
const LEARNED: &[u8] = &[
    2, 0, 1, 2, 0, 0, 0, 0, 0, 0, 0, 5, 0, 1, 0, 0, 0, 0, 0, 0, 0, 1, 0, 0, 0, 0, 0, 0, 0, 1, 0, 0,
    0, 0, 0, 0, 0, 3,
];

/// Learned to 4, with nothing.
const LEARNED_LESS: &[u8] = &[2, 0, 1, 2, 0, 0, 0, 0, 0, 0, 0, 4, 0, 0];

/// Learned to 6, with write 1.1 at 6.
const LEARNED_UNKNOWN: &[u8] = &[
    2, 0, 1, 2, 0, 0, 0, 0, 0, 0, 0, 6, 0, 1, 0, 0, 0, 0, 0, 0, 0, 1, 0, 0, 0, 0, 0, 0, 0, 1, 0, 0,
    0, 0, 0, 0, 0, 6,
];

/// Write 1.2 is dropped.
const DROPPED: &[u8] = &[2, 0, 1, 3, 0, 0, 0, 0, 0, 0, 0, 1, 0, 0, 0, 0, 0, 0, 0, 2];

/// Write 1.1 is dropped.
const DROPPED_UNKNOWN: &[u8] = &[2, 0, 1, 3, 0, 0, 0, 0, 0, 0, 0, 1, 0, 0, 0, 0, 0, 0, 0, 1];

/// Write 1.3 is decided at 6.
const DECIDED: &[u8] = &[
    2, 0, 1, 5, 0, 0, 0, 0, 0, 0, 0, 6, 0, 0, 0, 0, 0, 0, 0, 1, 0, 0, 0, 0, 0, 0, 0, 3, 1, 1, 3,
    100, 111, 99, 1, 97, 6, 118, 105, 101, 119, 101, 114, 1, 2, 117, 49, 0,
];

/// A horizon of 4.
const COLLECTED: &[u8] = &[2, 0, 1, 6, 0, 0, 0, 0, 0, 0, 0, 4];

/// A horizon of 6.
const COLLECTED_ABOVE: &[u8] = &[2, 0, 1, 6, 0, 0, 0, 0, 0, 0, 0, 6];

/// Learned to 5, with nothing.
const LEARNED_PLAIN: &[u8] = &[2, 0, 1, 2, 0, 0, 0, 0, 0, 0, 0, 5, 0, 0];

/// A checkpoint of generation 3 begins.
const BEGUN: &[u8] = &[2, 0, 1, 7, 0, 0, 0, 0, 0, 0, 0, 0, 3];

/// A version of `doc:a#viewer@u1`: a touch at 3.
const ROW: &[u8] = &[
    2, 0, 1, 7, 1, 0, 0, 0, 0, 0, 0, 0, 3, 1, 3, 100, 111, 99, 1, 97, 6, 118, 105, 101, 119, 101,
    114, 1, 2, 117, 49,
];

/// The same at 6.
const ROW_ABOVE: &[u8] = &[
    2, 0, 1, 7, 1, 0, 0, 0, 0, 0, 0, 0, 6, 1, 3, 100, 111, 99, 1, 97, 6, 118, 105, 101, 119, 101,
    114, 1, 2, 117, 49,
];

/// A touch of `doc:b#viewer@u1` at 3, which shard 0 has.
const ROW_ELSEWHERE: &[u8] = &[
    2, 0, 1, 7, 1, 0, 0, 0, 0, 0, 0, 0, 3, 1, 3, 100, 111, 99, 1, 98, 6, 118, 105, 101, 119, 101,
    114, 1, 2, 117, 49,
];

/// The checkpoint of generation 3 ends.
const ENDED: &[u8] = &[2, 0, 1, 7, 2, 0, 0, 0, 0, 0, 0, 0, 3];

/// One of generation 4 ends.
const ENDED_ELSEWHERE: &[u8] = &[2, 0, 1, 7, 2, 0, 0, 0, 0, 0, 0, 0, 4];

/// Takes the record of a batch, at shard 1 of the two of store 9.
fn take(alloc: Global, replay: &mut Replay, batch: &[u8]) -> Result<(), Refusal> {
    match decode_batch(alloc, batch)?.into_iter().next() {
        Some(record) => replay.take(alloc, Identity::shard(9, Shards::of(2), 1), record),
        None => Err(Refusal::Damaged),
    }
}

/// How many of these records are taken before the first that may not come next.
fn take_all(alloc: Global, replay: &mut Replay, batches: &[&[u8]]) -> usize {
    for (i, batch) in batches.iter().enumerate() {
        if take(alloc, replay, batch).is_err() {
            return i;
        }
    }
    batches.len()
}

/// How many tuples are there at a place.
fn there(alloc: Global, memory: &Memory, place: u64, set: &Tupleset) -> Result<usize, AllocError> {
    let tuples = memory.at(alloc, place, set, &mut Budget::unbounded())?;
    let count = tuples.len();
    drop(tuples);
    Ok(count)
}

/// How many tuples of `doc:a#viewer` are there at a place.
fn viewers(alloc: Global, memory: &Memory, place: u64) -> Result<usize, Refusal> {
    let set = Tupleset::parse(alloc, b"doc:a#viewer")?;
    let count = there(alloc, memory, place, &set);
    drop(set);
    Ok(count?)
}

/// Its openings, what it has learned, its horizon, and how many viewers are there before the write and after it.
fn known(alloc: Global, memory: &Memory) -> Result<[u64; 5], Refusal> {
    let before = viewers(alloc, memory, 2)?;
    let after = viewers(alloc, memory, 5)?;
    Ok([
        memory.epoch(),
        memory.learned(),
        memory.horizon(),
        before as u64,
        after as u64,
    ])
}

/// A shard after these records; `Damaged` if one of them may not come next, or a checkpoint has not ended.
fn memory_after(alloc: Global, batches: &[&[u8]]) -> Result<Memory, Refusal> {
    let mut replay = Replay::new(alloc);
    if take_all(alloc, &mut replay, batches) < batches.len() {
        drop(replay);
        return Err(Refusal::Damaged);
    }
    replay.into_memory()
}

/// What it knows.
fn known_after(alloc: Global, batches: &[&[u8]]) -> Result<[u64; 5], Refusal> {
    match memory_after(alloc, batches) {
        Ok(memory) => {
            let known = known(alloc, &memory);
            drop(memory);
            known
        }
        Err(refusal) => Err(refusal),
    }
}

/// A shard is opened twice, learns a write and drops another.
const LIVED: &[&[u8]] = &[
    OPENED,
    PREPARED,
    LEARNED,
    COLLECTED,
    PREPARED_LATER,
    DROPPED,
    OPENED_AGAIN,
];

/// A checkpoint that stands for the same, with another write in doubt that is dropped after it.
const CHECKPOINTED: &[&[u8]] = &[
    BEGUN,
    OPENED_AGAIN,
    COLLECTED,
    LEARNED_PLAIN,
    ROW,
    PREPARED_LATER,
    ENDED,
    DROPPED,
];

/// One that has not ended.
const BEGUN_ALONE: &[&[u8]] = &[
    BEGUN,
    OPENED_AGAIN,
    COLLECTED,
    LEARNED_PLAIN,
    ROW,
    PREPARED_LATER,
];

const KNOWN: &[(&[&[u8]], Result<[u64; 5], Refusal>, &str)] = &[
    (LIVED, Ok([2, 5, 4, 0, 1]), "a shard that lived"),
    (CHECKPOINTED, Ok([2, 5, 4, 0, 1]), "a checkpoint"),
    (BEGUN_ALONE, Err(Refusal::Damaged), "one that has not ended"),
];

#[test]
fn a_shard_knows_what_its_records_stand_for(rt: HostRuntime) {
    for &(batches, wanted, what) in KNOWN {
        assert!(rt; known_after(rt.alloc(), batches) == wanted, "{what}");
    }
}

/// How many of these records are taken, from nothing on, before the first that may not come next.
fn taken_of(alloc: Global, batches: &[&[u8]]) -> usize {
    let mut replay = Replay::new(alloc);
    let taken = take_all(alloc, &mut replay, batches);
    drop(replay);
    taken
}

/// How many are taken if this one is the fifth.
fn taken_before(alloc: Global, last: &[u8]) -> usize {
    taken_of(alloc, &[OPENED, PREPARED, LEARNED, PREPARED_LATER, last])
}

const OUT_OF_TURN: &[(&[u8], &str)] = &[
    (OPENED, "an opening out of turn"),
    (OPENED_ELSEWHERE, "an opening of another store"),
    (PREPARED_LATER, "a write that is in doubt"),
    (PREPARED_BESIDE, "a tuple that is held"),
    (PREPARED_ELSEWHERE, "a tuple of another shard"),
    (PREPARED_AFTER_ALL, "a place above every log"),
    (LEARNED_LESS, "a lower place"),
    (LEARNED_UNKNOWN, "a write that was learned"),
    (DROPPED_UNKNOWN, "a write that is not in doubt"),
    (DECIDED, "a decision"),
    (COLLECTED_ABOVE, "a horizon above what is learned"),
];

#[test]
fn what_may_not_come_next_is_damage(rt: HostRuntime) {
    for &(last, why) in OUT_OF_TURN {
        assert!(rt; taken_before(rt.alloc(), last) == 4, "{why}");
    }
}

/// How many are taken if this one stands fifth in a checkpoint.
fn taken_inside(alloc: Global, last: &[u8]) -> usize {
    taken_of(
        alloc,
        &[BEGUN, OPENED_AGAIN, COLLECTED, LEARNED_PLAIN, last],
    )
}

const OUT_OF_PLACE: &[(&[u8], &str)] = &[
    (BEGUN, "another begins"),
    (OPENED_AGAIN, "an epoch behind its horizon"),
    (COLLECTED, "two horizons"),
    (LEARNED_PLAIN, "two places learned"),
    (ROW_ABOVE, "a version above what is learned"),
    (ROW_ELSEWHERE, "a version of another shard"),
    (PREPARED_ELSEWHERE, "a tuple of another shard"),
    (DROPPED, "a write is dropped"),
    (DECIDED, "a decision"),
    (ENDED_ELSEWHERE, "the end of another"),
];

#[test]
fn what_may_not_stand_in_a_checkpoint_is_damage(rt: HostRuntime) {
    for &(last, why) in OUT_OF_PLACE {
        assert!(rt; taken_inside(rt.alloc(), last) == 4, "{why}");
    }
}

#[test]
fn a_checkpoint_ends_within_what_is_learned(rt: HostRuntime) {
    let batches: &[&[u8]] = &[BEGUN, OPENED_AGAIN, COLLECTED_ABOVE, LEARNED_PLAIN, ENDED];
    assert!(rt; taken_of(rt.alloc(), batches) == 4);
}
