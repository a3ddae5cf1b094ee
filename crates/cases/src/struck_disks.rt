// What a disk in memory is found with, and which of its calls fail.
use crate::disks::{disk_of, has_bytes};
use device::{Device, Stopped, Tear};
use std::alloc::{AllocError, Global};

/// What is done to a disk of the bytes 1, 2, 3 and 4.
#[derive(Clone, Copy)]
enum Step {
    Write(usize, [u8; 2]),
    Sync,
    Revive,
    Fail(u64, Tear),
}

// Two calls: the length is asked first, since a write begins within it.
fn write<D: Device>(disk: &mut D, at: usize, bytes: &[u8]) -> Result<(), Stopped> {
    if at > disk.len()? {
        return Err(Stopped);
    }
    disk.write_at(at, bytes)
}

fn take_all<D: Device>(disk: &mut D, steps: &[Step]) {
    for step in steps {
        // What is counted tells whether it failed.
        let _ = match step {
            Step::Write(at, bytes) => write(disk, *at, bytes),
            Step::Sync => disk.sync(),
            Step::Revive => disk.revive(),
            Step::Fail(n, tear) => {
                disk.fail(*n, *tear);
                Ok(())
            }
        };
    }
}

/// Whether it has these bytes after these steps, has counted this many calls, and this many failed.
fn is_left_with(
    alloc: Global,
    steps: &[Step],
    bytes: &[u8],
    calls: u64,
    failures: u64,
) -> Result<bool, AllocError> {
    let mut disk = disk_of(alloc, &[1, 2, 3, 4])?;
    take_all(&mut disk, steps);
    let are_counted = disk.calls() == calls && disk.failures() == failures;
    Ok(are_counted && has_bytes(alloc, &mut disk, bytes))
}

/// Whether two writes, of which the second is struck by 4, and the sync after them by 5, leave these bytes and this many failures.
fn leave(alloc: Global, n: u64, tear: Tear, bytes: &[u8], failures: u64) -> bool {
    let steps = [
        Step::Fail(n, tear),
        Step::Write(0, [5, 5]),
        Step::Write(3, [6, 6]),
        Step::Sync,
        Step::Revive,
    ];
    is_left_with(alloc, &steps, bytes, 5, failures) == Ok(true)
}

const STRUCK: &[(u64, Tear, &[u8], u64)] = &[
    (4, Tear::Old, &[1, 2, 3, 4], 2),
    (4, Tear::New, &[5, 5, 3, 6, 6], 2),
    (4, Tear::Fill(7), &[7, 7, 3, 7, 7], 2),
    (5, Tear::Old, &[1, 2, 3, 4], 1),
    (5, Tear::New, &[5, 5, 3, 6, 6], 1),
    (5, Tear::Fill(7), &[7, 7, 3, 7, 7], 1),
    // What was synced is neither lost nor filled.
    (9, Tear::Fill(7), &[5, 5, 3, 6, 6], 0),
];

#[test]
fn a_struck_call_leaves_what_its_script_says(rt: HostRuntime) {
    for &(n, tear, bytes, failures) in STRUCK {
        assert!(rt; leave(rt.alloc(), n, tear, bytes, failures), "{n} {tear:?}");
    }
}

const WAITING: &[Step] = &[
    Step::Fail(1, Tear::Old),
    Step::Sync,
    Step::Fail(3, Tear::New),
    Step::Sync,
    Step::Revive,
    Step::Sync,
    Step::Revive,
    Step::Write(0, [9, 9]),
    Step::Revive,
    // Without a failure, what was not synced is lost.
    Step::Write(2, [8, 8]),
    Step::Revive,
];

#[test]
fn a_script_waits_while_the_device_is_stopped(rt: HostRuntime) {
    assert!(rt; is_left_with(rt.alloc(), WAITING, &[9, 9, 3, 4], 7, 3) == Ok(true));
}
