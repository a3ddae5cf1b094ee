// A script over devices that no command of the program has: over files that a folder keeps, which `checks/killed` kills, or over disks in memory of which one
// that is given for a new node fails, which `checks/sweep --carried` runs.
//
// Each node has two files, the coordinator `c.a` and `c.b`, the first shard `0.a` and `0.b`, and so on. What was found in them when they were opened is what the
// store is opened over, and what lines print is what they print over that store (`run_over` of `scripts`). No file is opened again: a node that was restarted
// after its first write stays down until the next life.
//
// Each life of a store in files is an opening and a run as the headline promises them (`headline`: `Headline`, at any device), since a device over a file keeps
// the contract of a device. From one life to the next it goes on if what is found in each file is a content that a stop may leave: what was told stays.
mod asked;
mod failing;

pub(crate) use asked::Asked;
use asked::{InFiles, OneFails};
use failing::Failing;
use node_files::{Mode, open_all};
use scripts::{InMemory, NoDevices, devices, run_over};
use std::alloc::Global;
use std::io::{Read, Write};
use tuples::Shards;

// The id and the shards of the store on disks in memory.
const STORE: u64 = 1;

const SHARDS: u8 = 2;

// The status if there are no devices.
const FAILED: u8 = 1;

/// Runs the script over what was asked for, and gives the status: 0 at its end, 1 if a file can't be opened, a read or a write failed or there was no memory
/// for the disks.
pub(crate) fn run<R: Read, W: Write>(
    rt: &HostRuntime,
    asked: Asked<'_>,
    reader: &mut R,
    writer: &mut W,
) -> u8 {
    match asked {
        Asked::Files(asked) => run_in_files(rt, asked, reader, writer),
        Asked::Failing(asked) => run_failing(rt.alloc(), asked, reader, writer),
    }
}

fn run_in_files<R: Read, W: Write>(
    rt: &HostRuntime,
    asked: InFiles<'_>,
    reader: &mut R,
    writer: &mut W,
) -> u8 {
    let (alloc, store, shards) = (rt.alloc(), asked.store, Shards::of(asked.shards));
    match open_all(rt, asked.folder, store, shards, Mode::Serve) {
        Ok(opened) => run_over(
            alloc,
            store,
            shards,
            opened.devices,
            NoDevices,
            reader,
            writer,
        ),
        Err(unopened) => {
            let refusal = unopened.refusal;
            // A text that can't be printed does not change the status.
            let _ = eprintln!(rt; "harness: a file can't be opened: {refusal}: {unopened}");
            FAILED
        }
    }
}

fn run_failing<R: Read, W: Write>(
    alloc: Global,
    asked: OneFails,
    reader: &mut R,
    writer: &mut W,
) -> u8 {
    let mut first = InMemory;
    let shards = Shards::of(SHARDS);
    match devices(alloc, &mut first, shards) {
        Ok(disks) => run_over(
            alloc,
            STORE,
            shards,
            disks,
            Failing::new(asked),
            reader,
            writer,
        ),
        Err(_) => FAILED,
    }
}
