// How many bodies a log over a file appends, each durable when the call returns.
use device::Device;
use files::{Access, open};
use gated::GatedLog;
use measures::timing::{now, print, since};
use std::alloc::Global;
use std::fs;
use std::rt::Clock;
use std::time::Duration;
use tuples::Refusal;

// The file in the current folder, which the measure makes and removes.
const NAME: &str = "bench.log";

// A body of 100 bytes between the four of its length and one of its gate.
const BUFFER: usize = 105;

/// How many appends the words after the program's name ask for, if they ask for this measure.
pub(crate) fn count_of(words: &[String]) -> Option<u32> {
    match words {
        [_, name, count] => {
            if name.as_str() != "appends" {
                return None;
            }
            count.as_str().parse::<u32>().ok()
        }
        _ => None,
    }
}

/// Appends so many bodies to a log over a file of the current folder, and prints how long they took. What it answers is the bytes of the file.
pub(crate) fn measure(rt: &HostRuntime, alloc: Global, count: u32) -> Result<(), Refusal> {
    let _ = fs::remove_file(rt, NAME);
    let device = open(rt, alloc, ".", NAME, Access::Make)?;
    let elapsed = append_to(rt, alloc, device, count)?;
    let Ok(file) = fs::metadata(rt, NAME) else {
        return Err(Refusal::Down);
    };
    let _ = fs::remove_file(rt, NAME);
    print(rt, "append", elapsed, u64::from(count), file.len())
}

fn append_to<D: Device>(
    rt: &impl Clock,
    alloc: Global,
    device: D,
    count: u32,
) -> Result<Duration, Refusal> {
    match GatedLog::open(alloc, device) {
        Ok((mut log, _)) => append_all(rt, &mut log, count),
        Err((refusal, _)) => Err(refusal),
    }
}

fn append_all<D: Device>(
    rt: &impl Clock,
    log: &mut GatedLog<D>,
    count: u32,
) -> Result<Duration, Refusal> {
    let mut buffer = [7; BUFFER];
    let start = now(rt)?;
    for _ in 0..count {
        log.append(&mut buffer)?;
    }
    since(rt, start)
}
