//! Measures of the store's parts, those of its nodes here, which `bench/run` at the top sets beside the same in plain Rust.
//!
//! Keeps: what a measure runs is what the other crates prove.
//! Never: measures anything without arguments: then it says which measures there are and ends.
//! Callers rely on: each line on standard error is a name, how much was done, the nanoseconds, and what it answered.
//!
//! Start at `measure.rt`, what can be asked for; `writes.rt` has the three measures that take writes through a coordinator and its shard. Those of values and tables
//! are in `measures`.
#![tactic(auto)]

mod appends;
mod checkpoints;
mod clearing;
mod flush;
mod measure;
mod reopening;
mod steps;
mod touches;
mod writes;

use measure::Measure;
use std::alloc::Global;
use std::env;
use std::process::ExitCode;
use std::rt::Runtime;
use std::sync::Wait;
use std::thread::Threads;

// The status if the words name no measure, or a measure failed.
const FAILED: u8 = 1;

fn main(rt: HostRuntime) -> ExitCode {
    let Ok(args) = env::args(&rt) else {
        return ExitCode::from(FAILED);
    };
    let Ok(words) = args.collect::<Vec<String>>(rt.alloc()) else {
        return ExitCode::from(FAILED);
    };
    let done = match appends::count_of(&words) {
        Some(count) => append(&rt, rt.alloc(), count),
        None => run(&rt, rt.alloc(), &words),
    };
    match done {
        Ok(()) => ExitCode::SUCCESS,
        Err(error) => {
            // A text that can't be printed changes nothing of the status.
            let _ = eprintln!(rt; "bench: {error}");
            ExitCode::from(FAILED)
        }
    }
}

// The one measure over a file of the system, which only the host's own runtime opens.
fn append(rt: &HostRuntime, alloc: Global, count: u32) -> anyhow::Result<()> {
    appends::measure(rt, alloc, count)?;
    Ok(())
}

// The words of the command line, the program's own first.
fn run<R: Runtime + Threads + Wait + Sync>(
    rt: &R,
    alloc: Global,
    words: &[String],
) -> anyhow::Result<()> {
    if words.len() <= 1 {
        println!(rt;
            "measures: texts COUNT, codec ROUNDS, flush RECORDS, versions ROWS, holds WRITES, prepares WRITES, write-path WRITES, crowd USERS, decisions GROUPS, log DECISIONS, opening DECISIONS, records WRITES, shard-opening WRITES, checkpoint ROWS, lines-write COUNT, lines-read COUNT, lines-check COUNT, lines-watch COUNT, appends COUNT, pairs-by-one COUNT, pairs-by-two COUNT, latest-by-one, latest-by-four, called-by-one, called-by-four"
        )?;
        return Ok(());
    }
    match Measure::read(words) {
        Some((measure, count)) => measure.run(rt, alloc, count)?,
        None => anyhow::bail!("a measure is wanted, with its count where it takes one"),
    }
    Ok(())
}
