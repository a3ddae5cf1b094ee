//! What the checks run besides the program itself, in one program: rows of flows, images that nodes are opened over, request lines, scripts over files and over
//! disks that fail, and threads that share a store.
//!
//! Keeps: the words say which part is run, over standard input; a part that is long is a crate of its own (`flow_rows`, `threads_run`), and each says what it does.
//! Never: promises anything but its status; and one program is linked and compiled, not one per part.
//! Callers rely on: status 0 if the part was run to its end, 1 if it was not, and 2 if the words name no part. With the word `parts` alone the input has several
//! parts, each after a line `== ` and the words of its own, and the status is 0 if all of them were run to their end.
//!
//! Start at `part.rt`, what can be asked for.
#![tactic(auto)]

mod images;
mod part;
mod script;
mod session;

use part::Part;
use std::io::Read;
use std::process::ExitCode;
use std::rt::Runtime;
use std::sync::Wait;
use std::thread::Threads;
use std::{env, io};

// The status if a part was not run to its end.
const FAILED: u8 = 1;

// The status if the words name no part.
const USAGE: u8 = 2;

// What each part of the input begins with, instead of the words of the command line.
const HEADING: &str = "== ";

fn main(rt: HostRuntime) -> ExitCode {
    let Ok(args) = env::args(&rt) else {
        return ExitCode::from(FAILED);
    };
    let Ok(words) = args.collect::<Vec<String>>(rt.alloc()) else {
        return ExitCode::from(FAILED);
    };
    match run_words(&rt, &rt, &words) {
        Ok(USAGE) => ExitCode::from(tell_usage(&rt)),
        Ok(status) => ExitCode::from(status),
        Err(_) => ExitCode::from(FAILED),
    }
}

// Runs what the words ask for, the name of the program first, and gives the status.
fn run_words<R: Runtime + Threads + Wait + Sync>(
    rt: &R,
    files: &HostRuntime,
    words: &[String],
) -> io::Result<u8> {
    let mut asked = Vec::new(files.alloc());
    for word in words.iter().skip(1) {
        asked.push(word.as_str())?;
    }
    if let ["parts"] = *asked.as_slice() {
        let text = io::read_to_string(files.alloc(), files.reader())?;
        return run_parts(rt, files, text.as_str());
    }
    run_part(rt, files, &asked, &mut files.reader())
}

fn run_part<R: Runtime + Threads + Wait + Sync, I: Read>(
    rt: &R,
    files: &HostRuntime,
    words: &[&str],
    reader: &mut I,
) -> io::Result<u8> {
    match Part::read(words) {
        Some(part) => part.run(rt, files, reader),
        None => Ok(USAGE),
    }
}

// Runs the parts of the text up to the first one that does not go to its end.
fn run_parts<R: Runtime + Threads + Wait + Sync>(
    rt: &R,
    files: &HostRuntime,
    text: &str,
) -> io::Result<u8> {
    for part in text.split(HEADING) {
        let status = run_headed(rt, files, part)?;
        if status != 0 {
            return Ok(status);
        }
    }
    Ok(0)
}

// Runs a part of the text, if there is one: its words, and after a line feed its input.
fn run_headed<R: Runtime + Threads + Wait + Sync>(
    rt: &R,
    files: &HostRuntime,
    part: &str,
) -> io::Result<u8> {
    let Some((heading, given)) = part.split_once('\n') else {
        return Ok(0);
    };
    let mut words = Vec::new(files.alloc());
    for word in heading.split(' ') {
        words.push(word)?;
    }
    run_part(rt, files, &words, &mut given.as_bytes())
}

fn tell_usage(rt: &HostRuntime) -> u8 {
    // A text that can't be printed does not change the status.
    let _ = eprintln!(rt;
        "usage: harness flows, images, session, files FOLDER STORE SHARDS, failing DISK CALL BYTE, threads SECONDS SEED, two-callers, two-writers, or parts"
    );
    USAGE
}
