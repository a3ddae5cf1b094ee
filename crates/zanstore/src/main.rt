//! The program: a store over files that is served to those who connect, dumped, or carried over to another number of shards, a client of such a server, and a
//! store over disks in memory which runs scripts.
//!
//! Keeps: the first word says what is done: `serve`, `dump`, `reshard`, `call` or `sim`; words that name none of them are told what there is. Status 0 means that all was done and that what was asked for was written.
//! Never: looks at a request or a line, and owns no store: `server` serves one over files, `dumping` writes all tuples of one, `reshard` carries one over, `client` asks a server, and
//! `scripts` has a script carried out over a store of its own, and promises that this is one life of it.
//! Callers rely on: the status, 0 at the end of the script, of the requests or of the last connection, 1 if files, nodes, the address, a request, a read
//! or a write failed or there was no memory, 2 for a command line that can't be read.
//!
//! Start at `serve` of `server`, `dump_folder` of `dumping`, `reshard_folder` of `reshard`, `call` of `client` and `sim` of `scripts`; `settings` reads
//! the command line.
#![tactic(auto)]

use client::call;
use dumping::dump_folder;
use reshard::{Folders, reshard_folder};
use scripts::sim;
use server::serve;
use settings::{
    CallSettings, DumpSettings, ReshardSettings, ServeSettings, Settings, tell_of_program,
};
use std::net::{Net, TcpListener, TcpStream};
use std::process::ExitCode;
use std::rt::Runtime;
use std::sync::Wait;
use std::thread::Threads;
use std::{env, io};

mod standard;
mod timed;

use timed::timed;

// The status if the words of the command line can't be had.
const USAGE: u8 = 2;

// The status if the process can't be made safe.
const FAILED: u8 = 1;

fn main(rt: HostRuntime) -> ExitCode {
    if let Err(error) = standard::hold(&rt) {
        let _ = eprintln!(rt; "zanstore: /: {error}");
        return ExitCode::from(FAILED);
    }
    ExitCode::from(run(&rt, &rt))
}

// Does what the words of the command line say.
fn run<R>(rt: &R, host: &HostRuntime) -> u8
where
    R: Runtime + Net<Listener = TcpListener, Stream = TcpStream> + Threads + Wait + Sync,
{
    let Ok(args) = env::args(host) else {
        return USAGE;
    };
    let Ok(words) = args.collect::<Vec<String>>(host.alloc()) else {
        return USAGE;
    };
    run_words(rt, host, &words)
}

fn run_words<R>(rt: &R, host: &HostRuntime, words: &[String]) -> u8
where
    R: Runtime + Net<Listener = TcpListener, Stream = TcpStream> + Threads + Wait + Sync,
{
    if ServeSettings::are_for(words) {
        return run_server(rt, host, words);
    }
    if DumpSettings::are_for(words) {
        return run_dump(rt, host, words);
    }
    if ReshardSettings::are_for(words) {
        return run_reshard(rt, host, words);
    }
    if CallSettings::are_for(words) {
        return run_call(rt, host, words);
    }
    if Settings::are_for(words) {
        return run_script(host);
    }
    tell_of_program(host, words)
}

// Serves what the words ask for.
fn run_server<R>(rt: &R, files: &HostRuntime, words: &[String]) -> u8
where
    R: Runtime + Net<Listener = TcpListener, Stream = TcpStream> + Threads + Wait + Sync,
{
    match ServeSettings::read(files, words) {
        Ok(settings) => serve(rt, files, &settings),
        Err(status) => status,
    }
}

// Writes all tuples of the store that the words ask for.
fn run_dump<R>(rt: &R, files: &HostRuntime, words: &[String]) -> u8
where
    R: Runtime + Threads + Wait + Sync,
{
    match DumpSettings::read(files, words) {
        Ok(settings) => {
            let dir = settings.dir.as_str();
            timed(rt, dir, "being dumped", || {
                dump_folder(files, dir, settings.store, settings.shards, settings.at)
            })
        }
        Err(status) => status,
    }
}

// Carries the store over that the words ask for.
fn run_reshard<R>(rt: &R, files: &HostRuntime, words: &[String]) -> u8
where
    R: Runtime + Threads + Wait + Sync,
{
    match ReshardSettings::read(files, words) {
        Ok(settings) => timed(rt, settings.dir.as_str(), "being carried over", || {
            reshard_to(files, &settings)
        }),
        Err(status) => status,
    }
}

fn reshard_to(rt: &HostRuntime, settings: &ReshardSettings) -> u8 {
    let folders = Folders {
        dir: settings.dir.as_str(),
        to: settings.to.as_str(),
    };
    reshard_folder(
        rt,
        folders,
        settings.store,
        settings.shards,
        settings.new_shards,
    )
}

// Asks a server what the words ask for.
fn run_call<R: Net<Stream = TcpStream>>(net: &R, rt: &HostRuntime, words: &[String]) -> u8 {
    match CallSettings::read(rt, words) {
        Ok(settings) => call(net, rt, &settings),
        Err(status) => status,
    }
}

// Runs the script of standard input.
fn run_script(rt: &HostRuntime) -> u8 {
    let settings = match Settings::read(rt) {
        Ok(settings) => settings,
        Err(status) => return status,
    };
    let mut reader = rt.reader();
    let mut writer = io::writer(rt);
    sim(
        rt.alloc(),
        settings.store,
        settings.shards,
        &mut reader,
        &mut writer,
    )
}
