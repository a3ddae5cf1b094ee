// What a server that may begin has, and what it tells of it.
use crate::found::Found;
use crate::stamp::Stamp;
use locked::LookedOver;
use settings::ServeSettings;
use std::fmt;
use std::io::Eprint;
use std::net::TcpListener;
use std::time::{Clock, Duration, Instant};

/// The address that was bound, and how far the nodes of the store were.
#[derive(Drop)]
pub(crate) struct Start {
    pub listener: TcpListener,
    pub found: LookedOver,
}

// Which places can be read of a store that was found, or that it was made.
#[derive(Clone, Copy)]
struct Places {
    is_new: bool,
    horizon: u64,
    latest: u64,
}

impl fmt::Display for Places {
    fn fmt<W: fmt::Write>(&self, f: &mut fmt::Formatter<W>) -> fmt::Result {
        let (horizon, latest) = (self.horizon, self.latest);
        if self.is_new {
            return write!(f, "a new store");
        }
        write!(f, "places {horizon} to {latest}")
    }
}

// How much memory the server keeps for answers, and how far back it can be read.
#[derive(Clone, Copy)]
struct Budgets {
    answer_mib: u64,
    window: u64,
    window_mib: u64,
}

impl fmt::Display for Budgets {
    fn fmt<W: fmt::Write>(&self, f: &mut fmt::Formatter<W>) -> fmt::Result {
        let (answers, places, window) = (self.answer_mib, self.window, self.window_mib);
        write!(
            f,
            "answers up to {answers} MiB, window up to {places} places or {window} MiB"
        )
    }
}

// If the clock can't be read, it is not known.
fn since(rt: &impl Clock, began: Option<Instant>) -> Option<Duration> {
    began?.elapsed(rt).ok()
}

/// A line on standard error for who keeps the server running: the folder, the shards, the places that can be read or that the store is new, how long the
/// openings took, how many bytes they read from how many files, and the budgets of memory. Nothing depends on it, so that it can't be printed keeps nobody from being served.
pub(crate) fn tell_start(
    rt: &(impl Eprint + Clock),
    settings: &ServeSettings,
    start: &Start,
    found: Found,
    began: Option<Instant>,
) {
    let (dir, shards) = (settings.dir.as_str(), settings.shards.count());
    // Two for each shard and two for the coordinator.
    let files = 2 * (u16::from(shards) + 1);
    let bytes = found.bytes;
    let places = Places {
        is_new: found.is_new,
        horizon: start.found.horizon,
        latest: start.found.latest,
    };
    let budgets = Budgets {
        answer_mib: settings.answer_mib,
        window: settings.window,
        window_mib: settings.window_mib,
    };
    let stamp = Stamp::now(rt);
    let _ = match since(rt, began) {
        Some(took) => {
            let (seconds, milliseconds) = (took.as_secs(), took.subsec_millis());
            eprintln!(rt;
                "zanstore: {stamp}{dir}: {shards} shards, {places}, opened in {seconds}.{milliseconds:03} s from {bytes} bytes of {files} files; {budgets}"
            )
        }
        None => {
            eprintln!(rt;
                "zanstore: {stamp}{dir}: {shards} shards, {places}, opened from {bytes} bytes of {files} files; {budgets}"
            )
        }
    };
}
