// Lines on standard error while something keeps a server from serving.
use crate::down::DownNodes;
use crate::hanging::Hanging;
use crate::share::{Share, tell_passed};
use crate::stamp::Stamp;
use files::Pulse;
use serving::Report;
use std::alloc::Global;
use std::io::{self, Eprint};
use std::sync::Arc;
use std::time::{Clock, Duration, Instant};

const MINUTE_SECONDS: u64 = 60;

// When something was told that lasts: it is told again once a minute.
#[derive(Drop)]
struct Minutely {
    last: Option<Instant>,
}

impl Minutely {
    fn new() -> Minutely {
        Minutely { last: None }
    }

    // Whether it is to be told now, for which it then counts as told. It never is if the clock can't be read.
    fn is_due(&mut self, clock: &impl Clock) -> bool {
        let Ok(now) = Instant::now(clock) else {
            return false;
        };
        if let Some(last) = self.last {
            if now.duration_since(last) < Duration::from_secs(MINUTE_SECONDS) {
                return false;
            }
        }
        self.last = Some(now);
        true
    }
}

/// Tells the operator what keeps the server from serving, and again each minute while that lasts. Nothing depends on a line, so that it can't be
/// printed keeps nobody from being served.
#[derive(Drop)]
pub(crate) struct Reporter<'a, R: Eprint> {
    rt: &'a R,
    down: &'a DownNodes,
    ends_when_down: bool,
    crowded: Minutely,
    refused: Minutely,
    // as the one who found it told it
    told_down: Minutely,
    hanging: Hanging<'a>,
    share: &'a Share,
    has_told_passed: bool,
}

impl<'a, R: Eprint> Reporter<'a, R> {
    /// Nothing was told so far. It looks at these files, two for each node, and whether a request passed the share of its worker.
    pub(crate) fn new(
        rt: &'a R,
        down: &'a DownNodes,
        ends_when_down: bool,
        files: &'a [Arc<Pulse, Global>],
        share: &'a Share,
    ) -> Reporter<'a, R> {
        Reporter {
            rt,
            down,
            ends_when_down,
            crowded: Minutely::new(),
            refused: Minutely::new(),
            told_down: Minutely::new(),
            hanging: Hanging::new(files),
            share,
            has_told_passed: false,
        }
    }
}

impl<'a, R: Eprint + Clock> Report for Reporter<'a, R> {
    fn crowded(&mut self, workers: usize, waiting: u64) {
        if self.crowded.is_due(self.rt) {
            let stamp = Stamp::now(self.rt);
            let _ = eprintln!(self.rt;
                "zanstore: {stamp}{workers} workers are taken, {waiting} connections wait"
            );
        }
    }

    fn refused(&mut self, error: &io::Error) {
        if self.refused.is_due(self.rt) {
            let stamp = Stamp::now(self.rt);
            let _ = eprintln!(self.rt;
                "zanstore: {stamp}no connection can be taken for now: {error}"
            );
        }
    }

    fn tick(&mut self) -> io::Result<()> {
        self.hanging.look(self.rt);
        if !self.has_told_passed && self.share.is_passed() {
            self.has_told_passed = true;
            tell_passed(self.rt, self.share);
        }
        if !self.down.are_any() {
            return Ok(());
        }
        if self.ends_when_down {
            return Err(io::Error::other("ended, since a node is down"));
        }
        let is_known = self.told_down.last.is_some();
        if self.told_down.is_due(self.rt) && is_known {
            self.down.tell(self.rt);
        }
        Ok(())
    }
}
