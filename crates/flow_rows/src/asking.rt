// Reads, checks and watches of a store, turn by turn.
ghost use Rattle.std.specs.Prelude.{◌≡◌};

use crate::call_names::Named;
use crate::logging::{log_check, log_none, log_read, log_watch};
use crate::stores::{Store, shards};
use crate::turning::turn;
use answer_flow::{CheckEnd, CheckFlow, ReadEnd, ReadFlow, WatchEnd, WatchFlow};
use calls::{Progress, Told};
use device::Device;
use std::alloc::Global;
use tuples::{Freshness, Refusal, Request, Tuple, Userset};

/// A read of a store of two shards.
#[derive(Drop)]
pub(crate) struct Reading {
    flow: ReadFlow,
    ghost of_two: { flow.shards ≡ 2 },
}

impl Reading {
    fn turn<D: Device>(self, store: &mut Store<D>, told: &mut Told) -> (Named, Asking) {
        let (named, left) = turn(self.flow, store, told);
        match left {
            Progress::Next(flow) => (named, Asking::Read(Reading { flow })),
            Progress::Ended(done) => (named, Asking::HasRead(done.end)),
        }
    }
}

/// A check of a store of two shards.
#[derive(Drop)]
pub(crate) struct Checking {
    flow: CheckFlow,
    ghost of_two: { flow.shards ≡ 2 },
}

impl Checking {
    fn new(alloc: Global, freshness: Freshness, tuple: Tuple) -> Result<Checking, Refusal> {
        let Tuple {
            object,
            relation,
            user,
        } = tuple;
        let userset = Userset { object, relation };
        let flow = CheckFlow::new(alloc, shards(), freshness, &userset, user)?;
        Ok(Checking { flow })
    }

    fn turn<D: Device>(self, store: &mut Store<D>, told: &mut Told) -> (Named, Asking) {
        let (named, left) = turn(self.flow, store, told);
        match left {
            Progress::Next(flow) => (named, Asking::Check(Checking { flow })),
            Progress::Ended(done) => (named, Asking::HasChecked(done.end)),
        }
    }
}

fn turn_watch<D: Device>(
    flow: WatchFlow,
    store: &mut Store<D>,
    told: &mut Told,
) -> (Named, Asking) {
    let (named, left) = turn(flow, store, told);
    match left {
        Progress::Next(flow) => (named, Asking::Watch(flow)),
        Progress::Ended(end) => (named, Asking::HasWatched(end)),
    }
}

/// A question to a store of two shards, or how it ended.
#[derive(Drop)]
pub(crate) enum Asking {
    Read(Reading),
    Check(Checking),
    Watch(WatchFlow),
    HasRead(ReadEnd),
    HasChecked(CheckEnd),
    HasWatched(WatchEnd),
}

impl Asking {
    /// A write is not one.
    pub(crate) fn new(alloc: Global, request: Request) -> Result<Asking, Refusal> {
        match request {
            Request::Write(_) => Err(Refusal::BadRequest),
            Request::Read { freshness, sets } => {
                let flow = ReadFlow::new(alloc, shards(), freshness, sets);
                Ok(Asking::Read(Reading { flow }))
            }
            Request::Check { freshness, tuple } => {
                Ok(Asking::Check(Checking::new(alloc, freshness, tuple)?))
            }
            Request::Watch {
                from,
                limit,
                namespaces,
            } => Ok(Asking::Watch(WatchFlow::new(alloc, from, u64::from(limit), namespaces))),
        }
    }

    // The turn of one that waits.
    fn turn<D: Device>(self, store: &mut Store<D>, told: &mut Told) -> (Option<Named>, Asking) {
        let (named, left) = match self {
            Asking::Read(read) => read.turn(store, told),
            Asking::Check(check) => check.turn(store, told),
            Asking::Watch(watch) => turn_watch(watch, store, told),
            ended => return (None, ended),
        };
        (Some(named), left)
    }

    /// Makes this many of its calls, fewer if it ends before, and logs them if a log is handed in.
    pub(crate) fn turn_all<D: Device>(
        self,
        turns: usize,
        store: &mut Store<D>,
        told: &mut Told,
        log: Option<&mut String>,
    ) -> Result<Asking, Refusal> {
        let mut log = log;
        let mut question = self;
        for _ in 0..turns {
            let (named, left) = question.turn(store, told);
            question = left;
            match named {
                Some(named) => {
                    if let Some(log) = &mut log {
                        named.write_to(log)?;
                    }
                }
                None => return Ok(question),
            }
        }
        Ok(question)
    }

    /// How it ended.
    pub(crate) fn log_end(self, alloc: Global, log: &mut String) -> Result<(), Refusal> {
        match self {
            Asking::HasRead(end) => log_read(alloc, log, end),
            Asking::HasChecked(end) => log_check(log, end),
            Asking::HasWatched(end) => log_watch(log, end),
            Asking::Read(_) | Asking::Check(_) | Asking::Watch(_) => log_none(log),
        }
    }
}
