// What a row does with a store, and what comes of it.
ghost use Rattle.std.specs.Prelude.{IfOk};
ghost use Rattle.calls.specs.Flows.{IfNext};
ghost use Rattle.care_flow.specs.Cares.{IsThere};

use crate::asking::Asking;
use crate::caring::{begin_care, end_of, turn_all};
use crate::logging::{log_care, log_write};
use crate::steps::MOST_TURNS;
use crate::stores::Store;
use crate::texts::write;
use crate::turning::Turning;
use calls::{CoordinatorCall, NodeCall, Progress, ShardCall, Told};
use care_flow::{CareEnd, CareFlow};
use commit_flow::WriteEnd;
use device::{Device, Tear};
use names::{Care, NodeName};
use std::alloc::{AllocError, Global};
use tuples::{Refusal, Request, Write};

/// A store, its flows, and what they did.
#[derive(Drop)]
pub(crate) struct Playing<D: Device> {
    store: Store<D>,
    writes: Vec<Turning>,
    questions: Vec<Asking>,
    told: Told,
    log: String,
}

impl<D: Device> Playing<D> {
    /// Begins the write of this line, which makes no call yet.
    pub(crate) fn start(&mut self, alloc: Global, line: &str) -> Result<(), Refusal> {
        self.begin_write(alloc, write(alloc, line)?)
    }

    pub(crate) fn begin_write(&mut self, alloc: Global, write: Write) -> Result<(), Refusal> {
        self.writes.reserve(1)?;
        let flow = Turning::new(alloc, write)?;
        self.writes.push_reserved(flow);
        Ok(())
    }

    /// The write that was begun last makes this many calls, which are not logged.
    pub(crate) fn turn_quietly(&mut self, turns: usize) {
        if let Some(flow) = self.writes.last_mut() {
            for _ in 0..turns {
                if flow.turn(&mut self.store, &mut self.told).is_none() {
                    return;
                }
            }
        }
    }

    /// The write makes this many calls.
    pub(crate) fn turn(&mut self, flow: usize, turns: usize) -> Result<(), Refusal> {
        let Some(flow) = self.writes.get_mut(flow) else {
            return Err(Refusal::BadRequest);
        };
        for _ in 0..turns {
            match flow.turn(&mut self.store, &mut self.told) {
                Some(named) => named.write_to(&mut self.log)?,
                None => return Ok(()),
            }
        }
        Ok(())
    }

    /// The write goes to its end.
    pub(crate) fn run(&mut self, flow: usize) -> Result<(), Refusal> {
        self.turn(flow, MOST_TURNS)?;
        let Some(flow) = self.writes.get(flow) else {
            return Err(Refusal::BadRequest);
        };
        let end = flow.end();
        if let Some(WriteEnd::Refused(refusal)) = end {
            // Each refusal of a write was in a reply.
            if !self.told.has(refusal) && !self.store.refuses(refusal) {
                self.log.push_str("untold, ")?;
            }
        }
        log_write(&mut self.log, end)
    }

    pub(crate) fn cancel(&mut self, flow: usize) {
        if let Some(flow) = self.writes.get_mut(flow) {
            flow.cancel();
        }
    }

    /// A care goes to its end.
    pub(crate) fn care(&mut self, alloc: Global, care: Care) -> Result<(), Refusal> {
        let Some(flow) = begin_care(alloc, care) else {
            return Err(Refusal::BadRequest);
        };
        let left = self.turn_care(flow, MOST_TURNS)?;
        log_care(&mut self.log, end_of(left))
    }

    /// A care makes this many calls; then the node is opened again, and the care goes to its end.
    pub(crate) fn care_across(
        &mut self,
        alloc: Global,
        care: Care,
        turns: usize,
        node: NodeName,
    ) -> Result<(), Refusal> {
        let Some(flow) = begin_care(alloc, care) else {
            return Err(Refusal::BadRequest);
        };
        let left = self.turn_across(flow, turns, node)?;
        log_care(&mut self.log, end_of(left))
    }

    fn turn_across(
        &mut self,
        flow: CareFlow,
        turns: usize,
        node: NodeName,
    ) -> Result<Progress<CareFlow, CareEnd>, AllocError>
        requires { IsThere 2 flow }
    {
        match self.turn_care(flow, turns)? {
            Progress::Next(flow) => {
                self.store.restart(node);
                self.turn_care(flow, MOST_TURNS)
            }
            Progress::Ended(end) => {
                self.store.restart(node);
                Ok(Progress::Ended(end))
            }
        }
    }

    fn turn_care(
        &mut self,
        flow: CareFlow,
        turns: usize,
    ) -> Result<Progress<CareFlow, CareEnd>, AllocError>
        requires { IsThere 2 flow }
        ensures { IfOk result (λ left. IfNext left (IsThere 2)) }
    {
        turn_all(flow, turns, &mut self.store, &mut self.told, &mut self.log)
    }

    /// Begins a read, a check or a watch, which makes no call yet.
    pub(crate) fn begin(&mut self, alloc: Global, request: Request) -> Result<(), Refusal> {
        self.keep(Asking::new(alloc, request)?)
    }

    fn keep(&mut self, question: Asking) -> Result<(), Refusal> {
        match self.questions.reserve(1) {
            Ok(()) => {
                self.questions.push_reserved(question);
                Ok(())
            }
            Err(refused) => {
                drop(question);
                Err(refused.into())
            }
        }
    }

    /// The one that was begun last makes this many calls.
    pub(crate) fn ask(&mut self, turns: usize) -> Result<(), Refusal> {
        let Some(question) = self.questions.pop() else {
            return Err(Refusal::BadRequest);
        };
        let log = Some(&mut self.log);
        let left = question.turn_all(turns, &mut self.store, &mut self.told, log)?;
        self.keep(left)
    }

    /// The one that was begun last makes all its calls, which are not logged.
    pub(crate) fn ask_quietly(&mut self) -> Result<(), Refusal> {
        let Some(question) = self.questions.pop() else {
            return Err(Refusal::BadRequest);
        };
        let left = question.turn_all(MOST_TURNS, &mut self.store, &mut self.told, None)?;
        self.keep(left)
    }

    /// The one that was begun last goes to its end.
    pub(crate) fn end(&mut self, alloc: Global) -> Result<(), Refusal> {
        self.ask(MOST_TURNS)?;
        let Some(question) = self.questions.pop() else {
            return Err(Refusal::BadRequest);
        };
        question.log_end(alloc, &mut self.log)
    }

    /// Flushes the node; no flow asks for it.
    pub(crate) fn flush(&mut self, node: NodeName) {
        let call = match node {
            NodeName::Coordinator => NodeCall::Coordinator(CoordinatorCall::Flush),
            NodeName::Shard(shard) => NodeCall::Shard(shard, ShardCall::Flush),
        };
        self.store.ask(call, &mut self.told).leave();
    }

    /// Opens the node again, over what its devices are found with.
    pub(crate) fn restart(&mut self, node: NodeName) {
        self.store.restart(node);
    }

    /// The n-th call from now on of the node's first device fails, and this is found then.
    pub(crate) fn fail(&mut self, node: NodeName, n: u64, tear: Tear) {
        self.store.fail(node, n, tear);
    }

    /// The n-th call from now on is not made, and this refusal is its answer.
    pub(crate) fn refuse(&mut self, n: usize, refusal: Refusal) -> Result<(), Refusal> {
        Ok(self.store.refuse(n, refusal)?)
    }

    fn steps(&mut self, alloc: Global, row: &str) -> Result<(), Refusal> {
        for line in row.split('\n') {
            self.step(alloc, line)?;
        }
        Ok(())
    }

    fn into_log(self) -> String {
        let Playing {
            store,
            writes,
            questions,
            told: _,
            log,
        } = self;
        drop(store);
        drop(writes);
        drop(questions);
        log
    }
}

/// The calls that the flows of a row made, and how each that was run to its end ended.
pub(crate) fn play<D: Device>(
    alloc: Global,
    devices: Vec<D>,
    row: &str,
) -> Result<String, Refusal> {
    let mut playing = Playing {
        store: Store::open(alloc, devices),
        writes: Vec::new(alloc),
        questions: Vec::new(alloc),
        told: Told::new(),
        log: String::new(alloc),
    };
    let played = playing.steps(alloc, row);
    let log = playing.into_log();
    played?;
    Ok(log)
}
