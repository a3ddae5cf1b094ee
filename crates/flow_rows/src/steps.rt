// The steps of a row, a line each. Write flows are numbered in the order in which they were begun, from 0 on; of the other flows a step names
// the one that was begun last.
use crate::plays::Playing;
use crate::texts::{care, command, flushed, number, refusal, request, two_numbers};
use device::Device;
use names::NodeName;
use script_text::Command;
use std::alloc::Global;
use tuples::{Refusal, Request};

/// More turns than any flow of a row makes, so that one that is not at its end after them has none.
pub(crate) const MOST_TURNS: usize = 20_000;

// The node that a line of a script opens again.
fn restarted(alloc: Global, line: &str) -> Result<NodeName, Refusal> {
    let command = command(alloc, line)?;
    let node = match &command {
        Command::Restart(node) => Ok(*node),
        _ => Err(Refusal::BadRequest),
    };
    drop(command);
    node
}

impl<D: Device> Playing<D> {
    /// Does what the line says; `BadRequest` if it says nothing.
    pub(crate) fn step(&mut self, alloc: Global, line: &str) -> Result<(), Refusal> {
        let (word, rest) = line.split_once(' ').unwrap_or((line, ""));
        if let Some(done) = self.step_write(alloc, word, rest) {
            return done;
        }
        if let Some(done) = self.step_question(alloc, word, rest) {
            return done;
        }
        if let Some(done) = self.step_nodes(alloc, word, rest) {
            return done;
        }
        self.carry_out(alloc, line)
    }

    // `start write ..` begins a write; `quiet N` has the write that was begun last make N calls, which are not logged; `turn F N` has a write
    // make N, `run F` goes to its end, and `cancel F` cancels it.
    fn step_write(&mut self, alloc: Global, word: &str, rest: &str) -> Option<Result<(), Refusal>> {
        if word == "start" {
            return Some(self.start(alloc, rest));
        }
        if word == "quiet" {
            return Some(number(rest).map(|turns| self.turn_quietly(turns)));
        }
        if word == "turn" {
            return Some(self.turn_by(rest));
        }
        if word == "run" {
            return Some(self.run_by(rest));
        }
        if word == "cancel" {
            return Some(number(rest).map(|flow| self.cancel(flow)));
        }
        None
    }

    fn turn_by(&mut self, rest: &str) -> Result<(), Refusal> {
        let (flow, turns) = two_numbers(rest)?;
        self.turn(flow, turns)
    }

    fn run_by(&mut self, rest: &str) -> Result<(), Refusal> {
        self.run(number(rest)?)
    }

    // `begin read ..`, of a check and a watch too; `step N` has it make N calls, and `end` goes to its end. `only read ..` goes to its end,
    // and its calls are not logged.
    fn step_question(
        &mut self,
        alloc: Global,
        word: &str,
        rest: &str,
    ) -> Option<Result<(), Refusal>> {
        if word == "begin" {
            return Some(self.begin_by(alloc, rest));
        }
        if word == "step" {
            return Some(self.ask_by(rest));
        }
        if word == "end" {
            return Some(self.end(alloc));
        }
        if word == "only" {
            return Some(self.answer_by(alloc, rest));
        }
        None
    }

    fn begin_by(&mut self, alloc: Global, rest: &str) -> Result<(), Refusal> {
        self.begin(alloc, request(alloc, rest)?)
    }

    fn answer_by(&mut self, alloc: Global, rest: &str) -> Result<(), Refusal> {
        self.begin_by(alloc, rest)?;
        self.ask_quietly()?;
        self.end(alloc)
    }

    fn ask_by(&mut self, rest: &str) -> Result<(), Refusal> {
        self.ask(number(rest)?)
    }

    // `flushed flush c` makes that node durable, and no flow asks for it; `across N restart 1, learn 1` has a care make N calls, opens the
    // node again, and has the care go on to its end; `refuse N Full` has the N-th call from now on not made, and answered so.
    fn step_nodes(&mut self, alloc: Global, word: &str, rest: &str) -> Option<Result<(), Refusal>> {
        if word == "flushed" {
            return Some(self.flush_by(alloc, rest));
        }
        if word == "across" {
            return Some(self.across_by(alloc, rest));
        }
        if word == "refuse" {
            return Some(self.refuse_by(rest));
        }
        None
    }

    fn flush_by(&mut self, alloc: Global, rest: &str) -> Result<(), Refusal> {
        let node = flushed(alloc, rest)?;
        self.flush(node);
        Ok(())
    }

    fn across_by(&mut self, alloc: Global, rest: &str) -> Result<(), Refusal> {
        let (turns, rest) = rest.split_once(' ').ok_or(Refusal::BadRequest)?;
        let (restart, rest) = rest.split_once(", ").ok_or(Refusal::BadRequest)?;
        let node = restarted(alloc, restart)?;
        self.care_across(alloc, care(alloc, rest)?, number(turns)?, node)
    }

    fn refuse_by(&mut self, rest: &str) -> Result<(), Refusal> {
        let (n, name) = rest.split_once(' ').ok_or(Refusal::BadRequest)?;
        self.refuse(number(n)?, refusal(name)?)
    }

    // A line of a script goes to its end.
    fn carry_out(&mut self, alloc: Global, line: &str) -> Result<(), Refusal> {
        match command(alloc, line)? {
            Command::Ask(request) => self.answer(alloc, request),
            other => {
                let done = self.tend(alloc, &other);
                drop(other);
                done
            }
        }
    }

    // A write goes to its end unlogged, and a question logged.
    fn answer(&mut self, alloc: Global, request: Request) -> Result<(), Refusal> {
        match request {
            Request::Write(write) => {
                self.begin_write(alloc, write)?;
                self.turn_quietly(MOST_TURNS);
                Ok(())
            }
            question => {
                self.begin(alloc, question)?;
                self.end(alloc)
            }
        }
    }

    // A care goes to its end, logged; a node is opened again, or its first device is set to fail.
    fn tend(&mut self, alloc: Global, command: &Command) -> Result<(), Refusal> {
        match command {
            Command::Care(care) => self.care(alloc, *care),
            Command::Restart(node) => {
                let node = *node;
                self.restart(node);
                Ok(())
            }
            Command::Fail(failure) => {
                self.fail(failure.node, failure.n, failure.tear);
                Ok(())
            }
            _ => Err(Refusal::BadRequest),
        }
    }
}
