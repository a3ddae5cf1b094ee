// What each line of a script does with a store.
ghost use Rattle.std.specs.Prelude.{◌≡◌, ◌≤◌, ◌+◌, ◌⊎◌, ◌++◌, [], List, ℕ, IfErr, IfOk, OnErr, OnOk, length, vec_capacity, vec_len};
ghost use Rattle.script_text.specs.Causes.{Cause};
ghost use Rattle.script_text.specs.Lines.{Spells};
ghost use Rattle.script_text.specs.PrintedTexts.{refusal_line};
ghost use Rattle.scripts.specs.Answering.{Answers, Tries};
ghost use Rattle.scripts.specs.Refusing.{CarriesOutNot, line_room};
ghost use Rattle.scripts.specs.Scripts.{CarriesOut, IsAmong};

use crate::Store;
use crate::running::Running;
use script_text::{Command, Printed};
use std::alloc::{AllocError, Global};
use std::marker::Model;
use tuples::Refusal;

// Room for each text that is bounded: all but the rows of a read, the events of a watch, versions, and what became of writes in doubt.
const ROOM: usize = 128;

/// A script over a store: the flows that run in it under names.
#[derive(Drop)]
pub struct Script<S: Store> {
    alloc: Global,
    id: u64,
    running: Running<S>,
}

impl<S: Store> Model for Script<S> {
    ghost use Rattle.scripts.specs.Scripts.{ScriptView};

    ghost Value = { ScriptView S };

    ghost view = { λ s. record { id = s.id; running = s.running } };
}

impl<S: Store> Script<S> {
    /// A script over a store with this id, in which no flow runs.
    pub fn new(alloc: Global, id: u64, store: S) -> Script<S>
        ensures { result ≡ record { id = id; running = record { store = store; names = []; slots = [] } } }
    {
        Script {
            alloc,
            id,
            running: Running::new(alloc, store),
        }
    }

    /// Carries out one line, and appends what it prints. An `Err` is for lack of memory, and then nothing was done.
    pub fn line(&mut self, line: &[u8], out: &mut Vec<u8>) -> Result<(), AllocError>
        ensures ok { OnOk result ((text : List ℕ) × Answers S.takes S.nexts S.shows S.sets S.reshards S.shards_of line.now self.old text self.new × (out.new.items ≡ out.old.items ++ text)) }
        ensures err { OnErr result ((self.new ≡ self.old) × (out.new.items ≡ out.old.items)) }
    {
        out.reserve(ROOM)?;
        self.answer(line, out);
        Ok(())
    }

    // What the line asks for.
    fn parse(&self, line: &[u8]) -> Result<Command, Refusal>
        ensures ok { IfOk result (Spells self.now.id (S.shards_of self.now.running.store) self.now.running.names line.now) }
        ensures err { IfErr result (Cause self.now.id (S.shards_of self.now.running.store) self.now.running.names line.now) }
    {
        self.running.parse(self.alloc, self.id, line)
    }

    fn carry_out(&mut self, command: Command, out: &mut Vec<u8>) -> Result<(), AllocError>
        requires among { IsAmong command (length self.old.running.names) }
        requires room { vec_len out.old + line_room ≤ vec_capacity out.old }
        ensures same { self.new.id ≡ self.old.id }
        ensures ok { OnOk result ((text : List ℕ) × CarriesOut S.takes S.nexts S.shows S.sets S.reshards S.shards_of self.old.id command self.old.running text self.new.running × (out.new.items ≡ out.old.items ++ text)) }
        ensures err { OnErr result (out.new.items ≡ out.old.items) }
        ensures refused { OnErr result (CarriesOutNot S.takes S.nexts S.shows self.old.id command self.old.running self.new.running) }
        ensures capacity { vec_capacity out.old ≤ vec_capacity out.new }
    {
        self.running.carry_out(self.id, command, out)
    }

    // Carries the command out, or reports that memory was refused.
    fn try_out(&mut self, command: Command, out: &mut Vec<u8>)
        requires among { IsAmong command (length self.old.running.names) }
        requires room { vec_len out.old + line_room ≤ vec_capacity out.old }
        ensures same { self.new.id ≡ self.old.id }
        ensures told { (text : List ℕ) × Tries S.takes S.nexts S.shows S.sets S.reshards S.shards_of self.old.id command self.old.running text self.new.running × (out.new.items ≡ out.old.items ++ text) }
    {
        match self.carry_out(command, out) {
            Ok(()) => {}
            Err(AllocError) => refuse(Refusal::NoMemory, out),
        }
    }

    fn answer(&mut self, line: &[u8], out: &mut Vec<u8>)
        requires { vec_len out.old + line_room ≤ vec_capacity out.old }
        ensures { (text : List ℕ) × Answers S.takes S.nexts S.shows S.sets S.reshards S.shards_of line.now self.old text self.new × (out.new.items ≡ out.old.items ++ text) }
    {
        match self.parse(line) {
            Err(refusal) => refuse(refusal, out),
            Ok(command) => self.try_out(command, out),
        }
    }
}

// Prints a refusal; there is room for it.
fn refuse(refusal: Refusal, out: &mut Vec<u8>)
    requires { vec_len out.old + line_room ≤ vec_capacity out.old }
    ensures { out.new.items ≡ out.old.items ++ refusal_line refusal }
{
    // It names no place, so it is the same at every store.
    match Printed::Refused(refusal).write_to(0, out) {
        Ok(()) => {}
        Err(_) => unreachable!(),
    }
}
