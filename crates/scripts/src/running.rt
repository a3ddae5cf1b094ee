// A store, and the flows that run in it under names.
ghost use Rattle.std.specs.Prelude.{◌≡◌, ◌<◌, ◌≤◌, ◌+◌, ◌++◌, [], List, ℕ, IfErr, IfOk, OnOk, OnErr, Option, length, vec_capacity, vec_len};
ghost use Rattle.std.specs.List.{remove};
ghost use Rattle.cluster.specs.declared.event.What.{What as AnyWhat};
ghost use Rattle.cluster.specs.declared.step.Step.TheVariants as any_step;
ghost use Rattle.script_text.specs.Causes.{Cause};
ghost use Rattle.script_text.specs.Lines.{Spells};
ghost use Rattle.scripts.specs.Refusing.{CarriesOutNot, HandlesNot, IsLong, StartsNot, line_room};
ghost use Rattle.scripts.specs.Scripts.{
  CarriesOut,
  Handles,
  IsAmong,
  KeepsFlows,
  ReshardsTo,
  Shows,
  Starts,
  Tells,
  TellsCancel,
};
ghost use Rattle.scripts.specs.Telling.{set_line, told_text};

use crate::Store;
use crate::going::{cancel, go};
use crate::printing::{print_resharded, print_told};
use crate::serving::{print_unbegun, serve};
use cluster::{Step, What};
use names::NodeName;
use script_text::{Command, Failure, Handling, Name, Printed};
use std::alloc::{AllocError, Global};
use std::marker::Model;
use tuples::{Refusal, Shards};

// Room for what became of one write that was in doubt. A flow that finds out makes a call for each.
const RESOLVED: usize = 80;

/// A store, and the flows that run in it under names, each with its slot.
#[derive(Drop)]
pub(crate) struct Running<S: Store> {
    pub(crate) store: S,
    pub(crate) names: Vec<Name>,
    // the slot of each of them
    pub(crate) slots: Vec<usize>,
}

impl<S: Store> Model for Running<S> {
    ghost use Rattle.std.specs.Prelude.{◌≡◌, length};
    ghost use Rattle.scripts.specs.Scripts.{RunningView};

    ghost Value = { RunningView S };

    ghost view = { λ r. record { store = r.store; names = r.names.items; slots = r.slots.items } };

    ghost invariant = { λ r. length r.names.items ≡ length r.slots.items };
}

impl<S: Store> Running<S> {
    /// No flow runs.
    pub(crate) fn new(alloc: Global, store: S) -> Running<S>
        ensures { result ≡ record { store = store; names = []; slots = [] } }
    {
        Running {
            store,
            names: Vec::new(alloc),
            slots: Vec::new(alloc),
        }
    }
}

impl<S: Store> Running<S> {
    // A flow begins under the name.
    fn start(
        &mut self,
        id: u64,
        name: Name,
        first: Step,
        out: &mut Vec<u8>,
    ) -> Result<(), AllocError>
        requires room { vec_len out.old + line_room ≤ vec_capacity out.old }
        ensures ok { OnOk result ((text : List ℕ) × Starts S.takes S.nexts id name first self.old text self.new × (out.new.items ≡ out.old.items ++ text)) }
        ensures err { OnErr result (out.new.items ≡ out.old.items) }
        ensures refused { OnErr result (StartsNot S.takes S.nexts id name first self.old self.new) }
        ensures capacity { vec_capacity out.old ≤ vec_capacity out.new }
    {
        let (Ok(()), Ok(())) = (self.names.reserve(1), self.slots.reserve(1)) else {
            drop(name);
            drop(first);
            return Err(AllocError);
        };
        match self.store.take(first) {
            Ok(Some(What::Began(slot))) => {
                let printed = Printed::Started(name.as_bytes()).write_to(id, out);
                self.names.push_reserved(name);
                self.slots.push_reserved(slot);
                printed
            }
            Ok(told) => {
                drop(name);
                print_unbegun(id, told, out)
            }
            Err(error) => {
                drop(name);
                Err(error)
            }
        }
    }

    // The flow has ended: its name is free.
    fn forget(&mut self, flow: usize)
        requires { flow < length self.old.names }
        ensures { self.new ≡ record { store = self.old.store; names = remove self.old.names flow; slots = remove self.old.slots flow } }
    {
        self.names.remove(flow);
        self.slots.remove(flow);
    }

    // Prints how far the flow is.
    fn tell(
        &mut self,
        id: u64,
        flow: usize,
        told: Option<What>,
        out: &mut Vec<u8>,
    ) -> Result<(), AllocError>
        requires flow { flow < length self.old.names }
        requires room { vec_len out.old + line_room ≤ vec_capacity out.old }
        ensures same { self.new.store ≡ self.old.store }
        ensures ok { OnOk result ((text : List ℕ) × Tells S.takes S.nexts id flow told self.old text self.new × (out.new.items ≡ out.old.items ++ text)) }
        ensures err { OnErr result (out.new.items ≡ out.old.items) }
        ensures refused { OnErr result ((text : List ℕ) × Tells S.takes S.nexts id flow told self.old text self.new × IsLong text) }
        ensures capacity { vec_capacity out.old ≤ vec_capacity out.new }
    {
        match self.store.next(self.slots[flow]) {
            Some(call) => Printed::Next(call.name().as_bytes()).write_to(id, out),
            None => {
                self.forget(flow);
                print_told(id, told, out)
            }
        }
    }

    fn tell_cancelled(&mut self, id: u64, flow: usize, out: &mut Vec<u8>) -> Result<(), AllocError>
        requires flow { flow < length self.old.names }
        requires room { vec_len out.old + line_room ≤ vec_capacity out.old }
        ensures same { self.new.store ≡ self.old.store }
        ensures ok { OnOk result ((text : List ℕ) × TellsCancel flow self.old text self.new × (out.new.items ≡ out.old.items ++ text)) }
        ensures err { OnErr result (out.new.items ≡ out.old.items) }
        ensures refused { OnErr result ((text : List ℕ) × TellsCancel flow self.old text self.new × IsLong text) }
        ensures capacity { vec_capacity out.old ≤ vec_capacity out.new }
    {
        let printed = Printed::Cancelled(self.names[flow].as_bytes()).write_to(id, out);
        self.forget(flow);
        printed
    }

    fn handle(
        &mut self,
        id: u64,
        flow: usize,
        handling: Handling,
        out: &mut Vec<u8>,
    ) -> Result<(), AllocError>
        requires flow { flow < length self.old.names }
        requires room { vec_len out.old + line_room ≤ vec_capacity out.old }
        ensures ok { OnOk result ((text : List ℕ) × Handles S.takes S.nexts id flow handling self.old text self.new × (out.new.items ≡ out.old.items ++ text)) }
        ensures err { OnErr result (out.new.items ≡ out.old.items) }
        ensures refused { OnErr result (HandlesNot S.takes S.nexts id flow handling self.old self.new) }
        ensures capacity { vec_capacity out.old ≤ vec_capacity out.new }
    {
        let slot = self.slots[flow];
        match handling {
            Handling::Turn => {
                let told = self.store.take(Step::Turn(slot))?;
                self.tell(id, flow, told, out)
            }
            Handling::Until(call) => {
                let told = go(&mut self.store, slot, Some(call), 0, out)?;
                self.tell(id, flow, told, out)
            }
            Handling::Run => {
                let told = go(&mut self.store, slot, None, 0, out)?;
                self.tell(id, flow, told, out)
            }
            Handling::Cancel => {
                cancel(&mut self.store, slot, out)?;
                self.tell_cancelled(id, flow, out)
            }
        }
    }

    fn rows(&self, id: u64, shard: u8, out: &mut Vec<u8>) -> Result<(), AllocError>
        requires room { vec_len out.old + line_room ≤ vec_capacity out.old }
        ensures ok { OnOk result ((text : List ℕ) × Shows S.shows shard self.now.store text × (out.new.items ≡ out.old.items ++ text)) }
        ensures err { OnErr result (out.new.items ≡ out.old.items) }
        ensures refused { OnErr result ((text : List ℕ) × Shows S.shows shard self.now.store text × IsLong text) }
        ensures capacity { vec_capacity out.old ≤ vec_capacity out.new }
    {
        match self.store.rows(shard) {
            Ok(versions) => Printed::Versions(&versions).write_to(id, out),
            Err(refusal) => Printed::Refused(refusal).write_to(id, out),
        }
    }

    fn restart(&mut self, id: u64, node: NodeName, out: &mut Vec<u8>) -> Result<(), AllocError>
        requires room { vec_len out.old + line_room ≤ vec_capacity out.old }
        ensures ok { OnOk result ((told : Option AnyWhat) × S.takes self.old.store (any_step.Restart node) told self.new.store × (out.new.items ≡ out.old.items ++ told_text id told)) }
        ensures flows { KeepsFlows self.old self.new }
        ensures err { OnErr result (out.new.items ≡ out.old.items) }
        ensures refused { OnErr result ((told : Option AnyWhat) × S.takes self.old.store (any_step.Restart node) told self.new.store × IsLong (told_text id told)) }
        ensures capacity { vec_capacity out.old ≤ vec_capacity out.new }
    {
        let told = self.store.take(Step::Restart(node))?;
        print_told(id, told, out)
    }

    fn fail(&mut self, id: u64, failure: Failure, out: &mut Vec<u8>) -> Result<(), AllocError>
        requires room { vec_len out.old + line_room ≤ vec_capacity out.old }
        ensures ok { OnOk result (S.sets self.old.store failure.node failure.bank failure.n failure.tear self.new.store × (out.new.items ≡ out.old.items ++ set_line)) }
        ensures flows { KeepsFlows self.old self.new }
        ensures err { OnErr result (out.new.items ≡ out.old.items) }
        ensures never { OnErr result ⊥ }
        ensures capacity { vec_capacity out.old ≤ vec_capacity out.new }
    {
        Printed::Set.write_to(id, out)?;
        self.store
            .fail(failure.node, failure.bank, failure.n, failure.tear);
        Ok(())
    }

    fn reshard(&mut self, id: u64, shards: Shards, out: &mut Vec<u8>) -> Result<(), AllocError>
        requires room { vec_len out.old + line_room ≤ vec_capacity out.old }
        ensures ok { OnOk result ((text : List ℕ) × ReshardsTo S.takes S.nexts S.shows S.sets S.reshards S.shards_of shards self.old.store text self.new.store × (out.new.items ≡ out.old.items ++ text)) }
        ensures flows { KeepsFlows self.old self.new }
        ensures err { OnErr result (out.new.items ≡ out.old.items) }
        ensures never { OnErr result ⊥ }
        ensures capacity { vec_capacity out.old ≤ vec_capacity out.new }
    {
        let told = self.store.reshard(shards);
        print_resharded(id, told, out)
    }

    /// What the line asks for, at the store with this id.
    pub(crate) fn parse(&self, alloc: Global, id: u64, line: &[u8]) -> Result<Command, Refusal>
        ensures ok { IfOk result (Spells id (S.shards_of self.now.store) self.now.names line.now) }
        ensures err { IfErr result (Cause id (S.shards_of self.now.store) self.now.names line.now) }
    {
        Command::parse(alloc, line, id, self.store.shards(), &self.names)
    }

    /// Carries the command out at the store with this id, and prints what it tells. If memory is refused nothing is printed, and no write is begun and ended.
    pub(crate) fn carry_out(
        &mut self,
        id: u64,
        command: Command,
        out: &mut Vec<u8>,
    ) -> Result<(), AllocError>
        requires among { IsAmong command (length self.old.names) }
        requires room { vec_len out.old + line_room ≤ vec_capacity out.old }
        ensures ok { OnOk result ((text : List ℕ) × CarriesOut S.takes S.nexts S.shows S.sets S.reshards S.shards_of id command self.old text self.new × (out.new.items ≡ out.old.items ++ text)) }
        ensures err { OnErr result (out.new.items ≡ out.old.items) }
        ensures refused { OnErr result (CarriesOutNot S.takes S.nexts S.shows id command self.old self.new) }
        ensures capacity { vec_capacity out.old ≤ vec_capacity out.new }
    {
        match command {
            Command::Pass => Ok(()),
            Command::Ask(request) => {
                let step = Step::Start(request);
                serve(&mut self.store, id, step, 0, out)
            }
            Command::Care(care) => {
                let step = Step::Care(care);
                serve(&mut self.store, id, step, RESOLVED, out)
            }
            Command::Start(name, request) => {
                let step = Step::Start(request);
                self.start(id, name, step, out)
            }
            Command::Handle(flow, handling) => self.handle(id, flow, handling, out),
            Command::Rows(shard) => self.rows(id, shard, out),
            Command::Restart(node) => self.restart(id, node, out),
            Command::Fail(failure) => self.fail(id, failure, out),
            Command::Reshard(shards) => self.reshard(id, shards, out),
        }
    }
}
