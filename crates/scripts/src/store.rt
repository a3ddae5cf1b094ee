// What takes the steps of a script.
ghost use Rattle.std.specs.Prelude.{◌≡◌, ◌≤◌, ℕ, Option, Result, IfOk, OnErr};
ghost use Rattle.std.specs.Global.{Vec as AnyVec};
ghost use Rattle.names.specs.declared.node_name.NodeName.{NodeName as AnyNode};
ghost use Rattle.names.specs.declared.call_name.CallName.{CallName as AnyCall};
ghost use Rattle.cluster.specs.declared.event.What.{What as AnyWhat};
ghost use Rattle.cluster.specs.declared.step.Step.{Step as AnyStep};
ghost use Rattle.cluster.specs.Steps.{BeginsFlow};
ghost use Rattle.device.specs.declared.tear.Tear.{Tear as AnyTear};
ghost use Rattle.journal.specs.declared.refused.Bank.{Bank as AnyBank};
ghost use Rattle.refusal.specs.declared.refusal.Refusal.{Refusal as AnyRefusal};
ghost use Rattle.scripts.specs.Cares.{Moves};
ghost use Rattle.tuples.specs.declared.version.Version.{Version as AnyVersion};

use cluster::{Step, What};
use device::Tear;
use journal::Bank;
use names::{CallName, NodeName};
use std::alloc::AllocError;
use tuples::{Refusal, Shards, Version};

/// A store that takes steps, one at a time.
pub trait Store: Drop {
    /// It may take this step, which tells this, and becomes that.
    ghost takes: { Self → AnyStep → Option AnyWhat → Self → Type 0 };

    /// The flow in a slot may have this next call, or none.
    ghost nexts: { Self → ℕ → Option AnyCall → Type 0 };

    /// The versions that a shard may show.
    ghost shows: { Self → ℕ → Result (AnyVec AnyVersion) AnyRefusal → Type 0 };

    /// It may be that once this is set on a device of this node.
    ghost sets: { Self → AnyNode → AnyBank → ℕ → AnyTear → Self → Type 0 };

    /// If it was this, and is to have this many shards, it may be cared for and be that, answer so, and then be this.
    ghost reshards: { Self → ℕ → Result (Unit {0}) AnyRefusal → Self → Self → Type 0 };

    /// How many shards it has.
    ghost shards_of: { Self → ℕ };

    /// Takes the step. An `Err` is for lack of memory; only a step that begins a flow takes any.
    fn take(&mut self, step: Step) -> Result<Option<What>, AllocError>
        ensures ok { IfOk result (λ told. takes self.old step told self.new) }
        ensures err { OnErr result (self.new ≡ self.old) }
        ensures begins { OnErr result (BeginsFlow step) };

    fn next(&self, slot: usize) -> Option<CallName>
        ensures { nexts self.now slot result };

    fn rows(&self, shard: u8) -> Result<Vec<Version>, Refusal>
        ensures { shows self.now shard result };

    fn fail(&mut self, node: NodeName, bank: Bank, n: u64, tear: Tear)
        ensures { sets self.old node bank n tear self.new };

    fn shards(&self) -> Shards
        ensures { result ≡ shards_of self.now };

    /// It is cared for, step by step, and carried over to this many shards. An `Err` says why it was not.
    fn reshard(&mut self, shards: Shards) -> Result<(), Refusal>
        ensures { Moves takes reshards shards self.old result self.new };
}
