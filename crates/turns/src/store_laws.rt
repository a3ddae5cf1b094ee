// Laws of stores over devices, each the clause of a function with an empty body.
ghost use Rattle.std.specs.Prelude.{ℕ};
ghost use Rattle.laws.specs.Nodes.{Nodes};
ghost use Rattle.stores.specs.Stands.{IsHorizonIn};
ghost use Rattle.turns.specs.StoreLaws.{ChainsJoin, ChainsRun, ClosedStoresRest, RunsMove, StoppedOpeningsRest, StoppedStepsRest, UnmadeStoresRest};

use device::Device;
use laws::Leavings;

/// Devices to which nothing was ever written rest at the empty log.
pub fn unmade_stores_rest<D: Device>()
    ensures { (store shards : ℕ) → UnmadeStoresRest D.state D.honest D.moment D.left_since store shards }
{}

/// A store that stands rests over its devices once it is closed, and what was told stays so.
pub fn closed_stores_rest<D: Device>()
    ensures { (store shards : ℕ) → ClosedStoresRest D.state D.honest D.moment D.left_since store shards }
{}

/// What a stop at any moment of a step leaves rests, so that it can be opened: with all that was kept and told before the step.
pub fn stopped_steps_rest<D: Device>()
    ensures { (store shards : ℕ) → StoppedStepsRest D.state D.honest D.moment D.left_since store shards }
{}

/// So does what a stop at any moment of an opening leaves.
pub fn stopped_openings_rest<D: Device>()
    ensures { (store shards : ℕ) → StoppedOpeningsRest D.state D.honest D.moment D.left_since store shards }
{}

/// A chain of promises, one a step, is a run of all the steps.
pub fn chains_run<D: Device>()
    ensures { (store shards : ℕ) → ChainsRun D.state D.honest D.moment D.left_since store shards }
{}

/// A list of steps may be run in parts: a chain of promises and then another is a chain of all the steps.
pub fn chains_join<D: Device>()
    ensures { (store shards : ℕ) → ChainsJoin D.state D.honest D.moment D.left_since store shards }
{}

/// A run only moves the machine: what was kept before it stays kept.
pub fn runs_move<W: Leavings>()
    ensures { (store shards : ℕ) (nodes : Nodes) → RunsMove shards (IsHorizonIn store shards W.left nodes) }
{}
