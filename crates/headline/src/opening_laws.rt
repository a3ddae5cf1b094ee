// What is opened again keeps the promises of runs: laws, each the clause of a function with an empty body.
ghost use Rattle.std.specs.Prelude.{ℕ};
ghost use Rattle.names.specs.declared.node_name.NodeName.{NodeName};
ghost use Rattle.cluster.specs.declared.step.Step.TheVariants.{Restart};
ghost use Rattle.headline.specs.Promised.{OpeningsKeep, StepKeeps};
ghost use Rattle.laws.specs.Nodes.{NodeName as NodeAt};
ghost use Rattle.turns.specs.Reopens.{HandsBack};

use device::Device;

/// A restart of a node keeps the promise of a step, whatever the node was before: it comes up, or its opening is refused with its cause.
pub fn restarts_keep<D: Device>()
    ensures { (name : NodeName) → StepKeeps D.state D.honest D.moment D.left_since (Restart name) }
{}

/// The opening of a whole store keeps the promise of an opening, over whatever devices a run or a stop left.
pub fn openings_keep<D: Device>()
    ensures { OpeningsKeep D.state D.honest D.moment D.left_since }
{}

/// An opening that ends for lack of memory returns its devices untouched, and so keeps the promise of one that does.
pub fn refused_openings_hand_back<D: Device>()
    ensures { (store shards : ℕ) (devices : NodeAt → D × D) → HandsBack D.state D.honest D.moment D.left_since store shards devices devices }
{}
