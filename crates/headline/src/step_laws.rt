// The steps of a world that call one node or none: laws, each the clause of a function with an empty body.
ghost use Rattle.std.specs.Prelude.{ℕ};
ghost use Rattle.names.specs.declared.care.Care.{Care};
ghost use Rattle.tuples.specs.declared.request.Request.{Request};
ghost use Rattle.cluster.specs.declared.step.Step.TheVariants.{Cancel, Care as care_for, Start, Turn};
ghost use Rattle.headline.specs.DeviceScripts.{ScriptsKeep};
ghost use Rattle.headline.specs.Promised.{StepKeeps};

use device::Device;

/// A flow for a request, or for a care of the nodes, begins in a free slot, or is refused with `Full`; one that may not be asked for begins nowhere.
pub fn starts_keep<D: Device>()
    ensures requests { (request : Request) → StepKeeps D.state D.honest D.moment D.left_since (Start request) }
    ensures cares { (care : Care) → StepKeeps D.state D.honest D.moment D.left_since (care_for care) }
{}

/// The flow in a slot, whatever its kind, makes its next call, and goes on, or is gone with what is told of its end; an empty slot has no turn.
pub fn turns_keep<D: Device>()
    ensures { (slot : ℕ) → StepKeeps D.state D.honest D.moment D.left_since (Turn slot) }
{}

/// The flow in a slot is cancelled: a write goes out, or on to its end, and any other is gone; an empty slot stays empty.
pub fn cancels_keep<D: Device>()
    ensures { (slot : ℕ) → StepKeeps D.state D.honest D.moment D.left_since (Cancel slot) }
{}

/// The script of one device is set, which is not a step: a store that shows the world before leads to one that shows the world after, stands for
/// whatever the first stands for, and names no horizon that the first does not.
pub fn scripts_keep<D: Device>()
    ensures { ScriptsKeep D.set_to_fail D.state D.honest D.moment D.left_since }
{}
