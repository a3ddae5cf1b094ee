// The laws of a store at rest, each the clause of a function with an empty body.
ghost use Rattle.std.specs.Prelude.{ℕ};
ghost use Rattle.ties.specs.RestingLaws.{RestingNodesAreTied, UnmadeNodesAreTied};

use device::Device;

/// If whatever a stop leaves of all nodes means a beginning of one log, all of them are tied to a beginning of it: so a store may be shared, whichever of
/// its openings are refused.
pub fn resting_nodes_are_tied<D: Device>()
    ensures { (a b : D) (devices : ℕ → D × D) → RestingNodesAreTied D.state D.honest a b devices }
{}

/// Devices that nobody has written to are tied to the empty list: so a new store may be shared.
pub fn unmade_nodes_are_tied<D: Device>()
    ensures { UnmadeNodesAreTied D.state D.honest }
{}
