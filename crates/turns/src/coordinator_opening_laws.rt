// The seams between contracts of the coordinator's opening and flush, over its devices, and steps of a run, each the clause of a function with an empty body.
ghost use Rattle.std.specs.Prelude.{ℕ};
ghost use Rattle.turns.specs.CoordinatorOpeningLaws.{CoordinatorOpeningsStep, FailedOpeningsHaveCause, FailsOverDevices, FlushesOverDevices, FullCoordinatorsWereOpened, NoCoordinatorIsDamaged, RefusedOpeningsStep};

use device::Device;

/// An opening of the coordinator over its revived devices, by the contract of the call alone, is a step of a run in which it comes up, and so is one
/// that is refused. `Full` and a device's failure have their cause, and `Damaged` never comes of the store's own devices.
pub fn coordinator_opening_is_a_step<D: Device>()
    ensures ok { (store shards : ℕ) → CoordinatorOpeningsStep D.state D.honest D.moment D.left_since store shards }
    ensures refused { (store shards : ℕ) → RefusedOpeningsStep D.state D.honest D.moment D.left_since store shards }
    ensures full { (store shards : ℕ) → FullCoordinatorsWereOpened D.state D.honest D.moment D.left_since store shards }
    ensures failed { (store shards : ℕ) → FailedOpeningsHaveCause D.state D.honest D.moment D.left_since store shards }
    ensures damaged { (store shards : ℕ) → NoCoordinatorIsDamaged D.state D.honest D.moment D.left_since store shards }
{}

/// A flush of the coordinator over its devices, by the contract of the call alone, is one of a coordinator of the store, whether it answers Ok or fails.
pub fn coordinator_flushes_over_its_devices<D: Device>()
    ensures ok { (store shards : ℕ) → FlushesOverDevices D.state D.honest D.moment D.left_since store shards }
    ensures failed { (store shards : ℕ) → FailsOverDevices D.state D.honest D.moment D.left_since store shards }
{}
