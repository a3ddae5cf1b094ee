// A law of devices over which a new store is opened, the clause of a function with an empty body.
ghost use Rattle.std.specs.Prelude.{ℕ};
ghost use Rattle.locked.specs.Opening.{NewDevicesRest};

use device::Device;

/// Devices that nobody has written yet rest at the empty list.
pub fn new_devices_rest<D: Device>()
    ensures { (shards : ℕ) → NewDevicesRest D.state D.honest shards }
{}
