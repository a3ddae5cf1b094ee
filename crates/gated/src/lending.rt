// A log whose device is elsewhere.
ghost use Rattle.std.specs.Prelude.{◌≡◌, false};

use crate::GatedLog;
use away::Away;
use device::Device;

impl<D: Device> GatedLog<D> {
    /// The log over a stand-in for the device, each call of which fails, and the log with the device. Both know where the list ends.
    pub fn lend(self) -> (GatedLog<Away<D>>, GatedLog<D>)
        ensures log { result.1 ≡ self }
        ensures device { result.0.device.was.value ≡ self.device }
        ensures up { result.0.device.is_stopped ≡ false }
        ensures failures { result.0.device.failures ≡ (D.state self.device).failures }
        ensures end { result.0.end ≡ self.end }
        ensures at { result.0.at ≡ self.at }
    {
        let stands = Away::of(&self.device);
        let lent = GatedLog {
            device: stands,
            end: self.end,
            at: self.at,
        };
        (lent, self)
    }
}
