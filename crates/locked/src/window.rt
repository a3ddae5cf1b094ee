// How far the horizon stays behind the latest place: so many places, or fewer if their decisions take too many bytes.
ghost use Rattle.std.specs.Prelude.{◌≡◌, ◌≤◌, ◌<◌, ◌+◌, ◌*◌, ◌^◌};
ghost use Rattle.sides.specs.Sides.{IsLater};

use crate::{Caller, Gate, Store};
use device::Device;
use names::NodeName;
use sides::Room;
use std::sync::Wait;

// What a write of a few changes takes in the coordinator's memory, but for what its names take beside.
const WRITE_BYTES: u64 = 1_400;

// How many times as much a change takes there as in its record. One of long names takes less.
const TIMES: u64 = 10;

/// The window of decisions that a coordinator keeps above the horizon: places or bytes, whichever is less.
#[derive(Clone, Copy, Drop)]
pub struct Window {
    /// How many places the horizon stays behind the latest one.
    pub places: u64,
    /// About how many bytes of memory the decisions of these places may take.
    pub bytes: u64,
}

// About how many bytes of memory the decisions of so many places take, whose records have so many bytes.
fn held_by(places: u64, record_bytes: u64) -> u64
    ensures { places * 1400 + record_bytes * 10 < 2 ^ 64 → result ≡ places * 1400 + record_bytes * 10 }
{
    places
        .saturating_mul(WRITE_BYTES)
        .saturating_add(record_bytes.saturating_mul(TIMES))
}

// What the window took at most when it was last counted, which looks at each decision.
#[derive(Drop)]
pub(crate) struct Counted {
    most: u64,
}

impl Counted {
    // It was not counted yet.
    pub(crate) fn new() -> Counted {
        Counted { most: 0 }
    }

    // Whether a window that takes so much at most is to be counted: it may take too much, and an eighth of that joined it since, or it was cut. It then is.
    fn is_due(&mut self, most: u64, bytes: u64) -> bool {
        if most <= bytes {
            return false;
        }
        if self.most <= most && most - self.most < bytes / 8 {
            return false;
        }
        self.most = most;
        true
    }
}

// How many of so many places take no more bytes than may be, if all of them take the same, and so many together.
fn fitting(places: u64, held: u64, bytes: u64) -> u64
    ensures all { held ≤ bytes → result ≡ places }
    ensures few { result ≤ places }
    ensures part { bytes < held → result * held ≤ places * bytes }
{
    if held <= bytes {
        return places;
    }
    let product = u128::from(places).saturating_mul(u128::from(bytes));
    (product / u128::from(held)).min(u128::from(places)) as u64
}

impl<D: Device, B: Room, G: Gate> Store<D, B, G> {
    // How many places the horizon is to stay behind the latest one now.
    pub(crate) fn places_within<R: Wait>(
        &self,
        rt: &R,
        caller: &mut Caller<B>,
        window: Window,
        counted: &mut Counted,
    ) -> u64
        ensures caller { IsLater caller.old.pass caller.new.pass }
        ensures few { result ≤ window.places }
    {
        let latest = self.latest(caller);
        let behind = latest.saturating_sub(self.horizon(caller));
        // A bank has all that a checkpoint would have, and more.
        let most = held_by(behind, self.bank_len(rt, NodeName::Coordinator));
        if !counted.is_due(most, window.bytes) {
            return window.places;
        }
        let Some(len) = self.checkpoint_len(rt, NodeName::Coordinator) else {
            return window.places;
        };
        let fitting = fitting(behind, held_by(behind, len), window.bytes);
        window.places.min(fitting)
    }
}
