// The place of an answer that needs no call of the coordinator.
ghost use Rattle.std.specs.Prelude.{◌≡◌, ◌≤◌, ◌<◌, length, true, false, IfSome, IfNone};
ghost use Rattle.sides.specs.Sides.{IsLater};
ghost use Rattle.locked.specs.Answering.{IsAhead, IsBeyond, IsFresh, IsJustOne, IsPassed};

use crate::{Caller, Gate, Store};
use device::Device;
use sides::Room;
use tuples::Freshness;

// Whether just one place will do.
pub(crate) fn is_exact(freshness: Freshness) -> bool
    ensures { result ≡ true → IsJustOne freshness }
{
    match freshness {
        Freshness::Exact(_) => true,
        Freshness::Latest | Freshness::AtLeast(_) => false,
    }
}

impl<D: Device, B: Room, G: Gate> Store<D, B, G> {
    /// The place of an answer that is as fresh as asked, by the published word. None if what is asked for lies above that.
    pub(crate) fn known_place(&self, caller: &mut Caller<B>, freshness: Freshness) -> Option<u64>
        ensures caller { IsLater caller.old.pass caller.new.pass }
        ensures there { IfSome result (λ place. place ≤ length caller.new.pass.seen) }
        ensures fresh { IfSome result (λ place. IsFresh freshness (length caller.old.pass.seen) place) }
        ensures beyond { IfNone result (IsBeyond freshness (length caller.new.pass.seen)) }
    {
        let latest = self.latest(caller);
        match freshness {
            Freshness::Latest => Some(latest),
            Freshness::AtLeast(place) if place <= latest => Some(latest),
            Freshness::Exact(place) if place <= latest => Some(place),
            Freshness::AtLeast(_) | Freshness::Exact(_) => None,
        }
    }

    /// Whether just one place will do, and the horizon has passed it, by one load. The caller has then seen at least as many writes as the horizon.
    pub(crate) fn has_passed(&self, caller: &mut Caller<B>, freshness: Freshness) -> bool
        ensures caller { IsLater caller.old.pass caller.new.pass }
        ensures seen { caller.old.pass.horizon ≤ length caller.new.pass.seen }
        ensures passed { result ≡ true → IsPassed freshness caller.new.pass.horizon }
        ensures ahead { result ≡ false → IsPassed freshness caller.old.pass.horizon → ⊥ }
        ensures kept { result ≡ false → IsAhead freshness caller.old.pass.horizon }
    {
        let horizon = self.horizon(caller);
        match freshness {
            Freshness::Exact(place) => place < horizon,
            Freshness::Latest | Freshness::AtLeast(_) => false,
        }
    }
}
