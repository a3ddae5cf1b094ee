// What gives each connection its session over a store.
ghost use Rattle.locked.specs.Opening.{HasFound};
ghost use Rattle.std.specs.Prelude.{◌≡◌};

use crate::session::StoreSession;
use crate::share::Share;
use device::Device;
use locked::{Caller, Gate, Store};
use serving::Fork;
use sides::Room;
use std::alloc::Global;
use std::sync::Wait;

/// Gives each connection a session over a store, for a caller of its own. What was found in the store's files each of them knows; of one another's requests
/// they know nothing.
#[derive(Drop)]
pub(crate) struct StoreFork<'a, D: Device, B: Room, G: Gate, R: Wait> {
    rt: &'a R,
    alloc: Global,
    store: &'a Store<D, B, G>,
    id: u64,
    caller: Caller<B>,
    share: &'a Share,
    ghost of: { id ≡ B.store },
    ghost found: { ∥ (B.rests → HasFound B.first B.low caller.pass) ∥₁ },
}

impl<'a, D: Device, B: Room, G: Gate, R: Wait> StoreFork<'a, D, B, G, R> {
    /// Over the store with this id. Each session is within this share, and knows what the first caller does.
    pub(crate) fn new(
        rt: &'a R,
        alloc: Global,
        store: &'a Store<D, B, G>,
        id: u64,
        first: &mut Caller<B>,
        share: &'a Share,
    ) -> StoreFork<'a, D, B, G, R>
        requires of { id ≡ B.store }
        requires found { B.rests → HasFound B.first B.low first.old.pass }
        ensures found { B.rests → HasFound B.first B.low first.new.pass }
    {
        let caller = later_caller(rt, store, first);
        StoreFork {
            rt,
            alloc,
            store,
            id,
            caller,
            share,
        }
    }
}

impl<'a, D: Device, B: Room, G: Gate, R: Wait> Fork for StoreFork<'a, D, B, G, R> {
    type Session = StoreSession<'a, D, B, G, R>;

    ghost begins = { λ session. ∥ (B.rests → HasFound B.first B.low session.known) ∥₁ };

    fn another(&mut self) -> StoreSession<'a, D, B, G, R> {
        let caller = self.store.another(&mut self.caller);
        StoreSession::new(self.rt, self.alloc, self.store, self.id, caller, self.share)
    }
}

// A new caller, which knows what was found if the first one does.
fn later_caller<D: Device, B: Room, G: Gate, R: Wait>(
    rt: &R,
    store: &Store<D, B, G>,
    first: &mut Caller<B>,
) -> Caller<B>
    ensures found { (B.rests → HasFound B.first B.low first.old.pass) → B.rests → HasFound B.first B.low first.new.pass }
    ensures told { (B.rests → HasFound B.first B.low first.old.pass) → B.rests → HasFound B.first B.low result.pass }
{
    let mut caller = store.session(rt);
    store.tell(first, &mut caller);
    caller
}
