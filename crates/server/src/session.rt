// A session over a store.
ghost use Rattle.std.specs.Prelude.{◌≡◌};
ghost use Rattle.server.specs.Answered.{Answered};

use crate::share::Share;
use answer_flow::{CheckEnd, ReadEnd, WatchEnd};
use calls::Told;
use commit_flow::WriteEnd;
use device::Device;
use json_lines::{Events, Membership, Rows, Written};
use locked::{Caller, Gate, Store};
use sessions::Answers;
use sides::Room;
use std::alloc::Global;
use std::marker::Model;
use std::sync::Wait;
use tuples::{Freshness, MAX_WATCHED, Namespace, Refusal, Tuple, Tupleset, Userset, Write};

/// Answers the requests of one connection over a store, for one caller, who goes on knowing what was seen. What a read or a check reads takes no
/// more than the share, else it is refused with `NoMemory`. What nodes refuse is noted anew for each request.
#[derive(Drop)]
pub struct StoreSession<'a, D: Device, B: Room, G: Gate, R: Wait> {
    rt: &'a R,
    alloc: Global,
    store: &'a Store<D, B, G>,
    id: u64,
    caller: Caller<B>,
    told: Told,
    share: &'a Share,
    ghost of: { id ≡ B.store },
}

impl<'a, D: Device, B: Room, G: Gate, R: Wait> Model for StoreSession<'a, D, B, G, R> {
    ghost use Rattle.server.specs.Answered.{SessionValue};

    ghost Value = { SessionValue };

    ghost view = { λ s. record { known = s.caller.pass; told = s.told } };
}

impl<'a, D: Device, B: Room, G: Gate, R: Wait> StoreSession<'a, D, B, G, R> {
    /// For this caller of the store with this id, who has seen what it has seen, within this share.
    pub fn new(
        rt: &'a R,
        alloc: Global,
        store: &'a Store<D, B, G>,
        id: u64,
        caller: Caller<B>,
        share: &'a Share,
    ) -> StoreSession<'a, D, B, G, R>
        requires of { id ≡ B.store }
        ensures { result.known ≡ caller.pass }
    {
        StoreSession {
            rt,
            alloc,
            store,
            id,
            caller,
            told: Told::new(),
            share,
        }
    }
}

// Its reads were refused since it would have taken more than the share, if they were.
fn note_spent(share: &Share, told: &Told) {
    if told.is_spent() {
        share.note();
    }
}

impl<'a, D: Device, B: Room, G: Gate, R: Wait> Answers for StoreSession<'a, D, B, G, R> {
    ghost store = { B.store };

    ghost gives = { λ old request result new. Answered B.rests old new request result };

    fn store_id(&self) -> u64 {
        self.id
    }

    fn write(&mut self, write: Write) -> Result<Written, Refusal> {
        self.told = Told::new();
        match self.store.write(self.rt, self.alloc, &mut self.caller, &mut self.told, write) {
            WriteEnd::Wrote(place) => Ok(Written { place }),
            WriteEnd::Refused(refusal) => Err(refusal),
            WriteEnd::Cancelled => unreachable!(),
        }
    }

    fn read(&mut self, freshness: Freshness, sets: Vec<Tupleset>) -> Result<Rows, Refusal> {
        self.told = Told::within(self.share.bytes());
        let end = self.store.read(
            self.rt,
            self.alloc,
            &mut self.caller,
            &mut self.told,
            freshness,
            sets,
        );
        note_spent(self.share, &self.told);
        match end {
            ReadEnd::Answered(place, sets) => return Ok(Rows { sets, place }),
            ReadEnd::Refused(refusal) => return Err(refusal),
        }
    }

    fn check(&mut self, freshness: Freshness, tuple: Tuple) -> Result<Membership, Refusal> {
        self.told = Told::within(self.share.bytes());
        let Tuple {
            object,
            relation,
            user,
        } = tuple;
        let userset = Userset { object, relation };
        let end = self.store.check(
            self.rt,
            self.alloc,
            &mut self.caller,
            &mut self.told,
            freshness,
            &userset,
            user,
        );
        note_spent(self.share, &self.told);
        match end {
            CheckEnd::Answered(place, is_member) => Ok(Membership { is_member, place }),
            CheckEnd::Refused(refusal) => Err(refusal),
        }
    }

    fn watch(
        &mut self,
        from: u64,
        limit: u16,
        namespaces: Vec<Namespace>,
    ) -> Result<Events, Refusal> {
        let limit = u64::from(limit);
        // A request that was read is within its limits.
        if limit > MAX_WATCHED {
            return Err(Refusal::TooLarge);
        }
        self.told = Told::new();
        let end = self.store.watch(
            self.rt,
            self.alloc,
            &mut self.caller,
            &mut self.told,
            from,
            limit,
            namespaces,
        );
        match end {
            WatchEnd::Answered(heartbeat, events) => return Ok(Events { events, heartbeat }),
            WatchEnd::Refused(refusal) => return Err(refusal),
        }
    }
}
