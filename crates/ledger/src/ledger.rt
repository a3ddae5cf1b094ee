// The decisions after a place: by place in a queue, by id in a map.
ghost use Rattle.std.specs.Prelude.{ℕ, true, false, ◌≡◌, ◌+◌, ◌-◌, ◌≤◌, ◌<◌, ◌++◌, ◌∷◌, [], drop, length, None, Some, OnOk, OnErr, IfOk, MatchOption, take};
ghost use Rattle.records.specs.Replays.{greatest_number};
ghost use Rattle.ledger.specs.Ledgers.{IsDecided, IsOther, IsPlaceOf};

use std::alloc::{AllocError, Global};
use std::collections::{BTreeMap, VecDeque};
use std::marker::Model;
use tuples::{Entry, WriteId};

/// The decisions after a place, its base, in the order of their places.
#[derive(Drop)]
pub struct Ledger {
    base: u64,
    decisions: VecDeque<Entry>,
    // the place of each decision, and of the awaited one
    places: BTreeMap<WriteId, u64>,
    awaited: Option<WriteId>,
}

impl Model for Ledger {
    ghost use Rattle.std.specs.BTreeMap.{get};
    ghost use Rattle.std.specs.VecDeque.{deque_len, deque_capacity};
    ghost use Rattle.std.specs.Prelude.{All};
    ghost use Rattle.ledger.specs.Ledgers.{HasRoomFor, IsDecided, IsIndexed, LedgerValue, id_cmp, known_ids};

    ghost Value = { LedgerValue };

    ghost view = { λ l. record { base = l.base; log = l.decisions.items; awaited = l.awaited } };

    ghost invariant = { λ l. IsIndexed (λ id. get id_cmp l.places id) l.base (known_ids l.decisions.items l.awaited) × HasRoomFor l.awaited (deque_len l.decisions) (deque_capacity l.decisions)
        × All IsDecided l.decisions.items };
}

fn copied(write: &Entry) -> Result<Entry, AllocError>
    ensures { IfOk result (λ w. w ≡ write.now) }
{
    write.clone()
}

impl Ledger {
    /// No decisions after a place; allocates nothing.
    pub fn new(alloc: Global, base: u64) -> Ledger
        requires { base ≤ greatest_number }
        ensures { result ≡ record { base = base; log = []; awaited = None } }
    {
        Ledger {
            base,
            decisions: VecDeque::new(alloc),
            places: BTreeMap::new(alloc),
            awaited: None,
        }
    }

    /// The place after which its decisions begin.
    pub fn base(&self) -> u64
        ensures { result ≡ self.now.base }
    {
        self.base
    }

    /// The place of its last decision.
    pub fn end(&self) -> u64
        ensures value { result ≡ self.now.base + length self.now.log }
        ensures fits { result ≤ greatest_number }
    {
        self.base + self.decisions.len() as u64
    }

    /// The place of the write with this id, while none is awaited.
    pub fn find(&self, id: WriteId) -> Option<u64>
        requires { self.now.awaited ≡ None }
        ensures { MatchOption result (IsOther id self.now.log) (IsPlaceOf id self.now.base self.now.log) }
    {
        self.places.get(&id).copied()
    }

    /// Whether it has a decision of the write with this id, while none is awaited.
    pub fn contains(&self, id: WriteId) -> bool
        requires { self.now.awaited ≡ None }
        ensures found { result ≡ true → (place : ℕ) × IsPlaceOf id self.now.base self.now.log place }
        ensures other { result ≡ false → IsOther id self.now.log }
    {
        match self.find(id) {
            Some(_) => true,
            None => false,
        }
    }

    /// Takes the room for one more decision, of the write with this id, which has to be pushed next.
    pub fn reserve(&mut self, id: WriteId) -> Result<(), AllocError>
        requires settled { self.old.awaited ≡ None }
        requires new { IsOther id self.old.log }
        requires few { self.old.base + length self.old.log < greatest_number }
        ensures ok { OnOk result (self.new ≡ record self.old { awaited = Some id }) }
        ensures err { OnErr result (self.new ≡ self.old) }
    {
        let place = self.end() + 1;
        self.decisions.reserve(1)?;
        let Ok(_) = self.places.insert(id, place) else {
            return Err(AllocError);
        };
        self.awaited = Some(id);
        Ok(())
    }

    /// One more decision after the others, for which there is room.
    pub fn push_reserved(&mut self, write: Entry)
        requires awaited { self.old.awaited ≡ Some write.id }
        requires decided { IsDecided write }
        ensures { self.new ≡ record self.old { log = self.old.log ++ write ∷ []; awaited = None } }
    {
        self.decisions.push_back_reserved(write);
        self.awaited = None;
    }

    /// The decision at a place. It has what its record is to have.
    pub fn at(&self, place: u64) -> &Entry
        requires behind { self.now.base < place }
        requires within { place ≤ self.now.base + length self.now.log }
        ensures decided { IsDecided result.now }
        ensures rest { drop (place - self.now.base - 1) self.now.log ≡ result.now ∷ drop (place - self.now.base) self.now.log }
    {
        &self.decisions[(place - self.base) as usize - 1]
    }

    // Forgets the first decision.
    fn forget_first(&mut self)
        requires some { 0 < length self.old.log }
        ensures { self.new ≡ record self.old { base = self.old.base + 1; log = drop 1 self.old.log } }
    {
        if let Some(first) = self.decisions.pop_front() {
            let _place = self.places.remove(&first.id);
            self.base += 1;
        }
    }

    /// Forgets the decisions up to a place; allocates nothing.
    pub fn forget(&mut self, place: u64)
        requires from { self.old.base ≤ place }
        requires to { place ≤ self.old.base + length self.old.log }
        ensures { self.new ≡ record self.old { base = place; log = drop (place - self.old.base) self.old.log } }
    {
        for _ in self.base..place {
            self.forget_first();
        }
    }

    /// Copies of this many decisions after a place.
    pub fn copies(&self, alloc: Global, from: u64, count: usize) -> Result<Vec<Entry>, AllocError>
        requires from { self.now.base ≤ from }
        requires to { from + count ≤ self.now.base + length self.now.log }
        ensures { IfOk result (λ v. v.items ≡ take count (drop (from - self.now.base) self.now.log)) }
    {
        let first = (from - self.base) as usize;
        let mut copies = Vec::with_capacity(alloc, count)?;
        for index in 0..count {
            copies.push(copied(&self.decisions[first + index])?)?;
        }
        Ok(copies)
    }
}
