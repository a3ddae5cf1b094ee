// The writes that hold their tuples.
ghost use Rattle.std.specs.Prelude.{◌≡◌, ◌≢◌, ◌↔◌, ◌⊎◌, [], None, length, OnOk, OnErr, IfOk, IfErr, IsErrOf, IsTrue, MatchOption};
ghost use Rattle.records.specs.Replays.{find_in_doubt, is_held, put, without, without_placed_ids};
ghost use Rattle.holds.specs.Holds.{AreApart, AreAscendingIds, IsFree, IsHolding, ids, is_in};
ghost use Rattle.tuples.specs.declared.entry.WriteId.{WriteId as AnyId};
ghost use Rattle.tuples.specs.declared.tuple.Tuple.{Tuple as AnyTuple};

use crate::by_id::ById;
use crate::held::{hold, holds_change, holds_condition, let_go};
use records::PlacedId;
use std::alloc::{AllocError, Global};
use std::collections::BTreeSet;
use std::collections::btree_map::Values;
use std::marker::Model;
use tuples::{Entry, Refusal, Tuple, WriteId};

/// Writes in doubt, each holding the tuples of its changes and conditions. Contracts see them as their list,
/// ascending by id.
#[derive(Drop)]
pub struct Holds {
    writes: ById,
    held: BTreeSet<Tuple>,
}

impl Model for Holds {
    ghost use Rattle.std.specs.Prelude.{List};
    ghost use Rattle.tuples.specs.declared.entry.Entry.{Entry};
    ghost use Rattle.holds.specs.Holds.{IsHolding};

    ghost Value = { List Entry };

    ghost view = { λ h. h.writes };

    ghost invariant = { λ h. IsHolding h.writes h.held.keys };
}

impl Holds {
    /// No writes; allocates nothing.
    pub fn new(alloc: Global) -> Self
        ensures { result ≡ [] }
    {
        Holds {
            writes: ById::new(alloc),
            held: BTreeSet::new(alloc),
        }
    }

    /// Whether no held write has the id of this one, or names one of its tuples.
    pub fn is_free(&self, write: &Entry) -> bool
        ensures { IsTrue result ↔ IsFree self.now write.now }
    {
        is_free(&self.writes, &self.held, write)
    }

    /// Holds all tuples of a write, or none: `Busy` if it is not free, `NoMemory`.
    pub fn take(&mut self, write: Entry) -> Result<(), Refusal>
        ensures ok { OnOk result (self.new ≡ put write self.old) }
        ensures free { OnOk result (IsFree self.old write) }
        ensures busy { IsErrOf result Refusal.Busy ↔ (IsFree self.old write → ⊥) }
        ensures err { IfErr result (λ e. (e ≡ Refusal.Busy) ⊎ (e ≡ Refusal.NoMemory)) }
        ensures same { OnErr result (self.new ≡ self.old) }
    {
        if !is_free(&self.writes, &self.held, &write) {
            return Err(Refusal::Busy);
        }
        hold_free(&self.writes, &mut self.held, &write)?;
        match self.writes.put(write) {
            Ok(()) => Ok(()),
            Err(write) => {
                let_go(&mut self.held, &write);
                Err(Refusal::NoMemory)
            }
        }
    }

    /// Releases the write with this id, and returns it; allocates nothing.
    pub fn release(&mut self, id: WriteId) -> Option<Entry>
        ensures found { result ≡ find_in_doubt id self.old }
        ensures left { self.new ≡ without id self.old }
        ensures gone { find_in_doubt id self.new ≡ None }
        ensures others { (j : AnyId) → j ≢ id → find_in_doubt j self.new ≡ find_in_doubt j self.old }
    {
        let Some(write) = self.writes.take_out(id) else {
            return None;
        };
        let_go(&mut self.held, &write);
        Some(write)
    }

    /// Releases the writes of these placed ids; allocates nothing.
    pub fn release_placed_ids(&mut self, placed_ids: &[PlacedId])
        ensures { self.new ≡ without_placed_ids placed_ids.now self.old }
    {
        for placed_id in placed_ids {
            let _write = self.release(placed_id.id);
        }
    }

    /// The write with this id.
    pub fn find(&self, id: WriteId) -> Option<&Entry>
        ensures { MatchOption result (find_in_doubt id self.now ≡ None) (λ w. find_in_doubt id self.now ≡ Some w.now) }
    {
        self.writes.find(id)
    }

    /// Whether one of the writes names the tuple, changed or conditioned.
    pub fn is_held(&self, tuple: &Tuple) -> bool
        ensures { result ≡ is_held tuple.now self.now }
    {
        self.held.contains(tuple)
    }

    /// How many writes there are; no two of them name one tuple or have one id.
    pub fn len(&self) -> usize
        ensures len { result ≡ length self.now }
        ensures apart { AreApart self.now }
        ensures ascending { AreAscendingIds (ids self.now) }
    {
        self.writes.len()
    }

    /// The writes, ascending by id.
    pub fn iter(&self) -> Values<'_, WriteId, Entry>
        ensures rest { result ≡ self.now }
        ensures ascending { AreAscendingIds (ids self.now) }
    {
        self.writes.iter()
    }

    /// The ids of the writes, ascending.
    pub fn in_doubt(&self, alloc: Global) -> Result<Vec<WriteId>, AllocError>
        ensures ascending { IfOk result (λ v. AreAscendingIds v.items) }
        ensures exact { IfOk result (λ v. v.items ≡ ids self.now) }
    {
        self.writes.ids(alloc)
    }
}

fn is_free(writes: &ById, held: &BTreeSet<Tuple>, write: &Entry) -> bool
    requires { IsHolding writes.now held.now.keys }
    ensures { IsTrue result ↔ IsFree writes.now write.now }
{
    if writes.find(write.id).is_some() {
        return false;
    }
    if holds_change(held, write.changes.as_slice()) {
        return false;
    }
    !holds_condition(held, write.conditions.as_slice())
}

// Holds the tuples of a write that is free, or none of them.
fn hold_free(writes: &ById, held: &mut BTreeSet<Tuple>, write: &Entry) -> Result<(), Refusal>
    requires holding { IsHolding writes.now held.old.keys }
    requires free { IsFree writes.now write.now }
    ensures ok { OnOk result ((t : AnyTuple) → is_in held.new.keys t ≡ is_held t (put write.now writes.now)) }
    ensures err { IfErr result (λ e. e ≡ Refusal.NoMemory) }
    ensures same { OnErr result ((t : AnyTuple) → is_in held.new.keys t ≡ is_held t writes.now) }
{
    if hold(held, write).is_err() {
        let_go(held, write);
        return Err(Refusal::NoMemory);
    }
    Ok(())
}
