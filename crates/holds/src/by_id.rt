// Writes kept in the order of ids, each found by its id.
ghost use Rattle.std.specs.Prelude.{◌≡◌, ◌++◌, [], None, Some, length, IfOk, IfErr, OnOk, MatchOption};
ghost use Rattle.std.specs.BTreeMap.{keys};
ghost use Rattle.holds.specs.Holds.{AreAscendingIds, ids};
ghost use Rattle.records.specs.Replays.{find_in_doubt, put, without};

use std::alloc::{AllocError, Global};
use std::collections::BTreeMap;
use std::collections::btree_map::Values;
use std::marker::Model;
use tuples::{Entry, WriteId};

/// Writes with distinct ids; contracts see them as their list, ascending by id.
#[derive(Drop)]
pub(crate) struct ById {
    writes: BTreeMap<WriteId, Entry>,
}

impl Model for ById {
    ghost use Rattle.std.specs.Prelude.{List};
    ghost use Rattle.std.specs.BTreeMap.{values};
    ghost use Rattle.tuples.specs.declared.entry.Entry.{Entry};
    ghost use Rattle.holds.specs.Holds.{AreById};

    ghost Value = { List Entry };

    ghost view = { λ b. values b.writes };

    ghost invariant = { λ b. AreById b.writes.entries };
}

impl ById {
    /// No writes; allocates nothing.
    pub fn new(alloc: Global) -> Self
        ensures { result ≡ [] }
    {
        ById {
            writes: BTreeMap::new(alloc),
        }
    }

    /// How many there are.
    pub fn len(&self) -> usize
        ensures len { result ≡ length self.now }
        ensures ascending { AreAscendingIds (ids self.now) }
    {
        self.writes.len()
    }

    /// The write with this id.
    pub fn find(&self, id: WriteId) -> Option<&Entry>
        ensures { MatchOption result (find_in_doubt id self.now ≡ None) (λ w. find_in_doubt id self.now ≡ Some w.now) }
    {
        self.writes.get(&id)
    }

    /// Puts one more write in its place, instead of one with its id; the new one comes back if memory is refused.
    pub fn put(&mut self, write: Entry) -> Result<(), Entry>
        ensures ok { OnOk result (self.new ≡ put write self.old) }
        ensures err { IfErr result (λ w. (w ≡ write) × (self.new ≡ self.old)) }
    {
        match self.writes.insert(write.id, write) {
            Ok(_) => Ok(()),
            Err(refused) => {
                let (_, write) = refused.value;
                Err(write)
            }
        }
    }

    /// Removes the write with this id.
    pub fn take_out(&mut self, id: WriteId) -> Option<Entry>
        ensures found { result ≡ find_in_doubt id self.old }
        ensures left { self.new ≡ without id self.old }
    {
        self.writes.remove(&id)
    }

    /// The writes, ascending by id.
    pub fn iter(&self) -> Values<'_, WriteId, Entry>
        ensures rest { result ≡ self.now }
        ensures ascending { AreAscendingIds (ids self.now) }
    {
        self.writes.values()
    }

    /// Their ids, ascending.
    pub fn ids(&self, alloc: Global) -> Result<Vec<WriteId>, AllocError>
        ensures all { IfOk result (λ v. v.items ≡ ids self.now) }
        ensures ascending { AreAscendingIds (ids self.now) }
    {
        ids_of(alloc, &self.writes)
    }
}

fn ids_of(alloc: Global, writes: &BTreeMap<WriteId, Entry>) -> Result<Vec<WriteId>, AllocError>
    ensures { IfOk result (λ v. v.items ≡ keys writes.now) }
{
    let mut ids = Vec::with_capacity(alloc, writes.len())?;
    for id in writes.keys() {
        ids.push(*id)?;
    }
    Ok(ids)
}
