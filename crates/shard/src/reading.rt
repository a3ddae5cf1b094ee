// What a shard tells of what it knows.
ghost use Rattle.std.specs.Prelude.{◌≡◌, ◌⊎◌, ◌≤◌, ◌<◌, ◌+◌, true, IfOk, IfErr, IsErr, IsErrOf, ◌↔◌, Contains, ◌∷◌, []};
ghost use Rattle.refusal.specs.Refusals.{IsOneOf};
ghost use Rattle.tuples.specs.Reads.{IsSelection};
ghost use Rattle.tuples.specs.Walking.{IsCheckSelection};
ghost use Rattle.tuples.specs.Versions.{there_at};
ghost use Rattle.shard.specs.declared.replies.ReadReply.TheVariants.{Rows, Behind};
ghost use Rattle.tuples.specs.declared.tuple.Tuple.{Tuple as AnyTuple};
ghost use Rattle.versions.specs.Alike.{AreAlike, of_tuple};
ghost use Rattle.versions.specs.Budget.{weights};
ghost use Rattle.versions.specs.Rows.{AreRows};
ghost use Rattle.versions.specs.Walks.{Rise};
ghost use Rattle.shard.specs.Shards.{AreAscendingIds, IsUp, ids, memory};

use crate::{ReadReply, Shard};
use device::Device;
use replay::Memory;
use std::alloc::Global;
use tuples::{Refusal, Tupleset, User, Userset, Version, WriteId};
use versions::Budget;

impl<D: Device> Shard<D> {
    /// The ids of the writes that are prepared and neither learned nor dropped, ascending.
    pub fn in_doubt(&self, alloc: Global) -> Result<Vec<WriteId>, Refusal>
        ensures ok { IsUp D.state D.honest self.now → IfOk result (λ v. AreAscendingIds v.items × ((id : _) → Contains v.items id ↔ Contains (ids (memory self.now).in_doubt) id)) }
        ensures down { IsErrOf result Refusal.Down ↔ (self.now.is_down ≡ true) }
        ensures err { IfErr result (λ e. (e ≡ Refusal.Down) ⊎ (e ≡ Refusal.NoMemory)) }
    {
        if self.journal.is_down() {
            return Err(Refusal::Down);
        }
        match self.memory.ids_in_doubt(alloc) {
            Ok(ids) => Ok(ids),
            Err(_) => Err(Refusal::NoMemory),
        }
    }

    /// What it has in memory, to be walked over: nothing is copied.
    pub fn known(&self) -> Result<&Memory, Refusal>
        ensures ok { IsUp D.state D.honest self.now → IfOk result (λ known. AreAlike known.now.rows (memory self.now).rows) }
        ensures rise { IfOk result (λ known. (t : AnyTuple) → Rise (of_tuple t known.now.rows)) }
        ensures down { IsErrOf result Refusal.Down ↔ (self.now.is_down ≡ true) }
        ensures err { IfErr result (λ e. e ≡ Refusal.Down) }
    {
        if self.journal.is_down() {
            return Err(Refusal::Down);
        }
        Ok(&self.memory)
    }

    /// Its versions, by tuple and then by place.
    pub fn rows(&self, alloc: Global) -> Result<Vec<Version>, Refusal>
        ensures ok { IsUp D.state D.honest self.now → IfOk result (λ v. AreRows (memory self.now).rows v.items) }
        ensures down { IsErrOf result Refusal.Down ↔ (self.now.is_down ≡ true) }
        ensures err { IfErr result (λ e. (e ≡ Refusal.Down) ⊎ (e ≡ Refusal.NoMemory)) }
    {
        if self.journal.is_down() {
            return Err(Refusal::Down);
        }
        match self.memory.rows(alloc) {
            Ok(rows) => Ok(rows),
            Err(_) => Err(Refusal::NoMemory),
        }
    }

    /// The tuples of this shard that are there at a place and meet the tupleset, ascending; `Behind` if the place is above what it
    /// has learned. `Collected` if the place is below its horizon, `Down`, `NoMemory`, which is also told if the budget has no
    /// bytes for a tuple.
    pub fn read(
        &self,
        alloc: Global,
        place: u64,
        set: &Tupleset,
        budget: &mut Budget,
    ) -> Result<ReadReply, Refusal>
        ensures rows { (ts : _) → IsUp D.state D.honest self.now → IfOk result (λ r. r ≡ Rows ts → (place ≤ (memory self.now).learned) × ((memory self.now).horizon ≤ place)
            × IsSelection (there_at (memory self.now).rows place) set.now ts.items) }
        ensures counted { (ts : _) → IfOk result (λ r. r ≡ Rows ts → budget.new + weights ts.items ≡ budget.old) }
        ensures behind { IsUp D.state D.honest self.now → IfOk result (λ r. r ≡ Behind → (memory self.now).learned < place) }
        ensures ahead { IsUp D.state D.honest self.now → (memory self.now).horizon ≤ place → (memory self.now).learned < place → IfOk result (λ r. r ≡ Behind) × (IsErr result → ⊥) }
        ensures collected { IsUp D.state D.honest self.now → IsErrOf result Refusal.Collected ↔ (place < (memory self.now).horizon) }
        ensures down { IsErrOf result Refusal.Down ↔ (self.now.is_down ≡ true) }
        ensures err { IfErr result (λ e. IsOneOf e (Refusal.Down ∷ Refusal.Collected ∷ Refusal.NoMemory ∷ [])) }
    {
        if self.journal.is_down() {
            return Err(Refusal::Down);
        }
        if place < self.memory.horizon() {
            return Err(Refusal::Collected);
        }
        if self.memory.learned() < place {
            return Ok(ReadReply::Behind);
        }
        match self.memory.at(alloc, place, set, budget) {
            Ok(tuples) => Ok(ReadReply::Rows(tuples)),
            Err(_) => Err(Refusal::NoMemory),
        }
    }

    /// The tuples of this shard that are there at a place and that a check asks of a userset, ascending: that of the user, and those of
    /// usersets. `Behind` and the refusals are those of `read`.
    pub fn read_for_check(
        &self,
        alloc: Global,
        place: u64,
        userset: &Userset,
        user: &User,
        budget: &mut Budget,
    ) -> Result<ReadReply, Refusal>
        ensures rows { (ts : _) → IsUp D.state D.honest self.now → IfOk result (λ r. r ≡ Rows ts → (place ≤ (memory self.now).learned) × ((memory self.now).horizon ≤ place)
            × IsCheckSelection (there_at (memory self.now).rows place) userset.now user.now ts.items) }
        ensures counted { (ts : _) → IfOk result (λ r. r ≡ Rows ts → budget.new + weights ts.items ≡ budget.old) }
        ensures behind { IsUp D.state D.honest self.now → IfOk result (λ r. r ≡ Behind → (memory self.now).learned < place) }
        ensures ahead { IsUp D.state D.honest self.now → (memory self.now).horizon ≤ place → (memory self.now).learned < place → IfOk result (λ r. r ≡ Behind) × (IsErr result → ⊥) }
        ensures collected { IsUp D.state D.honest self.now → IsErrOf result Refusal.Collected ↔ (place < (memory self.now).horizon) }
        ensures down { IsErrOf result Refusal.Down ↔ (self.now.is_down ≡ true) }
        ensures err { IfErr result (λ e. IsOneOf e (Refusal.Down ∷ Refusal.Collected ∷ Refusal.NoMemory ∷ [])) }
    {
        if self.journal.is_down() {
            return Err(Refusal::Down);
        }
        if place < self.memory.horizon() {
            return Err(Refusal::Collected);
        }
        if self.memory.learned() < place {
            return Ok(ReadReply::Behind);
        }
        match self.memory.asked_at(alloc, place, userset, user, budget) {
            Ok(tuples) => Ok(ReadReply::Rows(tuples)),
            Err(_) => Err(Refusal::NoMemory),
        }
    }
}
