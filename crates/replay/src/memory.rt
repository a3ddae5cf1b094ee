// What a shard knows, as the replay of its records.
ghost use Rattle.std.specs.Prelude.{◌≡◌, ◌⊎◌, ◌↔◌, ◌+◌, ◌++◌, ◌∷◌, [], OnOk, OnErr, IfOk, IfErr, IsErrOf, IsTrue, Some, None, MatchOption};
ghost use Rattle.std.specs.List.{AllByRecursion};
ghost use Rattle.holds.specs.Holds.{AreAscendingIds, IsFree, ids};
ghost use Rattle.records.specs.Format.{IsPrepared};
ghost use Rattle.records.specs.declared.record.Record.TheVariants.{Dropped as dropped_record, Epoch as epoch_record, Horizon as horizon_record, Learned as learned_record, Prepare as prepare_record};
ghost use Rattle.records.specs.Replays.{MayCollect, MayDrop, MayLearn, MayOpen, MayPrepare, empty_shard, find_in_doubt, is_held, shard_step};
ghost use Rattle.tuples.specs.Log.{meets_want};
ghost use Rattle.tuples.specs.Reads.{IsSelection};
ghost use Rattle.tuples.specs.Walking.{IsCheckSelection};
ghost use Rattle.tuples.specs.Versions.{last_version, there_at};
ghost use Rattle.versions.specs.Budget.{weights};
ghost use Rattle.versions.specs.Rows.{AreRows};
ghost use Rattle.versions.specs.Walks.{IsInOrder};
ghost use Rattle.replay.specs.Alike.{IsAlike};

use crate::learning::apply_learned;
use crate::rules::{may_collect, may_drop, may_learn, may_open, may_prepare};
use holds::Holds;
use records::{Identity, PlacedId};
use std::alloc::{AllocError, Global};
use std::collections::btree_map::Values;
use std::marker::Model;
use std::slice;
use tuples::{
    Change, Condition, Entry, Refusal, Tuple, Tupleset, User, Userset, Version, Want, WriteId,
};
use versions::{Budget, Versions, Walk};

/// What a shard knows; contracts see it as the state that its records stand for.
#[derive(Drop)]
pub struct Memory {
    in_doubt: Holds,
    learned: u64,
    horizon: u64,
    versions: Versions,
    epoch: u64,
}

impl Model for Memory {
    ghost use Rattle.std.specs.List.{AllByRecursion};
    ghost use Rattle.records.specs.Format.{IsPrepared};
    ghost use Rattle.records.specs.Replays.{ShardState};

    ghost Value = { ShardState };

    ghost view = { λ m. record { in_doubt = m.in_doubt; learned = m.learned; horizon = m.horizon; rows = m.versions; epoch = m.epoch } };

    ghost invariant = { λ m. AllByRecursion IsPrepared m.in_doubt };
}

impl Memory {
    /// The state of a shard that was never opened; allocates nothing.
    pub fn new(alloc: Global) -> Memory
        ensures { result ≡ empty_shard }
    {
        Memory {
            in_doubt: Holds::new(alloc),
            learned: 0,
            horizon: 0,
            versions: Versions::new(alloc),
            epoch: 0,
        }
    }

    pub(crate) fn replay_prepare(&mut self, me: Identity, entry: Entry) -> Result<(), Refusal>
        requires { IsPrepared entry }
        ensures ok { OnOk result (MayPrepare me self.old entry × IsAlike self.new (shard_step self.old (prepare_record entry))) }
        ensures damaged { IsErrOf result Refusal.Damaged → MayPrepare me self.old entry → ⊥ }
        ensures err { IfErr result (λ e. (e ≡ Refusal.Damaged) ⊎ (e ≡ Refusal.NoMemory)) }
    {
        if !may_prepare(me, self, &entry) {
            return Err(Refusal::Damaged);
        }
        self.prepare(entry)?;
        Ok(())
    }

    pub(crate) fn replay_learned(
        &mut self,
        alloc: Global,
        to: u64,
        placed_ids: &[PlacedId],
    ) -> Result<(), Refusal>
        ensures ok { OnOk result (MayLearn self.old to placed_ids.now × IsAlike self.new (shard_step self.old (learned_record to placed_ids.now))) }
        ensures damaged { IsErrOf result Refusal.Damaged → MayLearn self.old to placed_ids.now → ⊥ }
        ensures err { IfErr result (λ e. (e ≡ Refusal.Damaged) ⊎ (e ≡ Refusal.NoMemory)) }
    {
        if !may_learn(self, to, placed_ids) {
            return Err(Refusal::Damaged);
        }
        self.learn(alloc, to, placed_ids)?;
        Ok(())
    }

    #[tactic(auto, unfolding(records::specs::Replays::shard_step))]
    pub(crate) fn replay_dropped(&mut self, id: WriteId) -> Result<(), Refusal>
        ensures ok { OnOk result (MayDrop self.old id × IsAlike self.new (shard_step self.old (dropped_record id))) }
        ensures damaged { IsErrOf result Refusal.Damaged → MayDrop self.old id → ⊥ }
        ensures err { IfErr result (λ e. e ≡ Refusal.Damaged) }
    {
        if !may_drop(self, id) {
            return Err(Refusal::Damaged);
        }
        self.drop_write(id);
        Ok(())
    }

    #[tactic(auto, unfolding(records::specs::Replays::shard_step))]
    pub(crate) fn replay_epoch(
        &mut self,
        me: Identity,
        epoch: u64,
        store: u64,
        shards: u8,
        node: u8,
    ) -> Result<(), Refusal>
        ensures ok { OnOk result (MayOpen me self.old epoch store shards node × IsAlike self.new (shard_step self.old (epoch_record epoch store shards node))) }
        ensures damaged { IsErrOf result Refusal.Damaged → MayOpen me self.old epoch store shards node → ⊥ }
        ensures err { IfErr result (λ e. e ≡ Refusal.Damaged) }
    {
        if !may_open(me, self, epoch, store, shards, node) {
            return Err(Refusal::Damaged);
        }
        self.open_epoch(epoch);
        Ok(())
    }

    #[tactic(auto, unfolding(records::specs::Replays::shard_step))]
    pub(crate) fn replay_horizon(&mut self, place: u64) -> Result<(), Refusal>
        ensures ok { OnOk result (MayCollect self.old place × IsAlike self.new (shard_step self.old (horizon_record place))) }
        ensures damaged { IsErrOf result Refusal.Damaged → MayCollect self.old place → ⊥ }
        ensures err { IfErr result (λ e. e ≡ Refusal.Damaged) }
    {
        if !may_collect(self, place) {
            return Err(Refusal::Damaged);
        }
        self.collect(place);
        Ok(())
    }

    /// Counts one more opening.
    pub fn open_epoch(&mut self, epoch: u64)
        ensures { self.new ≡ record self.old { epoch = epoch } }
    {
        self.epoch = epoch;
    }

    /// Holds a write in doubt: `Busy` if it is not free, `NoMemory`. After a refusal nothing has changed.
    #[tactic(auto, unfolding(records::specs::Replays::shard_step))]
    pub fn prepare(&mut self, entry: Entry) -> Result<(), Refusal>
        requires { IsPrepared entry }
        ensures ok { OnOk result (self.new ≡ shard_step self.old (prepare_record entry)) }
        ensures busy { IsErrOf result Refusal.Busy ↔ (IsFree self.old.in_doubt entry → ⊥) }
        ensures err { IfErr result (λ e. (e ≡ Refusal.Busy) ⊎ (e ≡ Refusal.NoMemory)) }
        ensures same { OnErr result (self.new ≡ self.old) }
    {
        self.in_doubt.take(entry)?;
        Ok(())
    }

    /// Applies decided writes up to a place. If memory is refused, nothing has changed.
    #[tactic(auto, unfolding(records::specs::Replays::shard_step))]
    pub fn learn(
        &mut self,
        alloc: Global,
        to: u64,
        placed_ids: &[PlacedId],
    ) -> Result<(), AllocError>
        requires { MayLearn self.old to placed_ids.now }
        ensures ok { OnOk result (IsAlike self.new (shard_step self.old (learned_record to placed_ids.now))) }
        ensures err { OnErr result (self.new ≡ self.old) }
    {
        apply_learned(&mut self.versions, alloc, placed_ids, &self.in_doubt)?;
        // Nothing is refused from here on.
        self.learned = to;
        self.in_doubt.release_placed_ids(placed_ids);
        Ok(())
    }

    /// Releases a write; allocates nothing.
    #[tactic(auto, unfolding(records::specs::Replays::shard_step))]
    pub fn drop_write(&mut self, id: WriteId)
        ensures { self.new ≡ shard_step self.old (dropped_record id) }
    {
        let _write = self.in_doubt.release(id);
    }

    /// Sets the horizon and forgets the versions under it; allocates nothing.
    #[tactic(auto, unfolding(records::specs::Replays::shard_step))]
    pub fn collect(&mut self, place: u64)
        ensures { IsAlike self.new (shard_step self.old (horizon_record place)) }
    {
        self.horizon = place;
        self.versions.collect(place);
    }

    /// Adds a version, after those of its tuple.
    pub(crate) fn add_version(&mut self, place: u64, change: &Change) -> Result<(), AllocError>
        ensures ok { OnOk result (IsAlike self.new (record self.old { rows = self.old.rows ++ record { place = place; change = change.now } ∷ [] })) }
        ensures err { OnErr result (self.new ≡ self.old) }
    {
        self.versions.apply(place, slice::from_ref(change))
    }

    /// The place of the newest version of the tuple, or 0.
    pub(crate) fn last(&self, tuple: &Tuple) -> u64
        ensures { result ≡ last_version self.now.rows tuple.now }
    {
        self.versions.last(tuple)
    }

    /// The place up to which decisions are applied.
    pub fn learned(&self) -> u64
        ensures { result ≡ self.now.learned }
    {
        self.learned
    }

    /// The place below which nothing is read.
    pub fn horizon(&self) -> u64
        ensures { result ≡ self.now.horizon }
    {
        self.horizon
    }

    /// How often the shard was opened.
    pub fn epoch(&self) -> u64
        ensures { result ≡ self.now.epoch }
    {
        self.epoch
    }

    /// The write in doubt with this id.
    pub fn find(&self, id: WriteId) -> Option<&Entry>
        ensures { MatchOption result (find_in_doubt id self.now.in_doubt ≡ None) (λ w. find_in_doubt id self.now.in_doubt ≡ Some w.now) }
    {
        self.in_doubt.find(id)
    }

    /// Whether a write in doubt names the tuple.
    pub fn is_held(&self, tuple: &Tuple) -> bool
        ensures { result ≡ is_held tuple.now self.now.in_doubt }
    {
        self.in_doubt.is_held(tuple)
    }

    /// Whether no write in doubt has the id of this one, or names one of its tuples.
    pub fn is_free(&self, entry: &Entry) -> bool
        ensures { IsTrue result ↔ IsFree self.now.in_doubt entry.now }
    {
        self.in_doubt.is_free(entry)
    }

    /// Whether the condition holds by the versions that the shard has learned.
    pub fn holds(&self, condition: &Condition) -> bool
        ensures { result ≡ meets_want condition.now.want (last_version self.now.rows condition.now.tuple) (there_at self.now.rows self.now.learned condition.now.tuple) }
    {
        match condition.want {
            Want::NotAfter(place) => self.versions.last(&condition.tuple) <= place,
            Want::Exists => self.versions.is_there(self.learned, &condition.tuple),
            Want::Absent => !self.versions.is_there(self.learned, &condition.tuple),
        }
    }

    /// The tuples that are there at a place and meet the tupleset, ascending. Each is counted: what the budget has no bytes for is refused.
    pub fn at(
        &self,
        alloc: Global,
        place: u64,
        set: &Tupleset,
        budget: &mut Budget,
    ) -> Result<Vec<Tuple>, AllocError>
        ensures rows { IfOk result (λ tuples. IsSelection (there_at self.now.rows place) set.now tuples.items) }
        ensures counted { IfOk result (λ tuples. budget.new + weights tuples.items ≡ budget.old) }
    {
        self.versions.at(alloc, place, set, budget)
    }

    /// The tuples that are there at a place and that a check of a userset asks for, ascending: the user's, and those of usersets. Each is counted.
    pub fn asked_at(
        &self,
        alloc: Global,
        place: u64,
        userset: &Userset,
        user: &User,
        budget: &mut Budget,
    ) -> Result<Vec<Tuple>, AllocError>
        ensures rows { IfOk result (λ tuples. IsCheckSelection (there_at self.now.rows place) userset.now user.now tuples.items) }
        ensures counted { IfOk result (λ tuples. budget.new + weights tuples.items ≡ budget.old) }
    {
        self.versions.asked_at(alloc, place, userset, user, budget)
    }

    /// Copies of the versions, by tuple and then by place.
    pub fn rows(&self, alloc: Global) -> Result<Vec<Version>, AllocError>
        ensures { IfOk result (λ v. AreRows self.now.rows v.items) }
    {
        self.versions.rows(alloc)
    }

    /// All versions, by tuple, each tuple's in the order in which they were applied; no copies.
    pub fn walk(&self) -> Walk<'_>
        ensures all { result ≡ self.now.rows }
        ensures in_order { IsInOrder self.now.rows }
    {
        self.versions.walk()
    }

    /// The writes in doubt, ascending by id; no copies.
    pub fn doubts(&self) -> Values<'_, WriteId, Entry>
        ensures rest { result ≡ self.now.in_doubt }
        ensures prepared { AllByRecursion IsPrepared self.now.in_doubt }
    {
        self.in_doubt.iter()
    }

    /// The ids of the writes in doubt, ascending.
    pub fn ids_in_doubt(&self, alloc: Global) -> Result<Vec<WriteId>, AllocError>
        ensures ascending { IfOk result (λ v. AreAscendingIds v.items) }
        ensures exact { IfOk result (λ v. v.items ≡ ids self.now.in_doubt) }
    {
        self.in_doubt.in_doubt(alloc)
    }

    pub(crate) fn held(&self) -> &Holds
        ensures { result.now ≡ self.now.in_doubt }
    {
        &self.in_doubt
    }
}
