// A shard over two devices.
ghost use Rattle.std.specs.Prelude.{◌≡◌, ◌⊎◌, ◌≤◌, ◌<◌, ◌+◌, ◌-◌, ◌^◌, ◌++◌, [], Some, None, true, min, OnOk, OnErr, IfOk, IfErr, IsErr, ◌↔◌, Contains, is_some};
ghost use Rattle.records.specs.declared.record.Record.TheVariants.{Prepare as prepare_record};
ghost use Rattle.records.specs.Replays.{find_in_doubt};
ghost use Rattle.device.specs.Device.{Elapses, Keeps, left};
ghost use Rattle.journal.specs.Records.{HasCause, HasOldOrNew, IsSetOn, LeavesBoth, after_batch};
ghost use Rattle.tuples.specs.declared.entry.Entry.{Entry as AnyEntry};
ghost use Rattle.shard.specs.declared.replies.VoteReply.TheVariants.{Yes, Later, No};
ghost use Rattle.shard.specs.Shards.{IsDurable, IsUp, ShardView, journal_of, memory};

use crate::VoteReply;
use crate::staged_ids::StagedIds;
use decisions::{Ticket, Vote};
use device::{Device, Tear};
use journal::{Bank, Journal};
use records::Identity;
use replay::Memory;
use std::marker::Model;
use tuples::Refusal;

/// A shard over two devices.
///
/// While it is up its memory is the replay of its records, the durable and the staged ones. Once a flush failed nobody knows which of the
/// staged records are durable: the memory keeps them, the journal forgets them, and nothing is answered from either. The shard is of no
/// use but for its devices, and the next opening replays what these have.
#[derive(Drop)]
pub struct Shard<D: Device> {
    // its records: a list that this shard may have, which names it
    pub(crate) journal: Journal<D>,
    // a shard, not the coordinator
    pub(crate) me: Identity,
    // what the records stand for, but for the order of rows of different tuples; opened at least once
    pub(crate) memory: Memory,
    // the ids of the staged prepares
    pub(crate) unflushed: StagedIds,
    // the place that the durable records have learned
    pub(crate) settled: u64,
}

impl<D: Device> Model for Shard<D> {
    ghost use Rattle.std.specs.Prelude.{◌≡◌, ◌≤◌, ◌<◌, ◌++◌};
    ghost use Rattle.shard.specs.Shards.{ShardView};
    ghost use Rattle.shard.specs.Keeping.{IsKept};

    ghost Value = { ShardView D };

    ghost view = { λ s. record { a = s.journal.a; b = s.journal.b; end = s.journal.end; durable = s.journal.durable; staged = s.journal.staged; is_down = s.journal.is_down; me = s.me } };

    ghost invariant = { λ s. IsKept D.state D.honest s.journal s.me s.memory s.unflushed s.settled };
}

impl<D: Device> Shard<D> {
    /// The place up to which decisions are applied.
    pub fn learned(&self) -> Result<u64, Refusal>
        ensures ok { IsUp D.state D.honest self.now → IfOk result (λ n. n ≡ (memory self.now).learned) }
        ensures down { IsErr result ↔ (self.now.is_down ≡ true) }
        ensures err { IfErr result (λ e. e ≡ Refusal.Down) }
    {
        if self.journal.is_down() {
            return Err(Refusal::Down);
        }
        Ok(self.memory.learned())
    }

    /// The place below which it forgot what nobody reads any more.
    pub fn horizon(&self) -> Result<u64, Refusal>
        ensures ok { IsUp D.state D.honest self.now → IfOk result (λ n. n ≡ (memory self.now).horizon) }
        ensures down { IsErr result ↔ (self.now.is_down ≡ true) }
        ensures err { IfErr result (λ e. e ≡ Refusal.Down) }
    {
        if self.journal.is_down() {
            return Err(Refusal::Down);
        }
        Ok(self.memory.horizon())
    }

    /// Makes durable what is staged, all of it or nothing; it takes no memory. After `Down` it may be durable or not, and the shard has to be
    /// opened again.
    pub fn flush(&mut self) -> Result<(), Refusal>
        ensures honest { (D.honest self.old.a ↔ D.honest self.new.a) × (D.honest self.old.b ↔ D.honest self.new.b) }
        ensures any_moment { IsUp D.state D.honest self.old → LeavesBoth D.moment D.left_since self.old.a self.old.b self.new.a self.new.b (HasOldOrNew self.old.durable self.old.staged) }
        ensures ok { IsUp D.state D.honest self.old → OnOk result (IsUp D.state D.honest self.new × (self.new.durable ≡ self.old.durable ++ self.old.staged) × (self.new.staged ≡ [])) }
        ensures me { self.new.me ≡ self.old.me }
        ensures down { self.old.is_down ≡ true → IsErr result }

        // If it is down, or nothing is staged, no call is made.
        ensures quiet { ((self.old.is_down ≡ true) ⊎ (self.old.staged ≡ [])) → self.new ≡ self.old }
        ensures cause { OnErr result ((self.old.is_down ≡ true) ⊎ HasCause D.state D.honest (journal_of self.old) (journal_of self.new)) }
        ensures err { IfErr result (λ e. (e ≡ Refusal.Down) × (self.new.is_down ≡ true)) }
        ensures counts { ((D.state self.old.a).failures ≤ (D.state self.new.a).failures) × ((D.state self.old.b).failures ≤ (D.state self.new.b).failures) }
        ensures none { OnOk result (((D.state self.new.a).failures ≡ (D.state self.old.a).failures) × ((D.state self.new.b).failures ≡ (D.state self.old.b).failures)) }
        ensures end { OnOk result ((self.old.staged ≡ []) ⊎ (self.new.end ≡ after_batch (journal_of self.old))) }
        ensures unmoved { OnErr result (self.new.end ≡ self.old.end) }
    {
        match self.journal.flush() {
            Ok(()) => {
                self.unflushed.clear();
                self.settled = self.memory.learned();
                Ok(())
            }
            Err(_) => Err(Refusal::Down),
        }
    }

    /// What became of a prepare: `Yes` only if it lies in whatever a stop leaves.
    pub fn vote(&self, ticket: Ticket) -> VoteReply
        ensures own { (v : _) → result ≡ Yes v → (v.id ≡ ticket.id) × (v.shard ≡ self.now.me.node) }
        ensures yes { (v : _) → IsUp D.state D.honest self.now → result ≡ Yes v
            → ((p : AnyEntry) → find_in_doubt ticket.id (memory self.now).in_doubt ≡ Some p → IsDurable D.state self.now ticket.id p)
            × (is_some (find_in_doubt ticket.id (memory self.now).in_doubt) ≡ true) }
        ensures back { (t : _) → result ≡ Later t → t ≡ ticket }
        ensures later { (t : _) → IsUp D.state D.honest self.now → result ≡ Later t
            → (is_some (find_in_doubt ticket.id (memory self.now).in_doubt) ≡ true) × ((w : AnyEntry) × (w.id ≡ ticket.id) × Contains self.now.staged (prepare_record w)) }
        ensures no { (e : _) → result ≡ No e → ((e ≡ Refusal.Down) × (self.now.is_down ≡ true))
            ⊎ ((e ≡ Refusal.Aborted) × (IsUp D.state D.honest self.now → find_in_doubt ticket.id (memory self.now).in_doubt ≡ None)) }
        ensures down { self.now.is_down ≡ true → result ≡ No Refusal.Down }
    {
        let id = ticket.id();
        if self.journal.is_down() {
            ticket.leave();
            return VoteReply::No(Refusal::Down);
        }
        if self.memory.find(id).is_none() {
            ticket.leave();
            return VoteReply::No(Refusal::Aborted);
        }
        if self.unflushed.has(id) {
            return VoteReply::Later(ticket);
        }
        ticket.leave();
        VoteReply::Yes(Vote::new(&self.journal, id, self.me.node()))
    }

    /// Whether a device failed since the opening.
    pub fn is_down(&self) -> bool
        ensures { result ≡ self.now.is_down }
    {
        self.journal.is_down()
    }

    /// How many bytes the current bank has, up to the closed gate that ends its list and with it.
    pub fn bank_len(&self) -> u64
        ensures { result ≡ min (2 ^ 64 - 1) (self.now.end + 1) }
    {
        self.journal.bank_len()
    }

    /// Sets the script of one device, and changes nothing else.
    pub fn fail(&mut self, bank: Bank, n: u64, tear: Tear)
        ensures set { IsSetOn D.set_to_fail bank n tear self.old.a self.old.b self.new.a self.new.b }
        ensures honest { (D.honest self.old.a ↔ D.honest self.new.a) × (D.honest self.old.b ↔ D.honest self.new.b) }
        ensures keeps_a { D.honest self.old.a → Keeps (D.state self.old.a) (D.state self.new.a) }
        ensures keeps_b { D.honest self.old.b → Keeps (D.state self.old.b) (D.state self.new.b) }
        ensures failures { ((D.state self.new.a).failures ≡ (D.state self.old.a).failures) × ((D.state self.new.b).failures ≡ (D.state self.old.b).failures) }
        ensures time_a { D.honest self.old.a → Elapses (D.moment self.old.a) (D.moment self.new.a) (D.left_since self.old.a) (D.left_since self.new.a) (left (D.state self.new.a)) }
        ensures time_b { D.honest self.old.b → Elapses (D.moment self.old.b) (D.moment self.new.b) (D.left_since self.old.b) (D.left_since self.new.b) (left (D.state self.new.b)) }
        ensures staged { (self.new.staged ≡ self.old.staged) × (self.new.is_down ≡ self.old.is_down) × (self.new.end ≡ self.old.end) × (self.new.me ≡ self.old.me) }
        ensures durable { D.honest self.old.a → D.honest self.old.b → self.new.durable ≡ self.old.durable }
    {
        self.journal.fail(bank, n, tear);
    }

    /// How many calls of both devices have failed so far; it stays at its greatest value.
    pub fn failures(&self) -> u64
        ensures { result ≡ min (2 ^ 64 - 1) ((D.state self.now.a).failures + (D.state self.now.b).failures) }
    {
        self.journal.failures()
    }

    /// Its devices.
    pub fn devices(&self) -> (&D, &D)
        ensures { (result.0.now ≡ self.now.a) × (result.1.now ≡ self.now.b) }
    {
        self.journal.devices()
    }

    /// Gives the devices back.
    pub fn into_devices(self) -> (D, D)
        ensures { (result.0 ≡ self.a) × (result.1 ≡ self.b) }
    {
        let Shard {
            journal,
            me: _,
            memory: _,
            unflushed: _,
            settled: _,
        } = self;
        journal.into_devices()
    }
}
