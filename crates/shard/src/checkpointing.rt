// A checkpoint of a shard, in place of all its records.
ghost use Rattle.std.specs.Prelude.{◌≡◌, ◌⊎◌, ◌↔◌, ◌≤◌, ◌<◌, ◌+◌, [], Err, OnErr, OnOk, IfErr, IsErrOf, true, false};
ghost use Rattle.device.specs.Device.{HasFailed};
ghost use Rattle.journal.specs.Ahead.{HasOldOrNewOr, HasPointCause, StaysOrGains, checkpoint_of};
ghost use Rattle.journal.specs.Records.{HasRecords, LeavesEach};
ghost use Rattle.records.specs.Checkpoints.{generation_of};
ghost use Rattle.records.specs.Format.{AreRecords};
ghost use Rattle.records.specs.Replays.{greatest_number};
ghost use Rattle.versions.specs.Walks.{IsInOrder};
ghost use Rattle.shard.specs.Checkpoints.{ChecksPointAt, HasOldNewOrPoint, heads_of, told_by};
ghost use Rattle.shard.specs.Shards.{IsUp, journal_of};

use crate::Shard;
use crate::known::Known;
use device::Device;
use journal::{Journal, len_of};
use records::{Identity, PlacedIds, Record};
use replay::Memory;
use std::alloc::{AllocError, Global};
use tuples::Refusal;

// The records before the versions, which take no memory.
fn heads(alloc: Global, me: Identity, memory: &Memory) -> [Record; 3]
    ensures are { AreRecords result }
    ensures value { result ≡ heads_of me memory.now }
{
    let epoch = Record::Epoch {
        epoch: memory.epoch(),
        store: me.store(),
        shards: me.shards().count(),
        node: me.node(),
    };
    let learned = Record::Learned {
        to: memory.learned(),
        placed_ids: PlacedIds::from_vec(Vec::new(alloc)),
    };
    [epoch, Record::Horizon(memory.horizon()), learned]
}

// Writes a checkpoint of what the memory has.
fn write<D: Device>(
    journal: &mut Journal<D>,
    alloc: Global,
    me: Identity,
    memory: &Memory,
) -> Result<(), Refusal>
    ensures honest { (D.honest journal.old.a ↔ D.honest journal.new.a) × (D.honest journal.old.b ↔ D.honest journal.new.b) }
    ensures any_moment { D.honest journal.old.a → D.honest journal.old.b → journal.old.is_down ≡ false → LeavesEach D.moment D.left_since journal.old.a journal.old.b journal.new.a journal.new.b
        (HasOldOrNewOr journal.old.durable journal.old.staged (checkpoint_of (generation_of journal.old.durable + 1) (told_by me memory.now))) }
    ensures ok { D.honest journal.old.a → D.honest journal.old.b → OnOk result ((journal.new.durable ≡ checkpoint_of (generation_of journal.old.durable + 1) (told_by me memory.now))
        × HasRecords (D.state journal.new.a) (D.state journal.new.b) journal.new.durable) }
    ensures next { D.honest journal.old.a → D.honest journal.old.b → OnOk result (generation_of journal.old.durable < greatest_number) }
    ensures up { OnOk result ((journal.old.is_down ≡ false) × (journal.new.is_down ≡ false) × (journal.new.staged ≡ [])) }
    ensures err { IfErr result (λ e. ((e ≡ Refusal.Down) × (journal.new.is_down ≡ true)) ⊎ ((journal.new ≡ journal.old) × ((e ≡ Refusal.NoMemory) ⊎ (e ≡ Refusal.Full)))) }
    ensures full { D.honest journal.old.a → D.honest journal.old.b → IsErrOf result Refusal.Full → greatest_number ≤ generation_of journal.old.durable }
    ensures cause { IsErrOf result Refusal.Down → (journal.old.is_down ≡ true) ⊎ HasPointCause D.state D.honest journal.old journal.new }
    ensures counts { ((D.state journal.old.a).failures ≤ (D.state journal.new.a).failures) × ((D.state journal.old.b).failures ≤ (D.state journal.new.b).failures) }
    ensures none { IsErrOf result Refusal.Down ⊎ (((D.state journal.new.a).failures ≡ (D.state journal.old.a).failures) × ((D.state journal.new.b).failures ≡ (D.state journal.old.b).failures)) }
    ensures moved { OnErr result (StaysOrGains journal.old.end journal.old.staged journal.new.end) }
    ensures quiet { journal.old.is_down ≡ true → (result ≡ Err Refusal.Down) × (journal.new ≡ journal.old) }
    ensures last { D.honest journal.old.a → D.honest journal.old.b → journal.old.is_down ≡ false → greatest_number ≤ generation_of journal.old.durable → (result ≡ Err Refusal.Full) × (journal.new ≡ journal.old) }
    ensures in_order { IsInOrder memory.now.rows }
{
    let heads = heads(alloc, me, memory);
    let mut known = Known::new(&heads, memory);
    journal.checkpoint(alloc, &mut known)
}

impl<D: Device> Shard<D> {
    /// How many bytes a checkpoint of what the shard knows has, but for the few around its records. It takes the memory of one batch.
    pub fn checkpoint_len(&self, alloc: Global) -> Result<u64, AllocError> {
        let heads = heads(alloc, self.me, &self.memory);
        let mut known = Known::new(&heads, &self.memory);
        len_of(alloc, &mut known)
    }

    /// Whether the disk has the room for a checkpoint of so many bytes, as far as that can be told (`Device::has_room`).
    pub fn has_point_room(&self, len: u64) -> bool {
        self.journal.has_point_room(len)
    }

    /// Makes durable what is staged, and then a checkpoint of what the shard knows in place of all its records. It takes the memory of one
    /// batch, before any call of a device.
    ///
    /// `Down` as of a flush: the next opening finds the old records, with what was staged or without, or the checkpoint. `NoMemory`, and `Full`
    /// after the last generation: nothing is changed.
    pub fn checkpoint(&mut self, alloc: Global) -> Result<(), Refusal>
        ensures honest { (D.honest self.old.a ↔ D.honest self.new.a) × (D.honest self.old.b ↔ D.honest self.new.b) }
        ensures any_moment { IsUp D.state D.honest self.old → LeavesEach D.moment D.left_since self.old.a self.old.b self.new.a self.new.b (HasOldNewOrPoint self.old) }
        ensures ok { IsUp D.state D.honest self.old → OnOk result (ChecksPointAt D.state D.honest self.old self.new) }
        ensures me { self.new.me ≡ self.old.me }

        // If it is refused, the list of the current bank ends where it did, or, after `Down`, after what was staged.
        ensures moved { OnErr result (StaysOrGains self.old.end self.old.staged self.new.end) }

        // If it is down, no call is made, and after the last generation none either.
        ensures down { self.old.is_down ≡ true → (result ≡ Err Refusal.Down) × (self.new ≡ self.old) }
        ensures last { IsUp D.state D.honest self.old → greatest_number ≤ generation_of self.old.durable → self.new ≡ self.old }
        ensures full { IsUp D.state D.honest self.old → IsErrOf result Refusal.Full → greatest_number ≤ generation_of self.old.durable }
        ensures err { IfErr result (λ e. ((e ≡ Refusal.Down) × (self.new.is_down ≡ true)) ⊎ ((self.new ≡ self.old) × ((e ≡ Refusal.NoMemory) ⊎ (e ≡ Refusal.Full)))) }
        ensures cause { IsErrOf result Refusal.Down → (self.old.is_down ≡ true) ⊎ HasPointCause D.state D.honest (journal_of self.old) (journal_of self.new) }
        ensures counts { ((D.state self.old.a).failures ≤ (D.state self.new.a).failures) × ((D.state self.old.b).failures ≤ (D.state self.new.b).failures) }
        ensures none { IsErrOf result Refusal.Down ⊎ (((D.state self.new.a).failures ≡ (D.state self.old.a).failures) × ((D.state self.new.b).failures ≡ (D.state self.old.b).failures)) }
    {
        match write(&mut self.journal, alloc, self.me, &self.memory) {
            Ok(()) => {
                self.unflushed.clear();
                self.settled = self.memory.learned();
                Ok(())
            }
            Err(refusal) => Err(refusal),
        }
    }
}
