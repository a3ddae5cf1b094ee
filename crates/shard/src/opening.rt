// Opening a shard: what an opening has to know of it, and the shard of what was opened.
ghost use Rattle.std.specs.Prelude.{◌≡◌, ◌⊎◌, ◌↔◌, ◌≤◌, ◌<◌, List, Some, true, false, IfOk, IfErr, IsErr, MatchResult, [], ◌∷◌};
ghost use Rattle.refusal.specs.Refusals.{IsOneOf};
ghost use Rattle.device.specs.Device.{HasFailed};
ghost use Rattle.journal.specs.Records.{LeavesBoth, found};
ghost use Rattle.records.specs.declared.record.Record.{Record as AnyRecord};
ghost use Rattle.records.specs.Replays.{IsShardImage, greatest_number, shard_state};
ghost use Rattle.shard.specs.Keeping.{IsMemoryOf};
ghost use Rattle.shard.specs.Shards.{IsOpenedShard, LacksRoomToOpen, WasLeftOrOpened, opening, openings_in};
ghost use Rattle.std.proofs.Common.{refl, arith};
ghost use Rattle.replay.proofs.States.{image_push};

use crate::Shard;
use crate::staged_ids::StagedIds;
use device::Device;
use journal::{Refused, Unread};
use openings::NodeKind;
use records::Identity;
use replay::{Memory, Replay};
use std::alloc::Global;
use tuples::Refusal;

/// A shard, as an opening knows it.
pub(crate) struct ShardKind;

impl NodeKind for ShardKind {
    type Memory = Memory;

    ghost names = { λ me. me.node < me.shards };

    ghost image = { IsShardImage };

    ghost made_of = { IsMemoryOf };

    ghost epoch_in = { openings_in };

    fn replayed(alloc: Global, me: Identity, mut unread: Unread) -> Result<Memory, Refusal> {
        let mut replay = Replay::new(alloc);
        while let Some(record) = unread.next(alloc)? {
            replay.take(alloc, me, record)?;
        }
        replay.into_memory()
    }

    fn epoch(memory: &Memory) -> u64 {
        memory.epoch()
    }

    ghost opens = { λ me rs named image below. image_push me rs (opening me rs) image (record { next = refl; greatest = Prim.omega (arith, below); same_store = refl; same_shards = refl; same_node = refl }) };
}

impl<D: Device> Shard<D> {
    /// Opens the shard with this identity: replays its journal, and makes one `Epoch` record more durable.
    ///
    /// Each refusal gives the devices back: `Down` if a call of a device failed, or the current bank would grow past 2^40 bytes; `NoMemory`;
    /// `Full` after the last epoch; `Damaged` if the devices have no records of this shard of this store.
    pub fn open(alloc: Global, a: D, b: D, me: Identity) -> Result<Shard<D>, Refused<D>>
        requires node { me.node < me.shards }
        ensures honest { MatchResult result (λ s. (D.honest a ↔ D.honest s.a) × (D.honest b ↔ D.honest s.b)) (λ e. (D.honest a ↔ D.honest e.a) × (D.honest b ↔ D.honest e.b)) }
        ensures ok { D.honest a → D.honest b → IfOk result (λ s. IsOpenedShard D.state D.honest a b me s) }
        ensures fresh { IfOk result (λ s. (s.staged ≡ []) × (s.is_down ≡ false) × (s.me ≡ me)) }

        // Damaged exactly if there are no records of this shard.
        ensures damaged { D.honest a → D.honest b → IfErr result (λ e. e.refusal ≡ Refusal.Damaged → (rs : List AnyRecord) → found (D.state a).seen (D.state b).seen ≡ Some rs
            → IsShardImage me rs → ⊥) }

        // Full only if the records are this shard's, after its last epoch.
        ensures full { D.honest a → D.honest b → IfErr result (λ e. e.refusal ≡ Refusal.Full → (rs : List AnyRecord) × (found (D.state a).seen (D.state b).seen ≡ Some rs)
            × IsShardImage me rs × ((shard_state rs).epoch ≡ greatest_number)) }
        ensures err { IfErr result (λ e. IsOneOf e.refusal (Refusal.Down ∷ Refusal.NoMemory ∷ Refusal.Full ∷ Refusal.Damaged ∷ [])) }

        // Down only if a device failed in this call, or the current bank has no room.
        ensures down { IfErr result (λ e. e.refusal ≡ Refusal.Down → HasFailed (D.state a) (D.state e.a) ⊎ (HasFailed (D.state b) (D.state e.b) ⊎ LacksRoomToOpen D.state D.honest a b me)) }
        ensures stopped { ((D.state a).stopped ≡ true) ⊎ ((D.state b).stopped ≡ true) → IsErr result }
        ensures counts_a { MatchResult result (λ s. (D.state a).failures ≤ (D.state s.a).failures) (λ e. (D.state a).failures ≤ (D.state e.a).failures) }
        ensures counts_b { MatchResult result (λ s. (D.state b).failures ≤ (D.state s.b).failures) (λ e. (D.state b).failures ≤ (D.state e.b).failures) }
        ensures none { MatchResult result (λ s. ((D.state s.a).failures ≡ (D.state a).failures) × ((D.state s.b).failures ≡ (D.state b).failures))
            (λ e. (e.refusal ≡ Refusal.Down) ⊎ (((D.state e.a).failures ≡ (D.state a).failures) × ((D.state e.b).failures ≡ (D.state b).failures))) }

        // At every moment of the call a stop leaves what it could leave before, or the records found, with this opening's or without.
        ensures any_moment { D.honest a → D.honest b → MatchResult result
            (λ s. LeavesBoth D.moment D.left_since a b s.a s.b (WasLeftOrOpened me (D.state a) (D.state b)))
            (λ e. LeavesBoth D.moment D.left_since a b e.a e.b (WasLeftOrOpened me (D.state a) (D.state b))) }
    {
        match openings::open::<D, ShardKind>(alloc, a, b, me) {
            Ok((journal, mut memory)) => {
                let epoch = memory.epoch() + 1;
                memory.open_epoch(epoch);
                let settled = memory.learned();
                Ok(Shard {
                    journal,
                    me,
                    memory,
                    unflushed: StagedIds::new(alloc),
                    settled,
                })
            }
            Err(refused) => Err(refused),
        }
    }
}
