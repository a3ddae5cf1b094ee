// Opening a coordinator: what an opening has to know of it, and the coordinator of what was opened.
ghost use Rattle.std.specs.Prelude.{◌≡◌, ◌⊎◌, ◌↔◌, ◌≤◌, List, Some, [], true, false, IfOk, IfErr, IsErr, MatchResult, ◌∷◌};
ghost use Rattle.refusal.specs.Refusals.{IsOneOf};
ghost use Rattle.device.specs.Device.{HasFailed};
ghost use Rattle.journal.specs.Records.{LeavesBoth, found};
ghost use Rattle.records.specs.declared.record.Record.{Record as AnyRecord};
ghost use Rattle.records.specs.Identity.{coordinator_number};
ghost use Rattle.records.specs.Coordinators.{IsCoordinatorImage, coordinator_state};
ghost use Rattle.records.specs.Replays.{greatest_number};
ghost use Rattle.decisions.specs.Coordinators.{IsOpenedCoordinator, WasLeftOrReopened, coordinator_opening};
ghost use Rattle.coordinator.specs.Keeping.{HasNoRoomToOpen, IsMemoryOf, openings_in};
ghost use Rattle.std.proofs.Common.{refl, arith};
ghost use Rattle.records.proofs.CoordinatorStates.{coordinator_image_push};

use crate::Coordinator;
use device::Device;
use journal::{Refused, Unread};
use openings::NodeKind;
use records::Identity;
use recovery::{Recovery, Replay};
use std::alloc::Global;
use tuples::Refusal;

/// A coordinator, as an opening knows it.
pub(crate) struct CoordinatorKind;

impl NodeKind for CoordinatorKind {
    type Memory = Recovery;

    ghost names = { λ me. me.node ≡ coordinator_number };

    ghost image = { IsCoordinatorImage };

    ghost made_of = { IsMemoryOf };

    ghost epoch_in = { openings_in };

    fn replayed(alloc: Global, me: Identity, mut unread: Unread) -> Result<Recovery, Refusal> {
        let mut so_far = Replay::new(alloc);
        while let Some(record) = unread.next(alloc)? {
            so_far = so_far.take(alloc, me, record)?;
        }
        so_far.into_recovery()
    }

    fn epoch(recovery: &Recovery) -> u64 {
        recovery.epoch()
    }

    ghost opens = { λ me rs named image below. coordinator_image_push me rs (coordinator_opening me rs) image (record { next = refl; greatest = Prim.omega (arith, below); same_store = refl; same_shards = refl; same_node = refl; coordinator = named }) };
}

impl<D: Device> Coordinator<D> {
    /// Opens the coordinator with this identity: replays its journal, and makes one `Epoch` record more durable.
    ///
    /// Each refusal gives the devices back: `Down` if a call of a device failed, or the current bank has no room for the record; `NoMemory`; `Full`
    /// after the last epoch; and `Damaged` if the devices have no records of this coordinator of this store, a condition that does not
    /// hold at its decision among the causes.
    pub fn open(alloc: Global, a: D, b: D, me: Identity) -> Result<Coordinator<D>, Refused<D>>
        requires coordinator { me.node ≡ coordinator_number }
        ensures honest { MatchResult result (λ s. (D.honest a ↔ D.honest s.a) × (D.honest b ↔ D.honest s.b)) (λ e. (D.honest a ↔ D.honest e.a) × (D.honest b ↔ D.honest e.b)) }
        ensures ok { D.honest a → D.honest b → IfOk result (λ s. IsOpenedCoordinator D.state D.honest a b me s) }
        ensures fresh { IfOk result (λ s. (s.staged ≡ []) × (s.is_down ≡ false) × (s.me ≡ me) × (s.open_ids ≡ []) × (s.given ≡ 0)) }

        // Damaged exactly if there are no records of this coordinator.
        ensures damaged { D.honest a → D.honest b → IfErr result (λ e. e.refusal ≡ Refusal.Damaged → (rs : List AnyRecord) → found (D.state a).seen (D.state b).seen ≡ Some rs → IsCoordinatorImage me rs → ⊥) }
        ensures full { D.honest a → D.honest b → IfErr result (λ e. e.refusal ≡ Refusal.Full → (rs : List AnyRecord) × (found (D.state a).seen (D.state b).seen ≡ Some rs)
            × IsCoordinatorImage me rs × ((coordinator_state rs).epoch ≡ greatest_number)) }
        ensures down { IfErr result (λ e. e.refusal ≡ Refusal.Down → HasFailed (D.state a) (D.state e.a) ⊎ (HasFailed (D.state b) (D.state e.b) ⊎ HasNoRoomToOpen D.state D.honest a b me)) }
        ensures err { IfErr result (λ e. IsOneOf e.refusal (Refusal.Down ∷ Refusal.NoMemory ∷ Refusal.Full ∷ Refusal.Damaged ∷ [])) }
        ensures stopped { ((D.state a).stopped ≡ true) ⊎ ((D.state b).stopped ≡ true) → IsErr result }
        ensures counts_a { MatchResult result (λ s. (D.state a).failures ≤ (D.state s.a).failures) (λ e. (D.state a).failures ≤ (D.state e.a).failures) }
        ensures counts_b { MatchResult result (λ s. (D.state b).failures ≤ (D.state s.b).failures) (λ e. (D.state b).failures ≤ (D.state e.b).failures) }
        ensures none { MatchResult result (λ s. ((D.state s.a).failures ≡ (D.state a).failures) × ((D.state s.b).failures ≡ (D.state b).failures))
            (λ e. (e.refusal ≡ Refusal.Down) ⊎ (((D.state e.a).failures ≡ (D.state a).failures) × ((D.state e.b).failures ≡ (D.state b).failures))) }

        // At every moment of the call a stop leaves what it could leave before, or the records found, with this opening's or without.
        ensures any_moment { D.honest a → D.honest b → MatchResult result
            (λ s. LeavesBoth D.moment D.left_since a b s.a s.b (WasLeftOrReopened me (D.state a) (D.state b)))
            (λ e. LeavesBoth D.moment D.left_since a b e.a e.b (WasLeftOrReopened me (D.state a) (D.state b))) }
    {
        match openings::open::<D, CoordinatorKind>(alloc, a, b, me) {
            Ok((journal, recovery)) => {
                let epoch = recovery.epoch() + 1;
                let kept = recovery.end();
                let horizon = recovery.horizon();
                Ok(Coordinator {
                    journal,
                    me,
                    epoch,
                    open_numbers: Vec::new(alloc),
                    given: 0,
                    ledger: recovery.into_ledger(),
                    kept,
                    horizon,
                    rising: None,
                })
            }
            Err(refused) => Err(refused),
        }
    }
}
