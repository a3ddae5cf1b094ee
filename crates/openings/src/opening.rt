// The records are replayed, and one more opening is made durable.
ghost use Rattle.std.specs.Prelude.{◌≡◌, ◌⊎◌, ◌↔◌, ◌≤◌, ◌<◌, ◌+◌, ◌∷◌, [], List, Some, true, false, IfOk, IfErr, IsErr, IsErrOf, MatchResult};
ghost use Rattle.refusal.specs.Refusals.{IsOneOf};
ghost use Rattle.device.specs.Device.{HasFailed};
ghost use Rattle.journal.specs.Records.{LeavesBoth, found};
ghost use Rattle.journal.specs.Unread.{journal_of};
ghost use Rattle.records.specs.declared.record.Record.{Record as AnyRecord};
ghost use Rattle.records.specs.declared.record.Record.TheVariants.{Epoch as epoch_record};
ghost use Rattle.records.specs.Identity.{IsIdentity};
ghost use Rattle.records.specs.Replays.{greatest_number};
ghost use Rattle.openings.specs.Openings.{AreReplayed, IsReopened, LacksRoomToReopen, WasLeftOrReopened};

use crate::NodeKind;
use device::Device;
use journal::{Journal, Opening, Refused, Unread};
use records::{Identity, Record};
use std::alloc::Global;
use tuples::{MAX_NUMBER, Refusal};

// The journal of what was found, with the record of this opening staged.
#[tactic(auto, using(crate::proofs::Openings::opening_fits))]
fn staged<D: Device>(opening: Opening<D>, epoch: u64, me: Identity) -> Journal<D>
    requires { D.honest opening.a → D.honest opening.b → (rs : List AnyRecord) × (opening.records ≡ Some rs) }
    ensures whole { IsIdentity me }
    ensures staged { result ≡ record (journal_of opening) { staged = epoch_record epoch me.store me.shards me.node ∷ [] } }
{
    let next = Record::Epoch {
        epoch,
        store: me.store(),
        shards: me.shards().count(),
        node: me.node(),
    };
    let mut journal = opening.into_journal();
    match journal.stage(&next) {
        Ok(()) => {}
        Err(_) => unreachable!(),
    }
    drop(next);
    journal
}

// What was made of the records, and the next epoch; `Full` after the last one.
fn restored<N: NodeKind>(
    alloc: Global,
    me: Identity,
    unread: Unread,
) -> Result<(N::Memory, u64), Refusal>
    ensures ok { IfOk result (λ r. (is : AreReplayed N.image N.made_of me unread.records r.0) × (r.1 ≡ N.epoch_in is.rs + 1) × (N.epoch_in is.rs < greatest_number)) }
    ensures damaged { IsErrOf result Refusal.Damaged → (rs : List AnyRecord) → unread.records ≡ Some rs → N.image me rs → ⊥ }
    ensures full { IsErrOf result Refusal.Full → (rs : List AnyRecord) × (unread.records ≡ Some rs) × N.image me rs × (N.epoch_in rs ≡ greatest_number) }
    ensures err { IfErr result (λ e. IsOneOf e (Refusal.Damaged ∷ Refusal.NoMemory ∷ Refusal.Full ∷ [])) }
{
    let memory = N::replayed(alloc, me, unread)?;
    let epoch = N::epoch(&memory);
    if epoch >= MAX_NUMBER {
        return Err(Refusal::Full);
    }
    Ok((memory, epoch + 1))
}

/// Opens the node of this identity: replays its records, and makes one more `Epoch` record durable.
///
/// Each refusal returns the devices: `Down` if a call of a device failed, or the current bank has no room for the record; `NoMemory`; `Full` after
/// the last epoch; and `Damaged` if the devices have no records of this node of this store.
pub fn open<D: Device, N: NodeKind>(
    alloc: Global,
    a: D,
    b: D,
    me: Identity,
) -> Result<(Journal<D>, N::Memory), Refused<D>>
    requires { N.names me }
    ensures honest { MatchResult result (λ r. (D.honest a ↔ D.honest r.0.a) × (D.honest b ↔ D.honest r.0.b)) (λ e. (D.honest a ↔ D.honest e.a) × (D.honest b ↔ D.honest e.b)) }
    ensures ok { IfOk result (λ r. IsReopened D.state D.honest N.image N.made_of N.epoch_in a b me r.0 r.1) }
    ensures fresh { IfOk result (λ r. (r.0.staged ≡ []) × (r.0.is_down ≡ false) × IsIdentity me) }
    ensures damaged { D.honest a → D.honest b → IfErr result (λ e. e.refusal ≡ Refusal.Damaged → (rs : List AnyRecord) → found (D.state a).seen (D.state b).seen ≡ Some rs → N.image me rs → ⊥) }
    ensures full { D.honest a → D.honest b → IfErr result (λ e. e.refusal ≡ Refusal.Full → (rs : List AnyRecord) × (found (D.state a).seen (D.state b).seen ≡ Some rs)
        × N.image me rs × (N.epoch_in rs ≡ greatest_number)) }
    ensures err { IfErr result (λ e. IsOneOf e.refusal (Refusal.Down ∷ Refusal.NoMemory ∷ Refusal.Full ∷ Refusal.Damaged ∷ [])) }
    ensures down { IfErr result (λ e. e.refusal ≡ Refusal.Down → HasFailed (D.state a) (D.state e.a) ⊎ (HasFailed (D.state b) (D.state e.b) ⊎ LacksRoomToReopen D.state D.honest N.epoch_in a b me)) }
    ensures stopped { ((D.state a).stopped ≡ true) ⊎ ((D.state b).stopped ≡ true) → IsErr result }
    ensures counts_a { MatchResult result (λ r. (D.state a).failures ≤ (D.state r.0.a).failures) (λ e. (D.state a).failures ≤ (D.state e.a).failures) }
    ensures counts_b { MatchResult result (λ r. (D.state b).failures ≤ (D.state r.0.b).failures) (λ e. (D.state b).failures ≤ (D.state e.b).failures) }
    ensures none { MatchResult result (λ r. ((D.state r.0.a).failures ≡ (D.state a).failures) × ((D.state r.0.b).failures ≡ (D.state b).failures))
        (λ e. (e.refusal ≡ Refusal.Down) ⊎ (((D.state e.a).failures ≡ (D.state a).failures) × ((D.state e.b).failures ≡ (D.state b).failures))) }

    // At every moment of the call a stop leaves what it could leave before, or the records found, with this opening's or without.
    ensures any_moment { D.honest a → D.honest b → MatchResult result
        (λ r. LeavesBoth D.moment D.left_since a b r.0.a r.0.b (WasLeftOrReopened N.image N.epoch_in me (D.state a) (D.state b)))
        (λ e. LeavesBoth D.moment D.left_since a b e.a e.b (WasLeftOrReopened N.image N.epoch_in me (D.state a) (D.state b))) }
{
    let (opening, unread) = match Opening::find(alloc, a, b) {
        Ok(found) => found,
        Err(refused) => return Err(refused),
    };
    let (memory, epoch) = match restored::<N>(alloc, me, unread) {
        Ok(restored) => restored,
        Err(refusal) => return Err(opening.refuse(refusal)),
    };
    let mut journal = staged(opening, epoch, me);
    match journal.flush() {
        Ok(()) => Ok((journal, memory)),
        Err(refusal) => {
            drop(memory);
            let (a, b) = journal.into_devices();
            Err(Refused { refusal, a, b })
        }
    }
}
