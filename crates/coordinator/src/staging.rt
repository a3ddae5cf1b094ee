// One record more that has room.
ghost use Rattle.std.specs.Prelude.{◌≡◌, ◌++◌, ◌∷◌, [], IfErr, IsErrOf, OnOk};
ghost use Rattle.records.specs.declared.record.Record.TheVariants.{Horizon as horizon_record};
ghost use Rattle.journal.specs.Records.{HasNoRoom};
ghost use Rattle.journal.specs.Rest.{IsPlain};
ghost use Rattle.records.specs.Format.{IsRecord};

use device::Device;
use journal::Journal;
use records::Record;
use tuples::Refusal;

/// Stages a record that has room.
pub(crate) fn stage_fitting<D: Device>(journal: &mut Journal<D>, next: &Record)
    requires spelled { IsRecord next.now }
    requires plain { IsPlain next.now }
    requires room { HasNoRoom journal.old.staged next.now → ⊥ }
    ensures { journal.new ≡ record journal.old { staged = journal.old.staged ++ next.now ∷ [] } }
{
    match journal.stage(next) {
        Ok(()) => {}
        Err(_) => unreachable!(),
    }
}

/// Stages that the horizon is at this place.
pub(crate) fn stage_horizon<D: Device>(journal: &mut Journal<D>, place: u64) -> Result<(), Refusal>
    ensures ok { OnOk result (journal.new ≡ record journal.old { staged = journal.old.staged ++ horizon_record place ∷ [] }) }
    ensures room { OnOk result (HasNoRoom journal.old.staged (horizon_record place) → ⊥) }
    ensures full { IsErrOf result Refusal.Full → HasNoRoom journal.old.staged (horizon_record place) }
    ensures err { IfErr result (λ e. (e ≡ Refusal.Full) × (journal.new ≡ journal.old)) }
{
    let next = Record::Horizon(place);
    let staged = journal.stage(&next);
    drop(next);
    staged
}
