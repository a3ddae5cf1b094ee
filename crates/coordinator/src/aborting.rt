// Aborting an open write.
ghost use Rattle.std.specs.Prelude.{◌≡◌, ◌⊎◌, ◌↔◌, true, IfOk, IfErr, IsErrOf};
ghost use Rattle.decisions.specs.Coordinators.{AbortsAt, IsDecidedAbove, IsGivenAt, IsRunning};

use crate::Coordinator;
use crate::open_writes::close;
use decisions::{Intent, Verdict};
use device::Device;
use tuples::Refusal;

impl<D: Device> Coordinator<D> {
    /// Aborts a write that was begun: it is open no longer, and is never decided. The intent is spent whatever comes of it. Nothing has
    /// changed after a refusal: `Down`; `Aborted` if the id was not given out by this coordinator, or is that of a decision.
    pub fn abort(&mut self, intent: Intent) -> Result<Verdict, Refusal>
        ensures ok { IsRunning D.state D.honest self.old → IfOk result (λ v. (v.id ≡ intent.write.id) × AbortsAt self.old intent.write.id self.new × IsRunning D.state D.honest self.new) }
        ensures down { IsErrOf result Refusal.Down ↔ (self.old.is_down ≡ true) }
        ensures aborted { IsRunning D.state D.honest self.old → IsErrOf result Refusal.Aborted ↔ ((IsGivenAt self.old intent.write.id → ⊥) ⊎ IsDecidedAbove self.old intent.write.id) }
        ensures err { IfErr result (λ e. (self.new ≡ self.old) × ((e ≡ Refusal.Down) ⊎ (e ≡ Refusal.Aborted))) }
    {
        let id = intent.id();
        intent.leave();
        if self.journal.is_down() {
            return Err(Refusal::Down);
        }
        if !self.was_given(id) {
            return Err(Refusal::Aborted);
        }
        if self.ledger.contains(id) {
            return Err(Refusal::Aborted);
        }
        close(&mut self.open_numbers, self.epoch, id);
        Ok(Verdict::new(&self.journal, self.given, &self.open_numbers, id))
    }
}
