// The steps: each changes the list, as the coordinator does then, and what its caller began.
ghost use Rattle.std.specs.Prelude.{◌≡◌, ◌<◌, ◌∷◌, ◌++◌, []};
ghost use Rattle.accord.specs.OwnedLists.{AreFound, IsOpen, decided_write, found_list, next_of, no_list, restarted, undecided, with_aborted, with_listed, with_open};
ghost use Rattle.accord.specs.Owning.{decided_of};

use crate::{CallerPass, Decides, ListPass, Opens, Owners, Restarts, Writes};
use std::marker::Brand;

impl Owners {
    /// The store is opened: the list is what was found, each id of an earlier epoch.
    pub fn open<O: Opens>(&self, list: &mut ListPass)
        requires own { list.old.table ≡ self.now }
        requires first { list.old.part ≡ no_list }
        requires found { (0 < O.epoch) × AreFound O.log O.epoch }
        ensures { list.new ≡ record { table = self.now; part = found_list O.log O.epoch; facts = list.old.facts } }
    {
        self.step_alone::<Brand>(list);
    }

    /// The caller begins a write, under the next id.
    pub fn begin<W: Writes>(&self, list: &mut ListPass, caller: &mut CallerPass)
        requires own { (list.old.table ≡ self.now) × (caller.old.table ≡ self.now) }
        requires next { W.write.id ≡ next_of list.old.part }
        ensures list { list.new ≡ record { table = self.now; part = with_open list.old.part W.write; facts = (list.old.facts ++ caller.old.facts) ++ [] } }
        ensures caller { caller.new ≡ record { table = self.now; begun = caller.old.begun ++ undecided W.write ∷ []; facts = caller.old.facts ++ ((list.old.facts ++ caller.old.facts) ++ []) } }
    {
        self.step_with::<Brand>(list, caller);
    }

    /// The coordinator decides an open write, which its caller gives up. Both then know that it was decided there.
    pub fn decide<X: Decides>(&self, list: &mut ListPass, caller: &mut CallerPass)
        requires own { (list.old.table ≡ self.now) × (caller.old.table ≡ self.now) }
        requires begun { caller.old.begun ≡ X.before ++ undecided X.write ∷ X.after }
        requires is_open { IsOpen list.old.part X.write.id }
        ensures list { list.new ≡ record { table = self.now; part = with_listed list.old.part X.write; facts = (list.old.facts ++ caller.old.facts) ++ decided_write list.old.part X.write ∷ [] } }
        ensures caller { caller.new ≡ record { table = self.now; begun = X.before ++ decided_of (undecided X.write) ∷ X.after; facts = caller.old.facts ++ ((list.old.facts ++ caller.old.facts) ++ decided_write list.old.part X.write ∷ []) } }
    {
        self.step_with::<Brand>(list, caller);
    }

    /// The coordinator aborts a write, if it is open.
    pub fn abort<W: Writes>(&self, list: &mut ListPass)
        requires own { list.old.table ≡ self.now }
        ensures { list.new ≡ record { table = self.now; part = with_aborted list.old.part W.write.id; facts = list.old.facts } }
    {
        self.step_alone::<Brand>(list);
    }

    /// The coordinator is opened again, in a later epoch: what was found of the list is left, and no write is open.
    pub fn restart<R: Restarts>(&self, list: &mut ListPass)
        requires own { list.old.table ≡ self.now }
        requires later { list.old.part.epoch < R.epoch }
        ensures { list.new ≡ record { table = self.now; part = restarted list.old.part R.count R.epoch; facts = list.old.facts } }
    {
        self.step_alone::<Brand>(list);
    }
}
