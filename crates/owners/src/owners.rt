// The one state, the passes that come from it, and what a look at it tells.
ghost use Rattle.std.specs.Prelude.{◌≡◌, ◌∷◌, ◌++◌, [], IfOk, Some};
ghost use Rattle.accord.specs.OwnedLists.{no_list};
ghost use Rattle.owners.specs.Owners.{GoesOnAlone, GoesOnWith, IsLawful};
ghost use Rattle.records.specs.Identity.{coordinator_number};

use crate::law::{Held, Whole};
use crate::picks::Moves;
use crate::{CallerPass, ListPass};
use accord::{Begun, DecidedWrite, ListPart};
use joint::{Begins, Issues, Joint};
use std::alloc::{AllocError, Global};
use std::collections::LinkedList;
use std::marker::{Brand, Model};

/// The state of the list, as its coordinator has it, and of what each caller began. A pass belongs to the state that it came from.
#[derive(Drop)]
pub struct Owners {
    pub(crate) state: Whole,
}

impl Model for Owners {
    ghost use Rattle.atomic_table.specs.Seated.{TableId};

    ghost Value = { TableId };

    ghost view = { λ o. o.state };
}

fn first_state<B: Begins<ListPart, DecidedWrite>>(
    alloc: Global,
) -> Result<(Whole, Held), AllocError>
    requires { (B.parts ≡ (coordinator_number, no_list) ∷ []) × (B.facts ≡ []) }
    ensures { IfOk result (λ r. (r.1.table ≡ r.0) × (r.1.parts ≡ (coordinator_number, no_list) ∷ []) × (r.1.goods ≡ []) × (r.1.facts ≡ [])) }
{
    Joint::new::<B>(alloc)
}

fn first_held(alloc: Global) -> Result<(Whole, Held), AllocError>
    ensures { IfOk result (λ r. (r.1.table ≡ r.0) × (r.1.parts ≡ (coordinator_number, no_list) ∷ []) × (r.1.goods ≡ []) × (r.1.facts ≡ [])) }
{
    first_state::<Brand>(alloc)
}

fn issue_to<I: Issues<LinkedList<Begun>, DecidedWrite>>(
    state: &Whole,
    held: &mut Held,
) -> CallerPass
    requires own { held.old.table ≡ state.now }
    requires nothing { (I.goods ≡ Some []) × (I.facts ≡ []) }
    ensures same { held.new ≡ held.old }
    ensures new { result ≡ record { table = held.old.table; begun = []; facts = held.old.facts } }
{
    CallerPass {
        held: state.issue::<I>(held),
    }
}

// The pass of a new caller, by one that knows as much.
fn issue(state: &Whole, held: &mut Held) -> CallerPass
    requires own { held.old.table ≡ state.now }
    ensures same { held.new ≡ held.old }
    ensures new { result ≡ record { table = held.old.table; begun = []; facts = held.old.facts } }
{
    issue_to::<Brand>(state, held)
}

impl Owners {
    /// Before the store is opened: there is no list, and nobody has begun anything.
    pub fn new(alloc: Global) -> Result<(Owners, ListPass), AllocError>
        ensures { IfOk result (λ r. r.1 ≡ record { table = r.0; part = no_list; facts = [] }) }
    {
        let (state, held) = first_held(alloc)?;
        Ok((Owners { state }, ListPass { held }))
    }

    /// A new caller, which has begun nothing. Takes two loads.
    pub fn caller(&self, list: &mut ListPass) -> CallerPass
        requires own { list.old.table ≡ self.now }
        ensures same { list.new ≡ list.old }
        ensures new { result ≡ record { table = list.old.table; begun = []; facts = list.old.facts } }
    {
        issue(&self.state, &mut list.held)
    }

    /// A new caller, which has begun nothing and knows what this one does. It takes no lock, but two loads.
    pub fn another(&self, caller: &mut CallerPass) -> CallerPass
        requires own { caller.old.table ≡ self.now }
        ensures same { caller.new ≡ caller.old }
        ensures new { result ≡ record { table = caller.old.table; begun = []; facts = caller.old.facts } }
    {
        issue(&self.state, &mut caller.held)
    }

    // What the caller began goes to the list's pass.
    fn bring(&self, list: &mut Held, caller: &mut Held)
        requires own { (list.old.table ≡ self.now) × (caller.old.table ≡ self.now) }
        requires list { list.old.goods ≡ [] }
        requires caller { caller.old.parts ≡ [] }
        ensures list { list.new ≡ record { table = self.now; parts = list.old.parts; goods = caller.old.goods; facts = list.old.facts ++ caller.old.facts } }
        ensures caller { caller.new ≡ record { table = self.now; parts = []; goods = []; facts = caller.old.facts } }
    {
        let goods = self.state.leave(caller);
        self.state.join(list, goods);
    }

    // It comes back, with all that the list's pass knows.
    fn bring_back(&self, list: &mut Held, caller: &mut Held)
        requires own { (list.old.table ≡ self.now) × (caller.old.table ≡ self.now) }
        requires caller { (caller.old.parts ≡ []) × (caller.old.goods ≡ []) }
        ensures list { list.new ≡ record { table = self.now; parts = list.old.parts; goods = []; facts = list.old.facts } }
        ensures caller { caller.new ≡ record { table = self.now; parts = []; goods = list.old.goods; facts = caller.old.facts ++ list.old.facts } }
    {
        let goods = self.state.leave(list);
        self.state.join(caller, goods);
    }

    // A step of the list alone. Takes one load.
    pub(crate) fn step_alone<M: Moves>(&self, list: &mut ListPass)
        requires own { list.old.table ≡ self.now }
        requires goes_on { GoesOnAlone list.old.part M.part }
        ensures list { list.new ≡ record { table = self.now; part = M.part; facts = list.old.facts } }
    {
        self.state.change::<Brand>(&mut list.held);
    }

    // A step of the list and of what the caller began, at once. Takes five loads.
    pub(crate) fn step_with<M: Moves>(&self, list: &mut ListPass, caller: &mut CallerPass)
        requires own { (list.old.table ≡ self.now) × (caller.old.table ≡ self.now) }
        requires goes_on { GoesOnWith list.old.part caller.old.begun M.part M.begun M.facts }
        ensures list { list.new ≡ record { table = self.now; part = M.part; facts = (list.old.facts ++ caller.old.facts) ++ M.facts } }
        ensures caller { caller.new ≡ record { table = self.now; begun = M.begun; facts = caller.old.facts ++ ((list.old.facts ++ caller.old.facts) ++ M.facts) } }
    {
        self.bring(&mut list.held, &mut caller.held);
        self.state.change::<Brand>(&mut list.held);
        self.bring_back(&mut list.held, &mut caller.held);
    }

    /// What the caller may count on. Each then knows what either knew. Takes five loads.
    pub fn look(&self, list: &mut ListPass, caller: &mut CallerPass)
        requires own { (list.old.table ≡ self.now) × (caller.old.table ≡ self.now) }
        ensures list { list.new ≡ record { table = self.now; part = list.old.part; facts = list.old.facts ++ caller.old.facts } }
        ensures caller { caller.new ≡ record { table = self.now; begun = caller.old.begun; facts = caller.old.facts ++ (list.old.facts ++ caller.old.facts) } }
        ensures lawful { IsLawful list.old.part caller.old.begun (list.old.facts ++ caller.old.facts) }
    {
        self.bring(&mut list.held, &mut caller.held);
        self.state.look(&mut list.held);
        self.bring_back(&mut list.held, &mut caller.held);
    }
}
