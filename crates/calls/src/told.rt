// What whoever asks was told so far.
ghost use Rattle.std.specs.Prelude.{◌≡◌, ◌⊎◌, ◌↔◌, IsTrue};
ghost use Rattle.refusal.specs.declared.refusal.Refusal.{Refusal as AnyRefusal};
ghost use Rattle.calls.specs.Refusing.{HasTold};

use std::marker::Model;
use tuples::Refusal;
use versions::Budget;

// One mark for each number of a refusal, from 1 on.
#[derive(Drop)]
struct Marks {
    marks: [bool; 17],
}

impl Model for Marks {
    ghost use Rattle.std.specs.Prelude.{List, Bool};

    ghost Value = { List Bool };

    ghost view = { λ m. m.marks };
}

impl Marks {
    fn none() -> Marks
        ensures { (e : AnyRefusal) → HasTold result e → ⊥ }
    {
        Marks { marks: [false; 17] }
    }

    fn has(&self, refusal: Refusal) -> bool
        ensures { IsTrue result ↔ HasTold self.now refusal }
    {
        self.marks[refusal.number() as usize]
    }

    fn note(&mut self, refusal: Refusal)
        ensures { (e : AnyRefusal) → HasTold self.new e ↔ (HasTold self.old e ⊎ (refusal ≡ e)) }
    {
        self.marks[refusal.number() as usize] = true;
    }
}

/// The refusals that replies have carried, to which only `ask` and `look` add, and how many bytes of tuples may still be read.
#[derive(Drop)]
pub struct Told {
    marks: Marks,
    // how many bytes of tuples an answer may take, and what is left of them
    most: u64,
    pub(crate) budget: Budget,
}

impl Model for Told {
    ghost use Rattle.std.specs.Prelude.{List, Bool};

    ghost Value = { List Bool };

    ghost view = { λ t. t.marks };
}

impl Told {
    /// None so far, of one whose answer may take as much as there is.
    pub fn new() -> Told
        ensures { (e : AnyRefusal) → HasTold result e → ⊥ }
    {
        Told::within(u64::MAX)
    }

    /// None so far, of one whose answer may take so many bytes, as `Budget` counts them.
    pub fn within(most: u64) -> Told
        ensures { (e : AnyRefusal) → HasTold result e → ⊥ }
    {
        Told {
            marks: Marks::none(),
            most,
            budget: Budget::of(most),
        }
    }

    /// What was read was let go, and is read anew.
    pub fn begin_again(&mut self)
        ensures { self.new ≡ self.old }
    {
        self.budget = Budget::of(self.most);
    }

    /// Whether a read was refused since the answer would take too much.
    pub fn is_spent(&self) -> bool {
        self.budget.is_spent()
    }

    /// Whether a reply has carried it.
    pub fn has(&self, refusal: Refusal) -> bool
        ensures { IsTrue result ↔ HasTold self.now refusal }
    {
        self.marks.has(refusal)
    }

    pub(crate) fn note(&mut self, refusal: Refusal)
        ensures { (e : AnyRefusal) → HasTold self.new e ↔ (HasTold self.old e ⊎ (refusal ≡ e)) }
    {
        self.marks.note(refusal);
    }
}
