// The one state, and the steps on it.
ghost use Rattle.std.specs.Prelude.{◌≡◌, ◌++◌, ℕ, [], IfOk, take, drop};
ghost use Rattle.joint.specs.Held.{in_place, numbered};
ghost use Rattle.joint.specs.Whole.{Admits, IsSeen, Keeps, Starts};

use crate::pass::Pass;
use crate::rule::{Law, Rules, View};
use crate::steps::{
    Beginning, Begins, Changes, Changing, Dealing, Issues, Issuing, Joining, Leaving, Looks, Noting,
};
use atomic_table::Table;
use std::alloc::{AllocError, Global};
use std::marker::Model;

// The one word, which nobody writes.
const WORD: usize = 0;

/// The one state. A pass belongs to the state that it came from, and contracts see which it is.
#[derive(Drop)]
pub struct Joint<P, T, F, L: Law<P, T, F>> {
    table: Table<(), View<P, T, F>, (), Rules<L>, Global>,
}

impl<P, T, F, L: Law<P, T, F>> Model for Joint<P, T, F, L> {
    ghost use Rattle.std.specs.Prelude.{◌≡◌};
    ghost use Rattle.atomic_table.specs.Seated.{TableId};

    ghost Value = { TableId };

    ghost view = { λ p. p.table.shared.table_id };

    ghost invariant = { λ p. p.table.shared.table_id.words ≡ 1 };
}

impl<P, T, F, L: Law<P, T, F>> Joint<P, T, F, L> {
    /// A state of the parts that the caller picks. The pass holds all of them.
    pub fn new<B: Begins<P, F>>(
        alloc: Global,
    ) -> Result<(Joint<P, T, F, L>, Pass<P, T, F>), AllocError>
        requires starts { Starts L.holds L.right B.parts B.facts }
        ensures { IfOk result (λ r. (r.1.table ≡ r.0) × (r.1.parts ≡ B.parts) × (r.1.goods ≡ []) × (r.1.facts ≡ B.facts)) }
    {
        let (table, mut seat) = Table::of_words(alloc, &[0], &())?;
        table.shared.load::<Beginning<B>>(&mut seat, WORD);
        Ok((Joint { table }, Pass { seat }))
    }

    /// There is a state by the law that has what the pass holds, and of which all that it knows is right. Takes one load.
    pub fn look(&self, pass: &mut Pass<P, T, F>)
        requires own { pass.old.table ≡ self.now }
        ensures same { pass.new ≡ pass.old }
        ensures seen { IsSeen L.holds L.right pass.old }
    {
        self.table.shared.load::<Looks<L>>(&mut pass.seat, WORD);
    }

    /// Changes the part and the goods that the pass holds, if it holds exactly one of each. Takes one load.
    pub fn change<C: Changes<P, T, F>>(&self, pass: &mut Pass<P, T, F>)
        requires own { pass.old.table ≡ self.now }
        requires keeps { Keeps L.holds L.right pass.old C.part C.goods C.facts }
        ensures same { pass.new.table ≡ pass.old.table }
        ensures parts { pass.new.parts ≡ in_place pass.old.parts C.part }
        ensures goods { pass.new.goods ≡ in_place pass.old.goods C.goods }
        ensures facts { pass.new.facts ≡ pass.old.facts ++ C.facts }
    {
        self.table.shared.load::<Changing<C>>(&mut pass.seat, WORD);
    }

    /// A pass with the goods of a new caller, under a number that has none yet. It knows what this one does, and the new facts. Takes two loads.
    pub fn issue<I: Issues<T, F>>(&self, pass: &mut Pass<P, T, F>) -> Pass<P, T, F>
        requires own { pass.old.table ≡ self.now }
        requires admits { Admits L.holds L.right pass.old.facts I.goods I.facts }
        ensures same { pass.new ≡ pass.old }
        ensures table { (result.table ≡ pass.old.table) × (result.parts ≡ []) }
        ensures goods { (number : ℕ) × (result.goods ≡ numbered number I.goods) }
        ensures facts { result.facts ≡ pass.old.facts ++ I.facts }
    {
        let mut new = self.note(pass);
        self.table.shared.load::<Issuing<I>>(&mut new.seat, WORD);
        new
    }

    /// The pass holds and knows what both did. Takes one load.
    pub fn join(&self, pass: &mut Pass<P, T, F>, other: Pass<P, T, F>)
        requires own { (pass.old.table ≡ self.now) × (other.table ≡ self.now) }
        ensures same { pass.new.table ≡ pass.old.table }
        ensures parts { pass.new.parts ≡ pass.old.parts ++ other.parts }
        ensures goods { pass.new.goods ≡ pass.old.goods ++ other.goods }
        ensures facts { pass.new.facts ≡ pass.old.facts ++ other.facts }
    {
        let Pass { seat } = other;
        self.table.shared.join_seat::<Joining>(&mut pass.seat, seat);
    }

    /// The goods go with a pass of their own, which knows what this one does. Takes one load.
    pub fn leave(&self, pass: &mut Pass<P, T, F>) -> Pass<P, T, F>
        requires own { pass.old.table ≡ self.now }
        ensures same { (pass.new.table ≡ pass.old.table) × (pass.new.parts ≡ pass.old.parts) × (pass.new.goods ≡ []) × (pass.new.facts ≡ pass.old.facts) }
        ensures goods { (result.table ≡ pass.old.table) × (result.parts ≡ []) × (result.goods ≡ pass.old.goods) × (result.facts ≡ pass.old.facts) }
    {
        Pass {
            seat: self.table.shared.split_seat::<Leaving>(&mut pass.seat),
        }
    }

    /// The first part goes with a pass of its own, which knows what this one does: so a start deals all parts to their locks, and so does whoever joined them all.
    /// Takes one load.
    pub fn deal(&self, pass: &mut Pass<P, T, F>) -> Pass<P, T, F>
        requires own { pass.old.table ≡ self.now }
        ensures same { (pass.new.table ≡ pass.old.table) × (pass.new.parts ≡ drop 1 pass.old.parts) × (pass.new.goods ≡ pass.old.goods) × (pass.new.facts ≡ pass.old.facts) }
        ensures part { (result.table ≡ pass.old.table) × (result.parts ≡ take 1 pass.old.parts) × (result.goods ≡ []) × (result.facts ≡ pass.old.facts) }
    {
        Pass {
            seat: self.table.shared.split_seat::<Dealing>(&mut pass.seat),
        }
    }

    /// A pass that holds nothing, and knows what this one does. Takes one load.
    pub fn note(&self, pass: &mut Pass<P, T, F>) -> Pass<P, T, F>
        requires own { pass.old.table ≡ self.now }
        ensures same { pass.new ≡ pass.old }
        ensures note { (result.table ≡ pass.old.table) × (result.parts ≡ []) × (result.goods ≡ []) × (result.facts ≡ pass.old.facts) }
    {
        Pass {
            seat: self.table.shared.split_seat::<Noting>(&mut pass.seat),
        }
    }
}
