// What a pass holds and knows, and the rule of the one state.
use atomic_table::TableRule;
use std::collections::LinkedList;
use std::marker::PhantomData;

/// What a pass holds of the one state, parts of nodes and goods of callers, and what it knows of it for good. No value of it is made.
pub struct View<P, T, F> {
    /// Whether the state has its first parts. Of each pass it has.
    pub has_begun: bool,
    pub parts: LinkedList<(u64, P)>,
    pub goods: LinkedList<(u64, T)>,
    pub facts: LinkedList<F>,
}

/// What is so of the one state at every moment, and which facts are right of it.
pub trait Law<P, T, F> {
    ghost use Rattle.joint.specs.Whole.{Whole};

    ghost holds: { Whole P T → Type 0 };

    ghost right: { Whole P T → F → Type 0 };
}

/// There is one state by the law, of which each pass holds what it holds, and each fact that it knows is right.
pub struct Rules<L> {
    of: PhantomData<L>,
}

impl<P, T, F, L: Law<P, T, F>> TableRule<(), View<P, T, F>, ()> for Rules<L> {
    ghost use Rattle.joint.specs.Views.{unbegun};
    ghost use Rattle.joint.specs.Whole.{IsRuled};

    ghost holds = { λ _. IsRuled L.holds L.right };

    ghost first = { λ _. unbegun };
}
