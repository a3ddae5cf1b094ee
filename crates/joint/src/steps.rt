// What each step tells the pass that makes it.
ghost use Rattle.std.specs.Prelude.{ℕ, List, Option};

use crate::rule::{Law, View};
use atomic_table::{Join, Play, Split};
use std::marker::{Brand, PhantomData};

/// The parts that a state begins with, and what is known of it then. Each call of `new` picks them.
pub trait Begins<P, F> {
    ghost use Rattle.std.specs.Prelude.{ℕ, List};

    ghost parts: { List (ℕ × P) };

    ghost facts: { List F };
}

impl<P, F> Begins<P, F> for Brand {
    ghost use Rattle.std.specs.Prelude.{[]};

    ghost parts = { [] };

    ghost facts = { [] };
}

/// The first step of a state.
pub struct Beginning<B> {
    of: PhantomData<B>,
}

impl<P, T, F, B: Begins<P, F>> Play<(), View<P, T, F>> for Beginning<B> {
    ghost use Rattle.joint.specs.Whole.{Begun};

    ghost then = { Begun B.parts B.facts };
}

/// A look at what the state has.
pub struct Looks<L> {
    of: PhantomData<L>,
}

impl<P, T, F, L: Law<P, T, F>> Play<(), View<P, T, F>> for Looks<L> {
    ghost use Rattle.joint.specs.Whole.{Looked};

    ghost then = { Looked L.holds L.right };
}

/// A change: a part and goods in place of those that a pass holds, and facts that are right from then on. Each call picks them.
pub trait Changes<P, T, F> {
    ghost use Rattle.std.specs.Prelude.{List, Option};

    ghost part: { Option P };

    ghost goods: { Option T };

    ghost facts: { List F };
}

impl<P, T, F> Changes<P, T, F> for Brand {
    ghost use Rattle.std.specs.Prelude.{[], None};

    ghost part = { None };

    ghost goods = { None };

    ghost facts = { [] };
}

/// The step of a change.
pub struct Changing<C> {
    of: PhantomData<C>,
}

impl<P, T, F, C: Changes<P, T, F>> Play<(), View<P, T, F>> for Changing<C> {
    ghost use Rattle.joint.specs.Whole.{Changed};

    ghost then = { Changed C.part C.goods C.facts };
}

/// The goods of a new caller, and facts that are right from then on. Each call picks them.
pub trait Issues<T, F> {
    ghost use Rattle.std.specs.Prelude.{List, Option};

    ghost goods: { Option T };

    ghost facts: { List F };
}

impl<T, F> Issues<T, F> for Brand {
    ghost use Rattle.std.specs.Prelude.{[], None};

    ghost goods = { None };

    ghost facts = { [] };
}

/// The step by which new goods come to be.
pub struct Issuing<I> {
    of: PhantomData<I>,
}

impl<P, T, F, I: Issues<T, F>> Play<(), View<P, T, F>> for Issuing<I> {
    ghost use Rattle.joint.specs.Whole.{Issued};

    ghost then = { Issued I.goods I.facts };
}

/// The goods go with another pass.
pub struct Leaving;

impl<P, T, F> Split<View<P, T, F>> for Leaving {
    ghost use Rattle.joint.specs.Views.{without_goods, only_goods};

    ghost left = { without_goods };

    ghost right = { only_goods };
}

/// The first part goes with another pass.
pub struct Dealing;

impl<P, T, F> Split<View<P, T, F>> for Dealing {
    ghost use Rattle.joint.specs.Views.{without_first, only_first};

    ghost left = { without_first };

    ghost right = { only_first };
}

/// Another pass learns the facts.
pub struct Noting;

impl<P, T, F> Split<View<P, T, F>> for Noting {
    ghost use Rattle.joint.specs.Views.{only_facts};

    ghost left = { λ v. v };

    ghost right = { only_facts };
}

/// One pass has what two had.
pub struct Joining;

impl<P, T, F> Join<View<P, T, F>> for Joining {
    ghost use Rattle.joint.specs.Views.{both_of, nobody};

    ghost both = { both_of };

    ghost spent = { nobody };
}
