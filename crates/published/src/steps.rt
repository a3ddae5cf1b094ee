// The four kinds of step, and what each tells the pass that makes it.
ghost use Rattle.std.specs.Prelude.{List};

use crate::rule::View;
use atomic_table::{Join, Play, Split};
use std::marker::{Brand, PhantomData};

/// A load of the safe place.
pub struct LoadsPlace;

impl<W> Play<(), View<W>> for LoadsPlace {
    ghost use Rattle.published.specs.Tells.{LoadedPlace};

    ghost then = { LoadedPlace };
}

/// A load of the horizon.
pub struct LoadsHorizon;

impl<W> Play<(), View<W>> for LoadsHorizon {
    ghost use Rattle.published.specs.Tells.{LoadedHorizon};

    ghost then = { LoadedHorizon };
}

/// The writes that join the list at an advance. Each call picks them, so the list is never in memory.
pub trait Adds<W> {
    ghost use Rattle.std.specs.Prelude.{List};

    ghost added: { List W };
}

impl<W> Adds<W> for Brand {
    ghost use Rattle.std.specs.Prelude.{[]};

    ghost added = { [] };
}

/// An advance of the safe place.
pub struct Advances<A> {
    of: PhantomData<A>,
}

impl<W, A: Adds<W>> Play<(), View<W>> for Advances<A> {
    ghost use Rattle.published.specs.Tells.{Advanced};

    ghost then = { Advanced A.added };
}

/// A rise of the horizon.
pub struct Raises;

impl<W> Play<(), View<W>> for Raises {
    ghost use Rattle.published.specs.Tells.{Raised};

    ghost then = { Raised };
}

/// What one pass has seen, told to another: a meet, together with the load that follows it.
pub struct Notes;

impl<W> Split<View<W>> for Notes {
    ghost use Rattle.published.specs.Tells.{note};

    ghost left = { λ v. v };

    ghost right = { note };
}

impl<W> Join<View<W>> for Notes {
    ghost use Rattle.published.specs.Tells.{told_of, nobody};

    ghost both = { told_of };

    ghost spent = { nobody };
}
