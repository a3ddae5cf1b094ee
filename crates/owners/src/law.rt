// The law of the one state.
use accord::{Begun, DecidedWrite, ListPart};
use joint::{Joint, Law, Pass};
use std::collections::LinkedList;

/// What is so of the list as its coordinator has it and of what callers began, and what is right of a write that was decided.
pub struct Owned;

impl Law<ListPart, LinkedList<Begun>, DecidedWrite> for Owned {
    ghost use Rattle.owners.specs.Owners.{IsOwnedIn, IsPlacedIn};

    ghost holds = { IsOwnedIn };

    ghost right = { IsPlacedIn };
}

/// The one state.
pub(crate) type Whole = Joint<ListPart, LinkedList<Begun>, DecidedWrite, Owned>;

/// What is held and known of it.
pub(crate) type Held = Pass<ListPart, LinkedList<Begun>, DecidedWrite>;
