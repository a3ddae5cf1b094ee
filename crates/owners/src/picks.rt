// What each call of a step picks. No value of it is ever in memory.
use std::marker::Brand;

/// A write that is begun or aborted.
pub trait Writes {
    ghost use Rattle.tuples.specs.declared.entry.Entry.{Entry as AnyEntry};

    ghost write: { AnyEntry };
}

impl Writes for Brand {
    ghost use Rattle.owners.specs.Owners.{no_write};

    ghost write = { no_write };
}

/// A write that is decided, and what its caller began before it and after it.
pub trait Decides {
    ghost use Rattle.std.specs.Prelude.{List};
    ghost use Rattle.accord.specs.declared.goods.Begun.{Begun as AnyBegun};
    ghost use Rattle.tuples.specs.declared.entry.Entry.{Entry as AnyEntry};

    ghost before: { List AnyBegun };

    ghost write: { AnyEntry };

    ghost after: { List AnyBegun };
}

impl Decides for Brand {
    ghost use Rattle.owners.specs.Owners.{no_write};
    ghost use Rattle.std.specs.Prelude.{[]};

    ghost before = { [] };

    ghost write = { no_write };

    ghost after = { [] };
}

/// The list that is found as the store is opened, and the epoch.
pub trait Opens {
    ghost use Rattle.std.specs.Prelude.{List, ℕ};
    ghost use Rattle.tuples.specs.declared.entry.Entry.{Entry as AnyEntry};

    ghost log: { List AnyEntry };

    ghost epoch: { ℕ };
}

impl Opens for Brand {
    ghost use Rattle.std.specs.Prelude.{[]};

    ghost log = { [] };

    ghost epoch = { 1 };
}

/// How many writes of the list are found as the coordinator is opened again, and the epoch.
pub trait Restarts {
    ghost use Rattle.std.specs.Prelude.{ℕ};

    ghost count: { ℕ };

    ghost epoch: { ℕ };
}

impl Restarts for Brand {
    ghost count = { 0 };

    ghost epoch = { 1 };
}

/// The list and what a caller began after a step of both, and what is known from then on.
pub(crate) trait Moves {
    ghost use Rattle.std.specs.Prelude.{List};
    ghost use Rattle.accord.specs.declared.fact.DecidedWrite.{DecidedWrite as AnyDecided};
    ghost use Rattle.accord.specs.declared.goods.Begun.{Begun as AnyBegun};
    ghost use Rattle.accord.specs.declared.parts.ListPart.{ListPart as AnyList};

    ghost part: { AnyList };

    ghost begun: { List AnyBegun };

    ghost facts: { List AnyDecided };
}

impl Moves for Brand {
    ghost use Rattle.accord.specs.OwnedLists.{no_list};
    ghost use Rattle.std.specs.Prelude.{[]};

    ghost part = { no_list };

    ghost begun = { [] };

    ghost facts = { [] };
}
