// Which store it is.
use std::marker::Brand;

/// Names a store that callers share. No value has it: each call of a program picks which it is.
pub trait Room {
    ghost use Rattle.atomic_table.specs.Seated.{TableId};
    ghost use Rattle.std.specs.Prelude.{List, ℕ};
    ghost use Rattle.tuples.specs.declared.entry.Entry.{Entry as AnyEntry};

    /// The words whose passes stand for the list of its writes.
    ghost log: { TableId };

    /// The words whose passes stand for the list of all decisions that its coordinator has ever staged.
    ghost attempts: { TableId };

    /// The words whose passes stand for the list of the flights of its nodes.
    ghost launches: { TableId };

    /// Its number.
    ghost store: { ℕ };

    /// How many shards it has.
    ghost shards: { ℕ };

    /// What is taken to be so of its devices when it is opened: that they rest at one list. All that is said of the list is said if this is so.
    ghost rests: { Type 0 };

    /// The list at which they rest, or a beginning of it.
    ghost first: { List AnyEntry };

    /// The horizon at which they rest.
    ghost low: { ℕ };
}

impl Room for Brand {
    ghost use Rattle.sides.specs.Sides.{no_table};
    ghost use Rattle.std.specs.Prelude.{[]};

    ghost log = { no_table };

    ghost attempts = { no_table };

    ghost launches = { no_table };

    ghost store = { 0 };

    ghost shards = { 0 };

    ghost rests = { Unit {0} };

    ghost first = { [] };

    ghost low = { 0 };
}
