// What a pass knows, and the rule of the two words.
use atomic_table::TableRule;
use std::collections::LinkedList;

/// What a pass knows: the writes that it has seen, and a place that the horizon has reached.
/// What it was told waits in `told` and `told_horizon` until its next load. No value of it is made.
pub struct View<W> {
    /// Whether it is the log's pass, which alone moves the words.
    pub leads: bool,
    pub seen: LinkedList<W>,
    pub horizon: u64,
    pub told: LinkedList<W>,
    pub told_horizon: u64,
}

/// There is one list of writes, and what each pass knows is a beginning of it.
pub struct OneList;

impl<W> TableRule<(), View<W>, ()> for OneList {
    ghost use Rattle.published.specs.OneList.{Kept, opener};

    ghost holds = { λ _. Kept };

    ghost first = { λ _. opener };
}
