// The steps of the passes, and what each tells.
use super::rule::{Numbered, View};
use crossbeam_queue::protocol::{Join, Lesson, Outcome, Split};

/// One more worker's pass.
pub struct Workers;

impl Split<View> for Workers {
    ghost use Rattle.connections.specs.Waiting.{one_more, worker};

    ghost left = { one_more };

    ghost right = { λ v. worker 1 };
}

/// A push, or a full queue.
pub struct Puts;

impl<C> Outcome<Numbered<C>, View> for Puts {
    ghost use Rattle.connections.specs.Waiting.{Put};

    ghost then = { Put };
}

impl<C> Lesson<Numbered<C>, View> for Puts {
    ghost use Rattle.connections.specs.Waiting.{Waits};

    ghost fact = { Waits };
}

/// A pop, or an empty queue.
pub struct Takes;

impl<C> Outcome<Numbered<C>, View> for Takes {
    ghost use Rattle.connections.specs.Waiting.{Took};

    ghost then = { Took };
}

impl<C> Lesson<Numbered<C>, View> for Takes {
    ghost use Rattle.connections.specs.Waiting.{Waits};

    ghost fact = { Waits };
}

/// What two workers took, put together.
pub struct Together;

impl Join<View> for Together {
    ghost use Rattle.connections.specs.Waiting.{gathered, worker};

    ghost both = { gathered };

    ghost spent = { worker 0 };
}

impl<C> Lesson<Numbered<C>, View> for Together {
    ghost use Rattle.connections.specs.Numbers.{IsOnceEach};

    ghost fact = { λ v items. IsOnceEach v.taken };
}

/// What a worker took, told to the acceptor.
pub struct Notes;

impl Split<View> for Notes {
    ghost use Rattle.connections.specs.Waiting.{note};

    ghost left = { λ v. v };

    ghost right = { note };
}

impl Join<View> for Notes {
    ghost use Rattle.connections.specs.Waiting.{told_of, worker};

    ghost both = { told_of };

    ghost spent = { worker 0 };
}

impl<C> Lesson<Numbered<C>, View> for Notes {
    ghost use Rattle.std.specs.Prelude.{◌≡◌, true};
    ghost use Rattle.connections.specs.Numbers.{IsUpTo};

    ghost fact = { λ v items. v.puts ≡ true → IsUpTo v.put v.told };
}
