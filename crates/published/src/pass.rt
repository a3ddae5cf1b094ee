// Passes, in which a thread carries what it knows.
use crate::rule::View;
use atomic_table::Seat;
use std::marker::Model;

/// The log's pass, which alone moves the words. There is one, and it has seen the whole list.
#[derive(Drop)]
pub struct LogPass<W> {
    pub(crate) seat: Seat<(), View<W>>,
    // how many sessions' passes came from it
    pub(crate) sessions: usize,
}

impl<W> Model for LogPass<W> {
    ghost use Rattle.std.specs.Prelude.{◌≡◌, true, []};
    ghost use Rattle.published.specs.Known.{Known};

    ghost Value = { Known W };

    ghost view = { λ p. record { table = p.seat.table_id; seen = p.seat.me.0.seen; horizon = p.seat.me.0.horizon } };

    ghost invariant = { λ p. (p.seat.me.0.leads ≡ true) × (p.seat.me.1 ≡ []) };
}

/// The pass of a caller, or of what lies under a lock of its own.
#[derive(Drop)]
pub struct SessionPass<W> {
    pub(crate) seat: Seat<(), View<W>>,
    // which of the copies of a shared pass it learns from: by this number's remainder
    pub(crate) lane: usize,
}

impl<W> Model for SessionPass<W> {
    ghost use Rattle.std.specs.Prelude.{◌≡◌, false, []};
    ghost use Rattle.published.specs.Known.{Known};

    ghost Value = { Known W };

    ghost view = { λ p. record { table = p.seat.table_id; seen = p.seat.me.0.seen; horizon = p.seat.me.0.horizon } };

    ghost invariant = { λ p. (p.seat.me.0.leads ≡ false) × (p.seat.me.1 ≡ []) × (p.seat.me.0.told_horizon ≡ 0) };
}
