// A pass, in which a lock or a caller carries what it holds of the one state.
use crate::rule::View;
use atomic_table::Seat;
use std::marker::Model;

/// What lies beside a node under its lock, or goes with a caller. It has no bytes.
/// What a pass held when it was dropped stays as it was: nobody else can hold it.
#[derive(Drop)]
pub struct Pass<P, T, F> {
    pub(crate) seat: Seat<(), View<P, T, F>>,
}

impl<P, T, F> Model for Pass<P, T, F> {
    ghost use Rattle.std.specs.Prelude.{◌≡◌, true, []};
    ghost use Rattle.joint.specs.Views.{Holding};

    ghost Value = { Holding P T F };

    ghost view = { λ p. record { table = p.seat.table_id; parts = p.seat.me.0.parts; goods = p.seat.me.0.goods; facts = p.seat.me.0.facts } };

    ghost invariant = { λ p. (p.seat.me.0.has_begun ≡ true) × (p.seat.me.1 ≡ []) };
}
