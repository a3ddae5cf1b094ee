// The passes: the coordinator's, and that of each caller.
use crate::law::Held;
use std::marker::Model;

/// What lies beside the coordinator under its lock: it alone holds the list. It has no bytes.
#[derive(Drop)]
pub struct ListPass {
    pub(crate) held: Held,
}

impl Model for ListPass {
    ghost use Rattle.std.specs.Prelude.{◌≡◌, [], ◌∷◌};
    ghost use Rattle.owners.specs.Owners.{ListHolding, part_in};
    ghost use Rattle.records.specs.Identity.{coordinator_number};

    ghost Value = { ListHolding };

    ghost view = { λ p. record { table = p.held.table; part = part_in p.held.parts; facts = p.held.facts } };

    ghost invariant = { λ p. (p.held.parts ≡ (coordinator_number, part_in p.held.parts) ∷ []) × (p.held.goods ≡ []) };
}

/// What goes with a caller: it alone holds what the caller began. It has no bytes.
#[derive(Drop)]
pub struct CallerPass {
    pub(crate) held: Held,
}

impl Model for CallerPass {
    ghost use Rattle.std.specs.Prelude.{◌≡◌, ℕ, [], ◌∷◌};
    ghost use Rattle.owners.specs.Owners.{CallerHolding, begun_in};

    ghost Value = { CallerHolding };

    ghost view = { λ p. record { table = p.held.table; begun = begun_in p.held.goods; facts = p.held.facts } };

    ghost invariant = { λ p. (p.held.parts ≡ []) × ((k : ℕ) × (p.held.goods ≡ (k, begun_in p.held.goods) ∷ [])) };
}
