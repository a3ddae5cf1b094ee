//! The laws at one type: a store whose devices are unmade, before a step and after it.
ghost use Rattle.std.specs.Prelude.{◌≡◌, ℕ, List, []};
ghost use Rattle.records.specs.declared.record.Record.{Record};

use laws::{Contents, an_empty_store_rests, decisions_leave_all_at_rest};

struct Unmade;

impl Contents for Unmade {
    ghost coordinator = { λ rs. rs ≡ [] };

    ghost coordinator_after = { λ rs. rs ≡ [] };

    ghost shard = { λ s rs. rs ≡ [] };

    ghost shard_after = { λ s rs. rs ≡ [] };
}

#[test]
fn the_laws_speak_of_a_store() {
    an_empty_store_rests::<Unmade>();
    decisions_leave_all_at_rest::<Unmade>();
}
