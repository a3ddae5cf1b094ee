//! The laws at one type: a store whose devices are unmade, before a step and after it.
ghost use Rattle.std.specs.Prelude.{◌≡◌, ℕ, List, []};
ghost use Rattle.records.specs.declared.record.Record.{Record};
ghost use Rattle.laws.specs.Nodes.{NodeName};

use device::SimDisk;
use laws::Leavings;
use stores::{
    aborts_leave_the_store_standing, busy_shards_have_cause, decisions_leave_the_store_standing,
    failed_flushes_leave_the_store_standing, flushes_of_the_coordinator_leave_the_store_standing,
    replies_select, tickets_are_refused_with_cause,
};
use turns::{
    chains_run, closed_stores_rest, closed_stores_stand, deciders_take_their_turn,
    openings_of_the_coordinator_leave_the_store_standing, prepare_takes_its_turn, quiet_calls_keep,
    shard_opening_takes_its_step, stopped_steps_rest, stops_within_a_step_leave_all_at_rest,
};

struct Unmade;

impl Leavings for Unmade {
    ghost left = { λ n rs. rs ≡ [] };

    ghost left_after = { λ n rs. rs ≡ [] };
}

#[test]
fn the_laws_speak_of_a_store() {
    decisions_leave_the_store_standing::<Unmade>();
    flushes_of_the_coordinator_leave_the_store_standing::<Unmade>();
    failed_flushes_leave_the_store_standing::<Unmade>();
    openings_of_the_coordinator_leave_the_store_standing::<Unmade>();
    stops_within_a_step_leave_all_at_rest::<Unmade>();
    closed_stores_stand::<Unmade>();
    closed_stores_rest::<SimDisk>();
    chains_run::<SimDisk>();
    stopped_steps_rest::<SimDisk>();
    busy_shards_have_cause::<Unmade>();
    deciders_take_their_turn::<Unmade>();
    aborts_leave_the_store_standing::<Unmade>();
    tickets_are_refused_with_cause::<Unmade>();
    replies_select::<Unmade>();
    quiet_calls_keep::<Unmade>();
    prepare_takes_its_turn::<Unmade, SimDisk>();
    shard_opening_takes_its_step::<SimDisk>();
}
