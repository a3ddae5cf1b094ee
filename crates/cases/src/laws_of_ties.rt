//! The laws of ties at one type: nodes over disks in memory.
use device::SimDisk;
use ties::{
    decisions_stay_tied, failed_flushes_stay_tied, kept_attempts_stand, landings_stay_tied,
    learnings_stay_tied, longer_lists_stay_tied, openings_stay_tied, reads_are_seen,
    resting_nodes_are_tied, shard_openings_stay_tied,
};

#[test]
fn the_laws_speak_of_nodes_over_disks() {
    decisions_stay_tied::<SimDisk>();
    landings_stay_tied::<SimDisk, SimDisk>();
    kept_attempts_stand::<SimDisk>();
    failed_flushes_stay_tied::<SimDisk>();
    openings_stay_tied::<SimDisk>();
    longer_lists_stay_tied::<SimDisk>();
    learnings_stay_tied::<SimDisk>();
    shard_openings_stay_tied::<SimDisk>();
    reads_are_seen::<SimDisk>();
    resting_nodes_are_tied::<SimDisk>();
}
