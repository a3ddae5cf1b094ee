// A law of checkpoints, the clause of a function with an empty body.
ghost use Rattle.recovery.specs.Checkpoints.{CoordinatorCheckpointsStand};

/// A checkpoint of what the records of a coordinator stand for is this coordinator's, and stands for what they stand for above the horizon.
pub fn coordinator_checkpoints_stand()
    ensures { CoordinatorCheckpointsStand }
{}
