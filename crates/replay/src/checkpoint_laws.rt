// A law of checkpoints, the clause of a function with an empty body.
ghost use Rattle.replay.specs.Checkpoints.{ShardCheckpointsStand};

/// A checkpoint of what the records of a shard stand for is this shard's, and stands for what reads the same.
pub fn shard_checkpoints_stand()
    ensures { ShardCheckpointsStand }
{}
