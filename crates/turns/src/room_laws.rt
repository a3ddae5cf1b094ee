// Banks without room, as the clauses of a function with an empty body.
ghost use Rattle.std.specs.Prelude.{ℕ};
ghost use Rattle.turns.specs.RoomLaws.{FailedFlushesHaveCause, FailedPointsHaveCause, OpeningsWithoutRoomHaveCause};

use device::Device;

/// A flush that fails has its cause in the node's devices, even if it found no room in the current bank for its batch. So has a checkpoint, which may find no room for a
/// batch of its own, and an opening that found no room for its record: the bytes that the bank may have read are nearly as many as one may have.
pub fn lack_of_room_has_cause<D: Device>()
    ensures flush { (store shards : ℕ) → FailedFlushesHaveCause D.state D.honest D.moment D.left_since store shards }
    ensures checkpoint { (store shards : ℕ) → FailedPointsHaveCause D.state D.honest D.moment D.left_since store shards }
    ensures open { (store shards : ℕ) → OpeningsWithoutRoomHaveCause D.state D.honest D.moment D.left_since store shards }
{}
