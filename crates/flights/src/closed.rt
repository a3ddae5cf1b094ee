// A shard before it is opened, so that several can be opened at once.
ghost use Rattle.std.specs.Prelude.{◌≡◌, ◌<◌};
ghost use Rattle.laws.specs.Worlds.{shard_node};
ghost use Rattle.ties.specs.ShardTies.{RowsAnywhere};

use crate::ShardPlace;
use device::Device;
use journal::BatchRoom;
use published::{SessionPass, SharedPass};
use records::Identity;
use sides::{Launch, Room};
use std::alloc::Global;
use std::marker::{Model, PhantomData};
use tuples::Entry;

/// The devices of a shard that is to be opened, with what it is to have then. Each can be opened by a thread of its own.
#[derive(Drop)]
pub struct ClosedShard<D: Device, B: Room> {
    alloc: Global,
    a: D,
    b: D,
    me: Identity,
    pass: SharedPass<Entry>,
    flight_room: BatchRoom,
    launches: SessionPass<Launch>,
    room: PhantomData<B>,
}

impl<D: Device, B: Room> Model for ClosedShard<D, B> {
    ghost use Rattle.std.specs.Prelude.{◌≡◌, ◌<◌, ℕ};
    ghost use Rattle.laws.specs.Worlds.{shard_node};
    ghost use Rattle.ties.specs.ShardTies.{RowsAnywhere};

    ghost Value = { ℕ };

    ghost view = { λ s. s.me.node };

    ghost invariant = { λ s. (s.pass.table ≡ B.log) × (s.launches.table ≡ B.launches) × (s.me ≡ shard_node B.store B.shards s.me.node) × (s.me.node < B.shards) × (D.honest s.a × D.honest s.b) × (B.rests → RowsAnywhere D.state D.honest B.shards s.me.node s.a s.b s.pass.seen s.pass.horizon) };
}

impl<D: Device, B: Room> ClosedShard<D, B> {
    /// The shard of two devices, of which a stop leaves its part of the list that the pass has seen; the rest as `ShardPlace::open` has it.
    pub fn new(
        alloc: Global,
        a: D,
        b: D,
        me: Identity,
        pass: SharedPass<Entry>,
        flight_room: BatchRoom,
        launches: SessionPass<Launch>,
    ) -> ClosedShard<D, B>
        requires own { (pass.table ≡ B.log) × (launches.table ≡ B.launches) }
        requires me { me ≡ shard_node B.store B.shards me.node }
        requires shard { me.node < B.shards }
        requires honest { D.honest a × D.honest b }
        requires rows { B.rests → RowsAnywhere D.state D.honest B.shards me.node a b pass.seen pass.horizon }
        ensures { result ≡ me.node }
    {
        ClosedShard {
            alloc,
            a,
            b,
            me,
            pass,
            flight_room,
            launches,
            room: PhantomData,
        }
    }

    /// Opens it, as `ShardPlace::open` does.
    pub fn open(self) -> ShardPlace<D, B> {
        let ClosedShard {
            alloc,
            a,
            b,
            me,
            pass,
            flight_room,
            launches,
            room: _,
        } = self;
        ShardPlace::open(alloc, a, b, me, pass, flight_room, launches)
    }
}
