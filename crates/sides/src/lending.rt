// A shard under its lock whose devices are elsewhere, while what was staged is made durable there.
ghost use Rattle.std.specs.Prelude.{◌≡◌, ◌↔◌, IfErr, IfOk, IsErr, IsSome, IsTrue};
ghost use Rattle.sides.specs.Lending.{IsUpIn, LandsIn, LandsRows, LendsIn, MayLandIn, refusal_in};

use crate::shard_side::ask_shard;
use crate::{Room, ShardSide};
use away::Away;
use calls::{Flying, Lent, Reply, ShardCall, ShardReply, Told};
use device::Device;
use journal::{BatchRoom, Journal};
use std::marker::PhantomData;

/// A shard without its devices, and a flight: its journal with them.
#[derive(Drop)]
pub struct LentShard<D: Device, B: Room> {
    /// Still tied to what its pass has seen. It may be called but not flushed, which would put it down, nor opened again.
    pub side: ShardSide<Away<D>, B>,
    /// To be flushed.
    pub flight: Journal<D>,
    pub flying: Flying,
}

impl<D: Device, B: Room> ShardSide<D, B> {
    /// Whether it is up.
    pub fn is_up(&mut self) -> bool
        ensures same { self.new ≡ self.old }
        ensures up { IsTrue result ↔ IsUpIn self.old.node }
    {
        let mut told = Told::new();
        let number = self.me.node();
        let reply = ask_shard(&mut self.node, number, ShardCall::Learned, &mut told);
        match reply {
            Reply::Shard(ShardReply::Learned(Ok(_))) => true,
            other => {
                other.leave();
                false
            }
        }
    }

    /// Lends its devices. One whose opening was refused comes back as it was, since it has nothing that could fly; no other does.
    pub fn lend(self, room: BatchRoom) -> Result<LentShard<D, B>, (ShardSide<D, B>, BatchRoom)>
        ensures lends { IfOk result (λ r. LendsIn D.state D.honest self.node r.side.node r.flight r.flying) }
        ensures same { IfOk result (λ r. (r.side.number ≡ self.number) × (r.side.pass ≡ self.pass)) }
        ensures refused { IsErr result ↔ IsSome (refusal_in self.node) }
        ensures back { IfErr result (λ e. e.0 ≡ self) }
    {
        let ShardSide {
            node,
            me,
            pass,
            room: _,
        } = self;
        let Some(node) = node else {
            unreachable!();
        };
        match node.lend(room) {
            Ok(
                Lent {
                    node,
                    flight,
                    flying,
                },
            ) => {
                let side = ShardSide {
                    node: Some(node),
                    me,
                    pass,
                    room: PhantomData,
                };
                Ok(LentShard {
                    side,
                    flight,
                    flying,
                })
            }
            Err((node, room)) => {
                let side = ShardSide {
                    node: Some(node),
                    me,
                    pass,
                    room: PhantomData,
                };
                Err((side, room))
            }
        }
    }
}

impl<D: Device, B: Room> ShardSide<Away<D>, B> {
    /// Its devices come back from a flight, and the room for the next one. What was staged since they were lent is staged still. If the flight's flush
    /// failed the shard is down, and has to be opened again.
    pub fn land(self, flown: Journal<D>, flying: Flying) -> (ShardSide<D, B>, BatchRoom)
        requires may { MayLandIn D.state D.honest self.node flown flying }
        requires rows { B.rests → LandsRows D.state D.honest B.shards self.number flown self.pass.seen self.pass.horizon }
        ensures lands { LandsIn D.state D.honest self.node flown flying result.0.node }
        ensures same { (result.0.number ≡ self.number) × (result.0.pass ≡ self.pass) }
    {
        let ShardSide {
            node,
            me,
            pass,
            room: _,
        } = self;
        let Some(node) = node else {
            unreachable!();
        };
        let (node, room) = node.land(flown, flying);
        let side = ShardSide {
            node: Some(node),
            me,
            pass,
            room: PhantomData,
        };
        (side, room)
    }
}
