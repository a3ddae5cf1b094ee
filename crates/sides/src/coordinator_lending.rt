// The coordinator under its lock whose devices are elsewhere, while what was staged is made durable there.
ghost use Rattle.std.specs.Prelude.{◌≡◌, ◌↔◌, IfErr, IfOk, IsErr, IsSome, IsTrue};
ghost use Rattle.sides.specs.CoordinatorSides.{HasLaterList, HasSameList};
ghost use Rattle.sides.specs.Lending.{ComesBackIn, IsUpThere, LandsIn, LendsIn, MayLandIn, refusal_in};

use crate::joining::{ask_heads, join};
use crate::{CoordinatorSide, Lists, Room};
use away::Away;
use calls::{Flying, Lent};
use device::Device;
use journal::{BatchRoom, Journal};
use std::marker::PhantomData;

/// The coordinator without its devices, and a flight: its journal with them.
#[derive(Drop)]
pub struct LentCoordinator<D: Device, B: Room> {
    /// Still tied to the list. It may be called but not flushed, which would put it down, nor opened again.
    pub side: CoordinatorSide<Away<D>, B>,
    /// To be flushed.
    pub flight: Journal<D>,
    pub flying: Flying,
}

impl<D: Device, B: Room> CoordinatorSide<D, B> {
    /// Whether it is up.
    pub fn is_up(&mut self) -> bool
        ensures same { self.new ≡ self.old }
        ensures up { IsTrue result ↔ IsUpThere self.old.node }
    {
        ask_heads(&mut self.node).is_some()
    }

    /// Lends its devices. One whose opening was refused comes back as it was, since it has nothing that could fly; no other does.
    pub fn lend(
        self,
        room: BatchRoom,
    ) -> Result<LentCoordinator<D, B>, (CoordinatorSide<D, B>, BatchRoom)>
        ensures lends { IfOk result (λ r. LendsIn D.state D.honest self.node r.side.node r.flight r.flying) }
        ensures list { IfOk result (λ r. HasSameList self r.side) }
        ensures refused { IsErr result ↔ IsSome (refusal_in self.node) }
        ensures back { IfErr result (λ e. e.0 ≡ self) }
    {
        let CoordinatorSide {
            node,
            me,
            log,
            attempts,
            room: _,
        } = self;
        let Some(node) = node else {
            unreachable!();
        };
        match node.lend(room) {
            Ok(
                Lent {
                    node,
                    flight,
                    flying,
                },
            ) => {
                let side = CoordinatorSide {
                    node: Some(node),
                    me,
                    log,
                    attempts,
                    room: PhantomData,
                };
                Ok(LentCoordinator {
                    side,
                    flight,
                    flying,
                })
            }
            Err((node, room)) => {
                let side = CoordinatorSide {
                    node: Some(node),
                    me,
                    log,
                    attempts,
                    room: PhantomData,
                };
                Err((side, room))
            }
        }
    }
}

impl<D: Device, B: Room> CoordinatorSide<Away<D>, B> {
    /// Its devices come back from a flight, and the room for the next one. What the flight made durable joins the list now, and the horizon rises to what is
    /// durable of it. What was staged since they were lent is staged still. If the flight's flush failed, the list stays as it is, and the coordinator is
    /// down, and has to be opened again.
    pub fn land(
        self,
        lists: &Lists<B>,
        flown: Journal<D>,
        flying: Flying,
    ) -> (CoordinatorSide<D, B>, BatchRoom)
        requires may { MayLandIn D.state D.honest self.node flown flying }
        requires comes { ComesBackIn D.state D.honest self.node flown flying }
        ensures lands { LandsIn D.state D.honest self.node flown flying result.0.node }
        ensures list { HasLaterList self result.0 }
    {
        let CoordinatorSide {
            node,
            me,
            mut log,
            attempts,
            room: _,
        } = self;
        let Some(node) = node else {
            unreachable!();
        };
        let (node, room) = node.land(flown, flying);
        let mut node = Some(node);
        join::<D, B>(lists, &mut log, &mut node);
        let side = CoordinatorSide {
            node,
            me,
            log,
            attempts,
            room: PhantomData,
        };
        (side, room)
    }
}
