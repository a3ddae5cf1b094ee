// What lies under the lock of a shard.
ghost use Rattle.std.specs.Prelude.{◌≡◌, ◌<◌, true, false, List, ℕ};
ghost use Rattle.away.specs.Aways.{lent_honest, lent_state};
ghost use Rattle.calls.specs.Asking.{MayAskShard};
ghost use Rattle.calls.specs.Belonging.{IsReplyTo};
ghost use Rattle.calls.specs.Reading.{is_read, read_reply};
ghost use Rattle.calls.specs.Refusing.{Notes};
ghost use Rattle.calls.specs.declared.call.NodeCall.TheVariants.{Shard as of_shard};
ghost use Rattle.calls.specs.declared.reply.Reply.TheVariants.{Shard as from_shard};
ghost use Rattle.laws.specs.Worlds.{shard_node};
ghost use Rattle.sides.specs.Sides.{HandsSeen, IsLater, SideAnswers, TellsRows, is_flush};
ghost use Rattle.sides.specs.declared.launch.Launch.{Launch as AnyLaunch};
ghost use Rattle.flights.specs.Flights.{IsOutOn};
ghost use Rattle.ties.specs.ShardTies.{RowsAnywhere};
ghost use Rattle.flights.specs.Places.{HasOpened, PlaceAnswers, bank_len_at, number_at};

use crate::berth::Berth;
use away::Away;
use calls::{Reply, ShardCall, Told};
use device::Device;
use journal::BatchRoom;
use published::{RestingPass, SessionPass, SharedPass};
use records::Identity;
use shard::ReadReply;
use sides::{Launch, Lists, Pass, Room, ShardSide};
use std::alloc::Global;
use std::marker::Model;
use std::sync::Wait;
use tuples::{Entry, Refusal};

/// A shard, whose devices are here or on a flight.
#[derive(Drop)]
pub struct ShardPlace<D: Device, B: Room> {
    // stands first, since it has unused bytes on both sides, and who locks writes the bytes before the place, while others read the berth
    pub(crate) pass: RestingPass<Launch>,
    // moved only within a call
    pub(crate) berth: Option<Berth<ShardSide<D, B>, ShardSide<Away<D>, B>>>,
    // how many of its flights have left
    pub(crate) flights: u64,
}

impl<D: Device, B: Room> Model for ShardPlace<D, B> {
    ghost use Rattle.std.specs.Prelude.{◌≡◌};
    ghost use Rattle.flights.specs.Places.{IsBerthed, PlaceView, place_of};

    ghost Value = { PlaceView D };

    ghost view = { λ p. place_of p.berth };

    ghost invariant = { λ p. (p.pass.table ≡ B.launches) × IsBerthed D.state D.honest B.rests B.shards p.pass.seen p.berth };
}

// Makes the call of a shard whose devices are out. What left with them stays the first of what is staged.
fn ask_out<D: Device, B: Room, R: Wait>(
    rt: &R,
    lists: &Lists<B>,
    side: &mut ShardSide<Away<D>, B>,
    pass: &mut Pass<B>,
    told: &mut Told,
    call: ShardCall,
) -> Reply
    requires owed { MayAskShard B.shards side.old.number call }
    requires hands { B.rests → HandsSeen pass.old call }
    requires no_flush { is_flush call ≡ false }
    ensures answers { SideAnswers (lent_state D.state) (lent_honest D.honest) (λ d. D.moment d.was.value) (λ d t c. D.left_since d.was.value t c) side.old call result side.new }
    ensures out { (launches : List AnyLaunch) (launch : ℕ) → IsOutOn D.state D.honest B.rests B.shards launches side.old launch → IsOutOn D.state D.honest B.rests B.shards launches side.new launch }
    ensures caller { IsLater pass.old pass.new }
    ensures told { Notes told.old result told.new }
{
    side.ask(rt, lists, pass, told, call)
}

impl<D: Device, B: Room> ShardPlace<D, B> {
    /// Opens a shard as `ShardSide::open` does, over honest devices, and has the room for one flight. The pass of launches is of the words that name the
    /// store's flights.
    pub fn open(
        alloc: Global,
        a: D,
        b: D,
        me: Identity,
        pass: SharedPass<Entry>,
        room: BatchRoom,
        launches: SessionPass<Launch>,
    ) -> ShardPlace<D, B>
        requires own { (pass.table ≡ B.log) × (launches.table ≡ B.launches) }
        requires me { me ≡ shard_node B.store B.shards me.node }
        requires shard { me.node < B.shards }
        requires honest { D.honest a × D.honest b }
        requires rows { B.rests → RowsAnywhere D.state D.honest B.shards me.node a b pass.seen pass.horizon }
        ensures opened { HasOpened D.state D.honest D.moment D.left_since me a b pass result }
    {
        let side = ShardSide::open(alloc, a, b, me, pass);
        ShardPlace {
            pass: RestingPass::new(launches),
            berth: Some(Berth::Here(side, room)),
            flights: 0,
        }
    }

    /// Its number among the shards.
    pub fn number(&self) -> u8
        ensures { result ≡ number_at self.now }
    {
        match &self.berth {
            Some(Berth::Here(side, _)) => side.number(),
            Some(Berth::Out(side, _)) => side.number(),
            None => unreachable!(),
        }
    }

    /// How many bytes its current bank has; 0 if its opening was refused. While its devices are out, those before they left.
    pub fn bank_len(&self) -> u64
        ensures { result ≡ bank_len_at self.now }
    {
        match &self.berth {
            Some(Berth::Here(side, _)) => side.bank_len(),
            Some(Berth::Out(side, _)) => side.bank_len(),
            None => unreachable!(),
        }
    }

    /// How many bytes a checkpoint of its node has, wherever its devices are; none if its opening was refused, or there is no memory to tell.
    pub fn checkpoint_len(&self) -> Option<u64> {
        match &self.berth {
            Some(Berth::Here(side, _)) => side.checkpoint_len(),
            Some(Berth::Out(side, _)) => side.checkpoint_len(),
            None => unreachable!(),
        }
    }

    /// Whether the disk of its node has the room for a checkpoint of so many bytes, as far as that can be told.
    pub fn has_point_room(&self, len: u64) -> bool {
        match &self.berth {
            Some(Berth::Here(side, _)) => side.has_point_room(len),
            Some(Berth::Out(_, _)) => true,
            None => unreachable!(),
        }
    }

    /// Makes a call that is no flush, wherever its devices are. What it hands over of the list the caller's pass has to have seen.
    pub fn ask<R: Wait>(
        &mut self,
        rt: &R,
        lists: &Lists<B>,
        pass: &mut Pass<B>,
        told: &mut Told,
        call: ShardCall,
    ) -> Reply
        requires owed { MayAskShard B.shards (number_at self.old) call }
        requires hands { B.rests → HandsSeen pass.old call }
        requires no_flush { is_flush call ≡ false }
        ensures answers { PlaceAnswers D.state D.honest D.moment D.left_since self.old call result self.new }
        ensures belongs { IsReplyTo (of_shard (number_at self.old) call) result }
        ensures number { number_at self.new ≡ number_at self.old }
        ensures caller { IsLater pass.old pass.new }
        ensures told { Notes told.old result told.new }
    {
        match &mut self.berth {
            Some(Berth::Here(side, _)) => side.ask(rt, lists, pass, told, call),
            Some(Berth::Out(side, _)) => ask_out(rt, lists, side, pass, told, call),
            None => unreachable!(),
        }
    }

    /// Makes a read, wherever its devices are: it stays as it is, and others may read meanwhile. Rows are of the list that the caller's pass has seen then.
    /// The call is only looked at.
    pub fn look<R: Wait>(
        &self,
        rt: &R,
        lists: &Lists<B>,
        pass: &mut Pass<B>,
        told: &mut Told,
        call: &ShardCall,
    ) -> Result<ReadReply, Refusal>
        requires reads { is_read call.now ≡ true }
        ensures answers { PlaceAnswers D.state D.honest D.moment D.left_since self.now call.now (from_shard (read_reply call.now result)) self.now }
        ensures belongs { IsReplyTo (of_shard (number_at self.now) call.now) (from_shard (read_reply call.now result)) }
        ensures caller { IsLater pass.old pass.new }
        ensures rows { B.rests → TellsRows B.shards (number_at self.now) pass.new.seen call.now result }
        ensures told { Notes told.old (from_shard (read_reply call.now result)) told.new }
    {
        match &self.berth {
            Some(Berth::Here(side, _)) => side.look(rt, lists, pass, told, call),
            Some(Berth::Out(side, _)) => side.look(rt, lists, pass, told, call),
            None => unreachable!(),
        }
    }
}
