// One call of a shard under its lock.
ghost use Rattle.std.specs.Prelude.{◌≡◌, false, true};
ghost use Rattle.calls.specs.Asking.{MayAskShard};
ghost use Rattle.calls.specs.Reading.{is_read, read_reply};
ghost use Rattle.calls.specs.Refusing.{Notes};
ghost use Rattle.calls.specs.declared.reply.Reply.TheVariants.{Shard as from_shard};
ghost use Rattle.sides.specs.Lending.{IsSoundIn, StagesMoreIn};
ghost use Rattle.sides.specs.Sides.{HandsSeen, IsLater, KnowsBoth, MeetFor, SideAnswers, TellsRows, hands_over, is_flush};

use crate::shard_side::{ask_shard, look_at_shard};
use crate::{Lists, Pass, Room, ShardSide};
use calls::{Reply, ShardCall, Told};
use device::Device;
use shard::ReadReply;
use std::sync::Wait;
use tuples::Refusal;

// Whether the call hands a shard something of the list.
fn is_of_list(call: &ShardCall) -> bool
    ensures { result ≡ hands_over call.now }
{
    match call {
        ShardCall::Learn(_) => true,
        ShardCall::Collect(_) => true,
        _ => false,
    }
}

impl<D: Device, B: Room> ShardSide<D, B> {
    /// Makes the call. What it hands over of the list the shard's own pass has to have seen.
    pub fn make(&mut self, told: &mut Told, call: ShardCall) -> Reply
        requires owed { MayAskShard B.shards self.old.number call }
        requires hands { B.rests → HandsSeen self.old.pass call }
        ensures answers { SideAnswers D.state D.honest D.moment D.left_since self.old call result self.new }
        ensures pass { self.new.pass ≡ self.old.pass }
        ensures sound { IsSoundIn D.state D.honest self.old.node → IsSoundIn D.state D.honest self.new.node }
        ensures staged { is_flush call ≡ false → IsSoundIn D.state D.honest self.old.node → StagesMoreIn self.old.node self.new.node }
        ensures told { Notes told.old result told.new }
    {
        let number = self.me.node();
        ask_shard(&mut self.node, number, call, told)
    }

    /// Makes the call. What it hands over of the list the caller's pass has to have seen: the shard's pass and the caller's first learn what either knows.
    pub fn ask<R: Wait>(
        &mut self,
        rt: &R,
        lists: &Lists<B>,
        pass: &mut Pass<B>,
        told: &mut Told,
        call: ShardCall,
    ) -> Reply
        requires owed { MayAskShard B.shards self.old.number call }
        requires hands { B.rests → HandsSeen pass.old call }
        ensures answers { SideAnswers D.state D.honest D.moment D.left_since self.old call result self.new }
        ensures passes { MeetFor (hands_over call) self.old.pass pass.old self.new.pass pass.new }
        ensures own { IsLater self.old.pass self.new.pass }
        ensures caller { IsLater pass.old pass.new }
        ensures sound { IsSoundIn D.state D.honest self.old.node → IsSoundIn D.state D.honest self.new.node }
        ensures staged { is_flush call ≡ false → IsSoundIn D.state D.honest self.old.node → StagesMoreIn self.old.node self.new.node }
        ensures told { Notes told.old result told.new }
    {
        self.meet(rt, lists, pass, &call);
        self.make(told, call)
    }

    // Before a call that hands over something of the list both learn what either knows.
    fn meet<R: Wait>(&mut self, rt: &R, lists: &Lists<B>, pass: &mut Pass<B>, call: &ShardCall)
        ensures same { (self.new.node ≡ self.old.node) × (self.new.number ≡ self.old.number) }
        ensures passes { MeetFor (hands_over call.now) self.old.pass pass.old self.new.pass pass.new }
    {
        if is_of_list(call) {
            self.share(rt, lists, pass);
        }
    }

    /// Makes a read. Rows are those of the list that the caller's pass has seen then. The call is only looked at.
    pub fn look<R: Wait>(
        &self,
        rt: &R,
        lists: &Lists<B>,
        pass: &mut Pass<B>,
        told: &mut Told,
        call: &ShardCall,
    ) -> Result<ReadReply, Refusal>
        requires reads { is_read call.now ≡ true }
        ensures answers { SideAnswers D.state D.honest D.moment D.left_since self.now call.now (from_shard (read_reply call.now result)) self.now }
        ensures caller { KnowsBoth self.now.pass pass.old pass.new }
        ensures rows { B.rests → TellsRows B.shards self.now.number pass.new.seen call.now result }
        ensures told { Notes told.old (from_shard (read_reply call.now result)) told.new }
    {
        self.tell(rt, lists, pass);
        look_at_shard(&self.node, self.me.node(), call, told)
    }
}
