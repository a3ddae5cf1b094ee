// A read of a shard, which leaves it as it is: several may read it at once.
ghost use Rattle.std.specs.Prelude.{◌≡◌, true, ℕ};
ghost use Rattle.calls.specs.Asking.{Answered, MayAsk, ShardAnswers};
ghost use Rattle.calls.specs.Reading.{is_read, read_reply};
ghost use Rattle.calls.specs.Refusing.{Notes};
ghost use Rattle.calls.specs.Seen.{seen};
ghost use Rattle.calls.specs.declared.call.NodeCall.TheVariants.{Shard as of_shard};
ghost use Rattle.calls.specs.declared.reply.Reply.TheVariants.{Shard as from_shard};

use crate::node::Opened;
use crate::{Node, ShardCall, ShardReply, Told};
use device::Device;
use shard::{ReadReply, Shard};
use std::alloc::Global;
use tuples::Refusal;
use versions::Budget;

impl ShardCall {
    /// The reply to a read with this answer; it returns what was lent.
    pub fn into_reply(self, answer: Result<ReadReply, Refusal>) -> ShardReply
        requires { is_read self ≡ true }
        ensures { result ≡ read_reply self answer }
    {
        match self {
            ShardCall::Read(_, set) => ShardReply::Read(set, answer),
            ShardCall::ReadForCheck(_, userset, user) => {
                ShardReply::ReadForCheck(userset, user, answer)
            }
            _ => unreachable!(),
        }
    }
}

// Reads of the shard what the call asks for.
fn read<D: Device>(
    alloc: Global,
    shard: &Shard<D>,
    call: &ShardCall,
    budget: &mut Budget,
) -> Result<ReadReply, Refusal>
    requires { is_read call.now ≡ true }
    ensures { ShardAnswers D.state D.honest D.moment D.left_since shard.now call.now (read_reply call.now result) shard.now }
{
    match call {
        ShardCall::Read(place, set) => shard.read(alloc, *place, set.get(), budget),
        ShardCall::ReadForCheck(place, userset, user) => {
            shard.read_for_check(alloc, *place, userset.get(), user.get(), budget)
        }
        _ => unreachable!(),
    }
}

fn look_at<D: Device>(
    alloc: Global,
    opened: &Opened<D>,
    call: &ShardCall,
    budget: &mut Budget,
) -> Result<ReadReply, Refusal>
    requires { is_read call.now ≡ true }
    ensures { (number : ℕ) → MayAsk (seen opened.now) (of_shard number call.now) → Answered D.state D.honest D.moment D.left_since (seen opened.now) (of_shard number call.now) (from_shard (read_reply call.now result)) (seen opened.now) }
{
    match opened {
        // Nobody asks it for a shard's call.
        Opened::Coordinator(_) => Err(Refusal::Down),
        Opened::Shard(shard) => read(alloc, shard, call, budget),
        Opened::Refused(refused) => Err(refused.refusal),
    }
}

/// Makes the one read, of a shard, which stays as it is. One whose opening was refused answers that refusal. The call is only looked at: `into_reply` makes
/// the reply from it and this answer. What is read is counted: if an answer would take more than it may, it is refused with `NoMemory`.
pub fn look<D: Device>(
    node: &Node<D>,
    call: &ShardCall,
    told: &mut Told,
) -> Result<ReadReply, Refusal>
    requires { is_read call.now ≡ true }
    ensures answered { (number : ℕ) → MayAsk node.now (of_shard number call.now) → Answered D.state D.honest D.moment D.left_since node.now (of_shard number call.now) (from_shard (read_reply call.now result)) node.now }
    ensures told { Notes told.old (from_shard (read_reply call.now result)) told.new }
{
    let answer = look_at(node.alloc, &node.opened, call, &mut told.budget);
    if let Err(refusal) = &answer {
        told.note(*refusal);
    }
    answer
}
