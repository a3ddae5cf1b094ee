// The shards vote, one after another, and the write is decided by their votes.
ghost use Rattle.std.specs.Prelude.{◌≡◌, ◌≤◌, ◌<◌, ◌+◌, ◌++◌, [], Some, None, false, Option};
ghost use Rattle.std.specs.Vec.{vec_len};
ghost use Rattle.commit_flow.specs.Answering.{ComesNext, FlushGives, GoesOn, IsVoteOf, VoteGives};
ghost use Rattle.commit_flow.specs.Kept.{IsReadyOf};
ghost use Rattle.commit_flow.specs.Participants.{AreTicketsFor, AreVotesFor, participants_below, ticket_shards, vote_shards};
ghost use Rattle.commit_flow.specs.Views.{at_rest, holds_onward, in_hand, name_ready, tickets_of, view_out, view_ready};
ghost use Rattle.commit_flow.specs.WriteHolds as awaits;
ghost use Rattle.commit_flow.specs.WriteHolds.{outward};
ghost use Rattle.calls.specs.declared.reply.Reply.TheVariants as replies;
ghost use Rattle.calls.specs.declared.reply.ShardReply.TheVariants as shard_replies;
ghost use Rattle.commit_flow.specs.declared.phase.Out.TheVariants.{FlushToVote as flush_vote_out, Vote as vote_out};

use crate::ballot::Ballot;
use crate::load::Load;
use crate::phase::{Leaving, Ready, Voting};
use decisions::{Intent, Ticket};
use shard::VoteReply;
use tuples::Refusal;

/// The write goes out: its intent is handed to the coordinator, and then each shard what it gave.
pub(crate) fn go_out(
    intent: Intent,
    load: Load,
    hand: Option<(u8, Ticket)>,
    met: Option<Refusal>,
) -> Ready
    ensures goes { view_ready result ≡ at_rest (record (holds_onward intent.write.id (Some intent) (in_hand hand ++ tickets_of load) load.votes.items None) { way = outward met }) }
    ensures kept { IsReadyOf load.shards result }
{
    let Load {
        shards: _,
        tickets,
        votes,
    } = load;
    let id = intent.id();
    let leaving = Leaving {
        id,
        met,
        votes,
        hand,
        tickets,
    };
    Ready::Abort(intent, leaving)
}

/// The next ticket becomes a vote; after the last one the write is decided.
pub(crate) fn vote_next(intent: Intent, mut load: Load) -> Ready
    requires room { vec_len load.tickets + vec_len load.votes ≤ load.shards }
    requires all { vote_shards load.votes.items ++ ticket_shards load.tickets.items ≡ participants_below load.shards intent.write load.shards }
    requires own_tickets { AreTicketsFor intent.write.id load.tickets.items }
    requires own_votes { AreVotesFor intent.write.id load.votes.items }
    ensures goes { GoesOn (holds_onward intent.write.id (Some intent) (tickets_of load) load.votes.items None) (view_ready result) }
    ensures kept { IsReadyOf load.shards result }
{
    match load.take_ticket() {
        Some((shard, ticket)) => {
            let voting = Voting {
                intent,
                load,
                shard,
            };
            Ready::Vote(voting, ticket)
        }
        None => decide_next(intent, load),
    }
}

// All tickets are spent: the write is decided by its votes.
fn decide_next(intent: Intent, load: Load) -> Ready
    requires none { vec_len load.tickets ≡ 0 }
    requires all { vote_shards load.votes.items ≡ participants_below load.shards intent.write load.shards }
    requires own { AreVotesFor intent.write.id load.votes.items }
    ensures goes { GoesOn (holds_onward intent.write.id (Some intent) [] load.votes.items None) (view_ready result) }
    ensures kept { IsReadyOf load.shards result }
{
    let Load {
        shards,
        tickets,
        votes,
    } = load;
    tickets.destroy_empty();
    Ready::Decide(Ballot::new(shards, intent, votes), false)
}

/// The shard has voted, or has to be flushed before it does.
pub(crate) fn voted(voting: Voting, answer: VoteReply) -> Ready
    requires { IsVoteOf voting.shard voting.intent.write.id answer }
    ensures gives { VoteGives (view_out (vote_out voting)) voting.shard answer (view_ready result) }
    ensures next { ComesNext (awaits.vote voting.shard) (replies.Shard (shard_replies.Vote answer)) (name_ready result) }
    ensures kept { IsReadyOf voting.load.shards result }
{
    match answer {
        VoteReply::Yes(vote) => {
            let Voting {
                intent,
                mut load,
                shard: _,
            } = voting;
            load.add_vote(vote);
            vote_next(intent, load)
        }
        VoteReply::Later(ticket) => Ready::FlushToVote(voting, ticket),
        VoteReply::No(refusal) => {
            let Voting {
                intent,
                load,
                shard: _,
            } = voting;
            go_out(intent, load, None, Some(refusal))
        }
    }
}

/// The shard was flushed, and is asked again for its vote.
pub(crate) fn flushed_to_vote(voting: Voting, ticket: Ticket, answer: Result<(), Refusal>) -> Ready
    requires { ticket.id ≡ voting.intent.write.id }
    ensures gives { FlushGives (view_out (flush_vote_out voting ticket)) false answer (view_ready result) }
    ensures next { ComesNext (awaits.flush_to_vote voting.shard) (replies.Shard (shard_replies.Flush answer)) (name_ready result) }
    ensures kept { IsReadyOf voting.load.shards result }
{
    match answer {
        Ok(()) => Ready::Vote(voting, ticket),
        Err(refusal) => {
            let Voting {
                intent,
                load,
                shard,
            } = voting;
            go_out(intent, load, Some((shard, ticket)), Some(refusal))
        }
    }
}
