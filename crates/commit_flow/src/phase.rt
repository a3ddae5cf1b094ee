// The phases of a write: between two of its calls, and while one is out.
ghost use Rattle.std.specs.Prelude.{◌≡◌, ◌≤◌, ◌<◌, ◌+◌, ◌++◌, ◌∷◌, [], true};
ghost use Rattle.std.specs.Vec.{vec_len};
ghost use Rattle.tuples.specs.declared.entry.Entry.{Entry as AnyEntry};
ghost use Rattle.tuples.specs.Parts.{takes_part};
ghost use Rattle.commit_flow.specs.Participants.{ArePartsOf, AreTicketsFor, AreVotesFor, participants_below, ticket_shards, vote_shards};

use crate::ballot::Ballot;
use crate::load::Load;
use catch_up::{CatchUp, CatchUpCall};
use coordinator::Decided;
use decisions::{Held, Intent, Ticket, Verdict, Vote};
use tuples::{Refusal, Write, WriteId};

/// The shards prepare their parts, one after another. It is this one's turn.
pub(crate) struct Preparing {
    pub(crate) intent: Intent,
    pub(crate) load: Load,
    pub(crate) shard: u8,
    ghost takes: { takes_part load.shards shard intent.write ≡ true },
    ghost there: { shard < load.shards },
    ghost few: { vec_len load.tickets ≤ shard },
    ghost no_votes: { vec_len load.votes ≡ 0 },
    ghost none: { load.votes.items ≡ [] },
    ghost asked: { ticket_shards load.tickets.items ≡ participants_below load.shards intent.write shard },
    ghost own: { AreTicketsFor intent.write.id load.tickets.items },
}

/// The same, while the intent is out: the bits of the participants stay here, so that the intent is known when it comes back.
pub(crate) struct AskedPrepare {
    pub(crate) id: WriteId,
    pub(crate) load: Load,
    pub(crate) shard: u8,
    pub(crate) participants: u64,
    ghost there: { shard < load.shards },
    ghost few: { vec_len load.tickets ≤ shard },
    ghost no_votes: { vec_len load.votes ≡ 0 },
    ghost none: { load.votes.items ≡ [] },
    ghost asked: { (w : AnyEntry) → ArePartsOf participants load.shards w → ticket_shards load.tickets.items ≡ participants_below load.shards w shard },
    ghost own: { AreTicketsFor id load.tickets.items },
}

/// The shards vote, one after another. The ticket of this one was taken from the others.
pub(crate) struct Voting {
    pub(crate) intent: Intent,
    pub(crate) load: Load,
    pub(crate) shard: u8,
    ghost room: { vec_len load.tickets + vec_len load.votes < load.shards },
    ghost all: { vote_shards load.votes.items ++ shard ∷ ticket_shards load.tickets.items ≡ participants_below load.shards intent.write load.shards },
    ghost own_tickets: { AreTicketsFor intent.write.id load.tickets.items },
    ghost own_votes: { AreVotesFor intent.write.id load.votes.items },
}

/// The write goes out undecided, with the refusal that it met, or cancelled. What the shards gave is listed by rising shard: the votes, the ticket that
/// was to become the next vote, and the other tickets.
pub(crate) struct Leaving {
    pub(crate) id: WriteId,
    pub(crate) met: Option<Refusal>,
    pub(crate) votes: Vec<Vote>,
    pub(crate) hand: Option<(u8, Ticket)>,
    pub(crate) tickets: Vec<(u8, Ticket)>,
}

/// Its next call.
pub(crate) enum Ready {
    Begin(Write, Load),
    CatchUp(Preparing, CatchUp),
    /// Whether the shard was flushed for it already.
    Prepare(Preparing, bool),
    FlushToPrepare(Preparing),
    Vote(Voting, Ticket),
    FlushToVote(Voting, Ticket),
    /// Whether the coordinator was flushed for it already.
    Decide(Ballot, bool),
    FlushToDecide(Ballot),
    Outcome(WriteId, Decided),
    FlushToOutcome(WriteId, Decided),
    Abort(Intent, Leaving),
    Inquire(Leaving),
    /// At this shard, with what it gave.
    DropWrite(Verdict, Leaving, u8, Held),
}

/// The call that is out, with what stays here.
pub(crate) enum Out {
    Begin(Load),
    CatchUp(Preparing, CatchUpCall),
    Prepare(AskedPrepare, bool),
    FlushToPrepare(Preparing),
    Vote(Voting),
    FlushToVote(Voting, Ticket),
    Decide(WriteId, bool),
    FlushToDecide(Ballot),
    Outcome(WriteId),
    FlushToOutcome(WriteId, Decided),
    Abort(Leaving),
    Inquire(Leaving),
    DropWrite(Leaving),
}
