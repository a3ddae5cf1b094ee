// What a flow holds is only spent.
use crate::load::{leave_tickets, leave_votes};
use crate::phase::{Leaving, Preparing, Ready, Voting};
use decisions::Ticket;

fn leave_preparing(preparing: Preparing) {
    let Preparing {
        intent,
        load,
        shard: _,
    } = preparing;
    intent.leave();
    load.leave();
}

fn leave_voting(voting: Voting) {
    let Voting {
        intent,
        load,
        shard: _,
    } = voting;
    intent.leave();
    load.leave();
}

fn leave_with(voting: Voting, ticket: Ticket) {
    ticket.leave();
    leave_voting(voting);
}

impl Leaving {
    pub(crate) fn leave(self) {
        let Leaving {
            id: _,
            met: _,
            votes,
            hand,
            tickets,
        } = self;
        leave_votes(votes);
        if let Some((_, ticket)) = hand {
            ticket.leave();
        }
        leave_tickets(tickets);
    }
}

impl Ready {
    pub(crate) fn leave(self) {
        match self {
            Ready::Begin(_, load) => load.leave(),
            Ready::CatchUp(preparing, _) => leave_preparing(preparing),
            Ready::Prepare(preparing, _) => leave_preparing(preparing),
            Ready::FlushToPrepare(preparing) => leave_preparing(preparing),
            Ready::Vote(voting, ticket) => leave_with(voting, ticket),
            Ready::FlushToVote(voting, ticket) => leave_with(voting, ticket),
            Ready::Decide(ballot, _) => ballot.leave(),
            Ready::FlushToDecide(ballot) => ballot.leave(),
            Ready::Outcome(_, decided) => decided.leave(),
            Ready::FlushToOutcome(_, decided) => decided.leave(),
            Ready::Abort(intent, leaving) => {
                intent.leave();
                leaving.leave();
            }
            Ready::Inquire(leaving) => leaving.leave(),
            Ready::DropWrite(_, leaving, _, held) => {
                held.leave();
                leaving.leave();
            }
        }
    }
}
