// All decisions that a coordinator has ever staged.
ghost use Rattle.std.specs.Prelude.{◌≡◌, ◌+◌, ◌++◌, ◌<◌, ◌^◌, [], length};
ghost use Rattle.sides.specs.CoordinatorSides.{tried_by, write_of};
ghost use Rattle.tuples.specs.declared.entry.Entry.{Entry as AnyEntry};

use calls::{CoordinatorCall, CoordinatorReply, Reply};
use published::{Adds, LogPass, Published};
use std::alloc::{AllocError, Global};
use std::marker::{Brand, Model};
use std::snapshot::Snapshot;
use tuples::Entry;

/// A decision that was once staged: in which epoch of the coordinator, at which place, and of which write. No value of it is made.
pub struct Attempt {
    pub epoch: u64,
    pub place: u64,
    pub write: Entry,
}

impl Model for Attempt {
    ghost use Rattle.ties.specs.Ties.{Attempt as AnyAttempt};

    ghost Value = { AnyAttempt };

    ghost view = { λ a. record { epoch = a.epoch; place = a.place; write = a.write } };
}

/// The words that stand for the decisions that a store's coordinator stages, until the store is opened.
#[derive(Drop)]
pub struct Attempts {
    words: Published<Attempt>,
    log: LogPass<Attempt>,
}

impl Model for Attempts {
    ghost use Rattle.std.specs.Prelude.{◌≡◌, []};
    ghost use Rattle.atomic_table.specs.Seated.{TableId};

    ghost Value = { TableId };

    ghost view = { λ a. a.words };

    ghost invariant = { λ a. (a.log.table ≡ a.words) × (a.log.seen ≡ []) };
}

impl Attempts {
    /// No decision was staged yet.
    pub fn new(alloc: Global) -> Result<Attempts, AllocError> {
        let (words, log) = Published::new(alloc)?;
        Ok(Attempts { words, log })
    }

    /// The words, and the pass that alone moves them, for the coordinator.
    pub fn into_parts(self) -> (Published<Attempt>, LogPass<Attempt>)
        ensures own { (result.0 ≡ self) × (result.1.table ≡ self) }
        ensures empty { result.1.seen ≡ [] }
    {
        let Attempts { words, log } = self;
        (words, log)
    }
}

// How many decisions a reply tells as staged.
fn count_in(reply: &Reply) -> u64
    ensures { (write : AnyEntry) → result ≡ length (tried_by write reply.now) }
{
    match reply {
        Reply::Coordinator(CoordinatorReply::Decide(Ok(_))) => 1,
        _ => 0,
    }
}

fn announce<A: Adds<Attempt>>(
    words: &Published<Attempt>,
    log: &mut LogPass<Attempt>,
    call: &Snapshot<CoordinatorCall>,
    reply: &Reply,
)
    requires own { log.old.table ≡ words.now }
    requires room { length log.old.seen + 1 < 2 ^ 64 }
    requires added { A.added ≡ tried_by (write_of call.now.value) reply.now }
    ensures same { log.new.table ≡ log.old.table }
    ensures added { log.new.seen ≡ log.old.seen ++ tried_by (write_of call.now.value) reply.now }
{
    let _call = call;
    let place = words.length(log) + count_in(reply);
    words.advance::<A>(log, place);
}

/// The decision that the reply to this call tells as staged, if it tells one, is one more that was ever staged.
pub(crate) fn note_decision(
    words: &Published<Attempt>,
    log: &mut LogPass<Attempt>,
    call: &Snapshot<CoordinatorCall>,
    reply: &Reply,
)
    requires own { log.old.table ≡ words.now }
    requires room { length log.old.seen + 1 < 2 ^ 64 }
    ensures same { log.new.table ≡ log.old.table }
    ensures added { log.new.seen ≡ log.old.seen ++ tried_by (write_of call.now.value) reply.now }
{
    announce::<Brand>(words, log, call, reply);
}
