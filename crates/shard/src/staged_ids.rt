// The ids of staged prepares.
ghost use Rattle.std.specs.Prelude.{◌≡◌, ◌++◌, ◌∷◌, [], OnOk, OnErr, drop, length};
ghost use Rattle.shard.specs.Keeping.{has_id};

use std::alloc::{AllocError, Global};
use std::collections::VecDeque;
use std::marker::Model;
use tuples::WriteId;

/// Ids in the order in which their prepares were staged, which contracts see as a list. They are about as many as the writes that go on
/// at once, and are looked at one by one.
#[derive(Drop)]
pub(crate) struct StagedIds {
    ids: VecDeque<WriteId>,
}

impl Model for StagedIds {
    ghost use Rattle.std.specs.Prelude.{List};
    ghost use Rattle.tuples.specs.declared.entry.WriteId.{WriteId};

    ghost Value = { List WriteId };

    ghost view = { λ u. u.ids.items };
}

// Lets go of the first of them.
fn let_go(ids: &mut VecDeque<WriteId>, count: usize)
    ensures { ids.new.items ≡ drop count ids.old.items }
{
    for _ in 0..count {
        let _first = ids.pop_front();
    }
}

impl StagedIds {
    /// No ids, which takes no memory.
    pub fn new(alloc: Global) -> Self
        ensures { result ≡ [] }
    {
        StagedIds {
            ids: VecDeque::new(alloc),
        }
    }

    /// How many there are.
    pub fn len(&self) -> usize
        ensures { result ≡ length self.now }
    {
        self.ids.len()
    }

    /// Whether the id is one of them.
    pub fn has(&self, id: WriteId) -> bool
        ensures { result ≡ has_id id self.now }
    {
        self.ids.contains(&id)
    }

    /// The id is the last of them from here on. If memory is refused, nothing has changed.
    pub fn push(&mut self, id: WriteId) -> Result<(), AllocError>
        ensures ok { OnOk result (self.new ≡ self.old ++ id ∷ []) }
        ensures err { OnErr result (self.new ≡ self.old) }
    {
        match self.ids.push_back(id) {
            Ok(()) => Ok(()),
            Err(_) => Err(AllocError),
        }
    }

    /// None is one of them from here on.
    pub fn clear(&mut self)
        ensures { self.new ≡ [] }
    {
        self.ids.clear();
    }

    /// The first of them, whose prepares are staged no more, are forgotten.
    pub fn forget_first(&mut self, count: usize)
        ensures { self.new ≡ drop count self.old }
    {
        let_go(&mut self.ids, count);
    }
}
